//! What both programs want of their process: the words of the command line, and an output that tells when its reader went away.
#![tactic(auto)]

mod arguments;
mod output;

pub use arguments::{WordsError, words};
pub use output::Output;
