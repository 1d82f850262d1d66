//! The program `pathspec-select`: reads a listing of paths, walks over it as a tree, and writes the records that specs choose.
#![tactic(auto)]

mod devices;
mod environment;
mod input;
mod job;
pub mod listing;
mod options;
mod output;
mod program;
mod refusal;
mod rows;
mod words;

pub use environment::Environment;
pub use job::Job;
pub use pathspec_parts::attributes::Rows;
pub use pathspec_walk::{SelectError, select};
pub use program::{run, run_with};
pub use refusal::{Refusal, exit_status};
