//! Many globs at once: a set of globs tells which of them match a text, in one pass over the text from its end.
#![tactic(auto)]

mod borders;
mod columns;
mod member;
mod set;
mod table;

pub use member::Member;
pub use set::{GlobSet, SetScratch};
