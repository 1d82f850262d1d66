//! The commands of the program `pathspec`: filter, list, explain and show.
#![tactic(auto)]

mod advice;
mod asked;
mod attribute_directory;
mod attribute_rows;
mod attributes;
mod decided;
mod devices;
mod environment;
mod explaining;
mod failure;
mod filtering;
mod json;
mod lister;
mod listing;
mod pieces;
mod piecewise;
mod quoted_records;
mod reaching;
mod reason_texts;
mod running;
mod showing;
mod spec_texts;
mod telling;
mod text;
mod unmatched;
mod verdicts;

pub use failure::Failure;
pub use running::run;
