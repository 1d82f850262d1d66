//! The command line of the program `pathspec`: its commands with their options, and what words ask for.
#![tactic(auto)]

mod commands;
mod options;
mod pages;
mod rows;
mod tips;

pub use commands::command;
pub use options::{ExplainOptions, FilterOptions, ListOptions, Modes, Options, SpecOptions, Task};
