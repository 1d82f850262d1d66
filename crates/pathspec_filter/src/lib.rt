//! A filter of records in constant memory: the records that pathspecs select are written as they are read.
#![tactic(auto)]

mod answers;
mod choice;
mod chunk;
mod filtering;
mod pass;
mod place;
mod questions;
mod selection;

pub use answers::{Counts, FilterError};
pub use filtering::filter;
pub use selection::{LeadingDot, Selection, path_in};
