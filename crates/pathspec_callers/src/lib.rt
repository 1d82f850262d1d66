//! Callers of the library crates, which the `CALLING.md` of each shows.
#![tactic(auto)]

pub mod attribute_files;
pub mod attributes;
pub mod filter;
pub mod glob;
pub mod heads;
pub mod lines;
pub mod search;
pub mod select;
pub mod sets;
pub mod spec;
pub mod stems;
pub mod store;
