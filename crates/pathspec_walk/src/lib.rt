//! Walks over trees, which give the entries that a search chooses and enter no directory that it may skip.
#![tactic(auto)]

mod walk;

pub use walk::{SelectError, select};
