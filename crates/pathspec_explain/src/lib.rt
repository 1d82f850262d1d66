//! Why a search selects a path or doesn't, and why each of its specs matches it or doesn't.
#![tactic(auto)]

mod asked;
mod parting;
mod reason;
mod states;
mod verdict;
mod why;

pub use asked::{AskedSpec, asked_specs};
pub use reason::Reason;
pub use verdict::{Explanation, Verdict, explain};
