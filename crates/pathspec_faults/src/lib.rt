//! Faults of pathspecs for people: where in the text a fault is, what it says, and what to write instead.
#![tactic(auto)]

mod lists;
mod magic;
mod messages;
mod places;
mod positions;
mod proposals;
mod reports;
mod shown;
mod wanted;

pub use places::place;
pub use reports::report;
pub use shown::push_shown;
