//! What all crates of tests share: look-ups, trees, and calls with each growth refused.
#![tactic(auto)]

pub mod growths;
pub mod look_ups;
pub mod trees;
