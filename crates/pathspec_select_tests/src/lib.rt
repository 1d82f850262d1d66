//! Tests of the program's `run`, filters and walks where memory runs out or devices fail. What they are made of stands open for other
//! tests.
#![tactic(auto)]

pub mod asked;
#[cfg(test)]
mod devices;
pub mod environments;
#[cfg(test)]
mod growths_of_filters;
#[cfg(test)]
mod growths_of_lists;
#[cfg(test)]
mod growths_of_runs;
pub mod memory_directories;
pub mod runs;
