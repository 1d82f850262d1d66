//! Tests of globs, sets of globs, heads, parts and attribute files where memory runs out. What they are made of stands open for
//! other tests.
#![tactic(auto)]

#[cfg(test)]
mod growths_of_files;
#[cfg(test)]
mod growths_of_parts;
#[cfg(test)]
mod growths_of_sets;
pub mod heads;
pub mod manual;
pub mod rooms;
pub mod sets;
