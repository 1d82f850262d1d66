//! The parts that pathspecs are made of: paths, attributes, globs.
#![tactic(auto)]

pub mod attributes;
pub mod path;
pub mod records;
pub mod split;
pub mod tree;
pub mod truth;
pub mod writing;

pub use pathspec_glob as glob;
