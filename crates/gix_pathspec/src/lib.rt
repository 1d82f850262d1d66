//! git's pathspecs (gitglossary, "pathspec"): reads specs, normalises them and matches paths with them.
#![tactic(auto)]

pub mod attributes;
mod by_head;
pub mod search;

pub use pathspec_pattern::{Defaults, Error, MagicSignature, Pattern, SearchMode, defaults, parse};
pub use search::{BuildError, Search, laws};
