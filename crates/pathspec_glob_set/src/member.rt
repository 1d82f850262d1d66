//! The globs of a set.
use pathspec_glob::{Case, Tokens};

/// A glob of a set.
#[derive(Drop)]
pub struct Member {
    /// Its tokens.
    pub tokens: Tokens,
    /// Whether case counts.
    pub case: Case,
    /// Whether it decides where it matches: then globs with higher numbers may be left out.
    pub cuts: bool,
}
