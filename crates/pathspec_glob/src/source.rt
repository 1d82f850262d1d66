//! The pattern that a glob was compiled from, which only clauses see.
ghost use Rattle.std.specs.Prelude.{◌≡◌, ℕ, List};
ghost use Rattle.std.specs.Borrow.{ftrue};

use std::marker::Model;

/// The pattern of a glob. It takes no bytes, and no code can read it.
#[derive(Drop)]
pub struct Source {
    pub ghost pattern: { List ℕ },
}

impl Model for Source {
    ghost also_owns = { λ _. ftrue };
}

// It owns nothing, so a glob may go to another thread, and threads may share it.
unsafe impl Send for Source {}

unsafe impl Sync for Source {}

impl Source {
    /// Makes the source that clauses see as the given pattern. It takes no memory, and reads no byte.
    pub(crate) fn of(_pattern: &[u8]) -> Source
        ensures { result.pattern ≡ _pattern.now }
    {
        Source {}
    }
}
