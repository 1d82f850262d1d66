//! Searches: specs that match paths together (gitglossary, "pathspec").
mod compiling;
pub(crate) mod counted;
mod directories;
pub(crate) mod exclude_members;
mod init;
pub mod laws;
mod matching;
pub(crate) mod members;
mod patterns;
mod pruning;
mod reach;
mod set_building;
pub(crate) mod set_sources;
mod spec;
pub mod spec_matching;
mod subtree_excludes;

use crate::Pattern;
pub use crate::by_head::Scratch;
use crate::by_head::SpecsByHead;
use crate::by_head::subtree_excludes::ExcludesByHead;
use bstr::BString;
pub use init::BuildError;
pub use matching::Match;
pub use patterns::{IntoPatterns, Patterns};
pub use pruning::Visit;
use reach::Reach;
use std::fmt;
use std::marker::Model;

/// The way in which a spec matches a path. Values are ordered as the variants stand.
#[derive(Clone, Copy, Debug, PartialEq, Eq, PartialOrd, Ord, Hash)]
pub enum MatchKind {
    /// The spec matches every path: it is nil, as `:`, or its path is empty.
    Always,
    /// The path lies below the spec's path, as `src/lib.rs` below `src`.
    Prefix,
    /// The spec's path is a glob that matches the path, as `*.rs` matches `lib.rs`.
    WildcardMatch,
    /// The path is the spec's path.
    Verbatim,
}

/// A list of specs that match paths together: excludes first, each group in the order in which the specs were given.
///
/// A match in a caller's [`Scratch`] only reads the search ([`Search::settle`]), so walkers can share it. Of the calls on a
/// search only [`Search::try_clone`] and [`Search::new_scratch`] take memory.
pub struct Search {
    specs: SpecsByHead,
    /// The room for the matches of [`Search::pattern_matching_relative_path`].
    scratch: Box<Scratch>,
    /// Tables of the paths that the includes reach, and of those that the excludes take whole.
    reach: Reach,
    /// The excludes that the search asks one by one whether a walk may skip a directory.
    excludes: ExcludesByHead,
    /// The spec `:`, which answers where no spec does.
    nil: Pattern,
    /// The source of the specs, as the name of a file. No answer depends on it.
    pub source: Option<BString>,
}

impl Model for Search {
    ghost use Rattle.std.specs.Box.{box_value};
    ghost use Rattle.std.specs.Option.{option_map};
    ghost use Rattle.bstr.specs.Owned.{bstring_bytes};
    ghost use Rattle.gix_pathspec.specs.Search.{SearchContents};
    ghost use Rattle.gix_pathspec.specs.Compiled.{IsSearch};

    ghost Value = { SearchContents };

    ghost view = { λ s. record { specs = s.specs; source = option_map bstring_bytes s.source; counts = (box_value s.scratch).counts } };

    ghost invariant = { λ s. IsSearch s.specs s.reach s.excludes s.nil (box_value s.scratch) };
}

// Written out, so that whoever drops a search needn't prove anew what becomes of its parts.
impl Drop for Search {
    fn drop(self) {
        let Search {
            specs: _specs,
            scratch: _scratch,
            reach: _reach,
            excludes: _excludes,
            nil: _nil,
            source: _source,
        } = self;
    }
}

impl fmt::Debug for Search {
    fn fmt<W: fmt::Write>(&self, f: &mut fmt::Formatter<W>) -> fmt::Result {
        f.debug_struct("Search")
            .field("patterns", &self.patterns())
            .field("last_tested", &self.last_tested())
            .field("last_compared", &self.last_compared())
            .field("source", &self.source)
            .finish()
    }
}
