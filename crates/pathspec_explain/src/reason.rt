//! Why a spec matches a path or doesn't.

use gix_pathspec::search::MatchKind;

/// Why a spec matches a path, or why it doesn't. Places of bytes and of attributes count from 0.
#[derive(Clone, Copy, Debug, PartialEq, Eq)]
pub enum Reason {
    /// It matches, in this way, and the path has each attribute that it lists.
    Matches(MatchKind),
    /// It fits, but the path has another state of the attribute that stands at this place of its list. The first such place.
    OtherState(usize),
    /// It fits and lists attributes, but the look-up has no answer for the path.
    NoStates,
    /// The path is a file, and the spec would fit it as a directory, in this way.
    OnlyDirectory(MatchKind),
    /// The spec ignores case, but for its prefix directory, and the path parts at this byte from that and a slash.
    OutsidePrefix(usize),
    /// Case counts for the spec, and without case it would fit, in this way.
    WithoutCase(MatchKind),
    /// The path parts at this byte from what it would have to begin with: a glob's stem, else the spec's path and a slash.
    Parts(usize),
    /// The path begins with the glob's stem, but the glob doesn't match it.
    GlobFails,
}
