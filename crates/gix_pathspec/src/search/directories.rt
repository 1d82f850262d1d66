//! One spec's part in the answers about directories (`directory_matches_prefix`, `longest_common_directory`).
ghost use Rattle.std.specs.Prelude.{◌≡◌, ◌≤◌, length, find, MatchOption, IsTrue, IsFalse};
ghost use Rattle.std.specs.List.{list_any, before_last};
ghost use Rattle.std.specs.Option.{option_map};
ghost use Rattle.bstr.specs.BStr.{bstr_bytes};
ghost use Rattle.gix_pathspec.specs.Attributes.{Table};
ghost use Rattle.gix_pathspec.specs.Paths.{is_slash};
ghost use Rattle.gix_pathspec.specs.Specs.{wants_directory};
ghost use Rattle.gix_pathspec.specs.Directories.{parent_or_self, parent, non_empty, front, leading_front, front_for, agrees_in_front, settles, settling_answer, allows_directory, directory_matches, ends_at_boundary, common_directory};
ghost use Rattle.gix_pathspec.specs.DirectoryLaws.{OutsideFitsNone, OutsideIsSafe, LeadingIsWider, CommonDirectoryHoldsAll};

use crate::search::spec::CompiledSpec;
use crate::search::spec_matching::begins_with;
use bstr::{BStr, ByteSlice};

impl CompiledSpec {
    /// Whether the spec settles if a directory lies in the prefix: an exclude with a wildcard, or one that takes every path.
    pub(super) fn settles(&self) -> bool
        ensures { result ≡ settles self.now.spec }
    {
        !self.is_include() && (self.has_wildcard() || self.is_total_exclude())
    }

    /// Whether the spec is an include that always matches, or whose front begins the path.
    pub(super) fn allows_directory(&self, path: &[u8], leading: bool) -> bool
        ensures { result ≡ allows_directory path.now leading self.now.spec }
    {
        self.is_include() && (self.always_matches() || self.agrees_in_front(path, leading))
    }

    /// Whether the spec's front begins the path, without case where the spec has none.
    fn agrees_in_front(&self, path: &[u8], leading: bool) -> bool
        ensures { result ≡ agrees_in_front self.now.spec path.now leading }
    {
        let front = if leading {
            self.leading_front(path.len())
        } else {
            self.front()
        };
        begins_with(path, front, self.ignores_case())
    }

    /// The front of the spec: its path, or with a wildcard the stem before its last slash, or all of a stem without one.
    /// `a/b*` has the front `a`, and `b*` has `b`.
    fn front(&self) -> &[u8]
        ensures value { result.now ≡ front self.now.spec }
        ensures within { length result.now ≤ length self.now.spec.path }
    {
        if self.has_wildcard() {
            parent_or_self(self.stem())
        } else {
            self.path()
        }
    }

    /// The front, or where it is longer than `length`, a directory: the path's first `length` bytes, before their last slash.
    /// Without a slash in them it is all of them if a slash follows, and else the whole front.
    fn leading_front(&self, length: usize) -> &[u8]
        ensures { result.now ≡ leading_front self.now.spec length }
    {
        let front = self.front();
        let path = self.path();
        if front.len() <= length {
            return front;
        }
        let within = &path[..length];
        match before_last_slash(within) {
            Some(parent) => parent,
            None if path[length] == b'/' => within,
            None => front,
        }
    }

    /// Whether the spec's path ends after as many bytes as `common` has, or has a slash there.
    pub(super) fn ends_at_boundary(&self, common: &[u8]) -> bool
        ensures { result ≡ ends_at_boundary common.now self.now.spec }
    {
        let path = self.path();
        path.len() == common.len() || path.get(common.len()) == Some(&b'/')
    }
}

/// The path, or None if it is empty.
pub(super) fn non_empty(path: &[u8]) -> Option<BStr<'_>>
    ensures { option_map bstr_bytes result ≡ non_empty path.now }
{
    if path.is_empty() {
        None
    } else {
        Some(BStr::new(path))
    }
}

/// The text before its last slash, or all of it without a slash.
fn parent_or_self(text: &[u8]) -> &[u8]
    ensures { result.now ≡ parent_or_self text.now }
{
    match before_last_slash(text) {
        Some(front) => front,
        None => text,
    }
}

/// The text before its last slash, or nothing without a slash.
pub(super) fn parent(text: &[u8]) -> &[u8]
    ensures { result.now ≡ parent text.now }
{
    match before_last_slash(text) {
        Some(front) => front,
        None => &[],
    }
}

/// The text before its last slash, if it has one.
fn before_last_slash(text: &[u8]) -> Option<&[u8]>
    ensures { MatchOption result (IsFalse (list_any is_slash text.now))
        (λ front. IsTrue (list_any is_slash text.now)
        × (front.now ≡ before_last is_slash text.now)) }
{
    match text.rfind_byte(b'/') {
        Some(slash) => Some(&text[..slash]),
        None => None,
    }
}
