//! Which records are taken, and what a `./` in front of one is.
ghost use Rattle.std.specs.Prelude.{◌≡◌};
ghost use Rattle.pathspec_filter.specs.Selections.{path_in};
ghost use Rattle.pathspec_filter.specs.declared.selection.LeadingDot.TheVariants.{Dropped};

/// Whether a `./` in front of a record is part of its path. The record is written as it stands in both cases.
#[derive(Clone, Copy, Debug, PartialEq, Eq)]
pub enum LeadingDot {
    /// It is: the path of `./src/a` is `./src/a`.
    Kept,
    /// It isn't, where more stands behind it: the path of `./src/a`, which `find .` prints, is `src/a`. The path of `./` is `.`.
    Dropped,
}

/// Which records a filter takes.
#[derive(Clone, Copy, Debug, PartialEq, Eq)]
pub struct Selection {
    /// Whether a leading `./` is part of a record's path.
    pub leading_dot: LeadingDot,
    /// Whether the filter takes the records that the search doesn't select, as `grep -v` does, instead of those that it selects.
    pub is_inverted: bool,
}

/// What a path is, where a leading `./` is part of it or not.
#[inline(always)]
pub fn path_in(leading_dot: LeadingDot, path: &[u8]) -> &[u8]
    ensures { result.now ≡ path_in leading_dot path.now }
{
    match leading_dot {
        LeadingDot::Kept => path,
        LeadingDot::Dropped => without_dot(path),
    }
}

/// A path without a `./` that more stands behind.
#[inline(always)]
fn without_dot(path: &[u8]) -> &[u8]
    ensures { result.now ≡ path_in Dropped path.now }
{
    match path.strip_prefix(b"./") {
        Some(behind) if !behind.is_empty() => behind,
        _ => path,
    }
}
