//! Why a pattern doesn't fit a path.
ghost use Rattle.std.specs.Prelude.{◌≡◌, ◌≤◌, ◌++◌, ◌∷◌, [], true, false, length, Bool, Some, None, MatchOption, IfSome, IsTrue, IsFalse};
ghost use Rattle.bstr.specs.BStr.{bstr_bytes};
ghost use Rattle.gix_pathspec.specs.Attributes.{Table};
ghost use Rattle.gix_pathspec.specs.Bytes.{slash};
ghost use Rattle.gix_pathspec.specs.Specs.{ignores_case, is_glob, prefix_directory};
ghost use Rattle.gix_pathspec.specs.Patterns.{pattern_spec};
ghost use Rattle.gix_pathspec.specs.Matching.{fit, is_in_prefix_directory};
ghost use Rattle.gix_pathspec.specs.Prefixes.{stem};
ghost use Rattle.gix_pathspec.specs.Room.{glob_of, tokens_of};
ghost use Rattle.pathspec_explain.specs.Parting.{PartsAt};
ghost use Rattle.pathspec_explain.specs.Reasons.{IsReason, without_case};

use crate::Reason;
use crate::parting::{parting, parting_below};
use bstr::BStr;
use gix_pathspec::Pattern;
use gix_pathspec::search::MatchKind;
use gix_pathspec::search::spec_matching::{ignores_case, is_in_prefix_directory, match_kind};
use pathspec_glob::{Glob, Scratch, first_wildcard};

/// Why a pattern doesn't fit a path. `folded` is the pattern without case, and `glob` is the glob of both.
pub(crate) fn why_not(
    pattern: &Pattern,
    folded: &Pattern,
    glob: &Option<Glob>,
    globs: &mut Scratch,
    path: BStr<'_>,
    is_dir: bool,
) -> Reason
    requires unfit { fit (pattern_spec pattern.now) (bstr_bytes path) is_dir ≡ None }
    requires folded { pattern_spec folded.now ≡ without_case (pattern_spec pattern.now) }
    requires glob { glob.now ≡ glob_of (pattern_spec pattern.now) }
    requires room { tokens_of (pattern_spec pattern.now) ≤ globs.old.tokens }
    ensures reason { (table : Table)
        → IsReason table (pattern_spec pattern.now) (bstr_bytes path.entry) is_dir result }
    ensures room { globs.new.tokens ≡ globs.old.tokens }
{
    if let Some(kind) = kind_as_directory(pattern, glob, globs, path, is_dir) {
        return Reason::OnlyDirectory(kind);
    }
    if let Some(at) = outside_prefix(pattern, path, is_dir) {
        return Reason::OutsidePrefix(at);
    }
    if let Some(kind) = kind_without_case(pattern, folded, glob, globs, path, is_dir) {
        return Reason::WithoutCase(kind);
    }
    where_it_parts(pattern, path)
}

/// How a pattern that doesn't fit a path would fit it as a directory.
fn kind_as_directory(
    pattern: &Pattern,
    glob: &Option<Glob>,
    globs: &mut Scratch,
    path: BStr<'_>,
    is_dir: bool,
) -> Option<MatchKind>
    requires unfit { fit (pattern_spec pattern.now) (bstr_bytes path) is_dir ≡ None }
    requires glob { glob.now ≡ glob_of (pattern_spec pattern.now) }
    requires room { tokens_of (pattern_spec pattern.now) ≤ globs.old.tokens }
    ensures kind { result ≡ fit (pattern_spec pattern.now) (bstr_bytes path.entry) true }
    ensures room { globs.new.tokens ≡ globs.old.tokens }
{
    if is_dir {
        None
    } else {
        match_kind(pattern, glob, globs, path, true)
    }
}

/// Where a path parts from the prefix directory of a pattern without case, and a slash. None where it may match.
fn outside_prefix(pattern: &Pattern, path: BStr<'_>, is_dir: bool) -> Option<usize>
    ensures { let spec = pattern_spec pattern.now in let path = bstr_bytes path.entry in
        MatchOption result (is_in_prefix_directory spec path is_dir ≡ true)
        (λ at. IsFalse (is_in_prefix_directory spec path is_dir)
        × PartsAt (prefix_directory spec ++ slash ∷ []) path at) }
{
    if is_in_prefix_directory(pattern, path, is_dir) {
        return None;
    }
    parting_below(
        pattern.prefix_directory().as_bytes(),
        path.as_bytes(),
        false,
    )
}

/// How a pattern for which case counts would fit a path without case.
fn kind_without_case(
    pattern: &Pattern,
    folded: &Pattern,
    glob: &Option<Glob>,
    globs: &mut Scratch,
    path: BStr<'_>,
    is_dir: bool,
) -> Option<MatchKind>
    requires folded { pattern_spec folded.now ≡ without_case (pattern_spec pattern.now) }
    requires glob { glob.now ≡ glob_of (pattern_spec pattern.now) }
    requires room { tokens_of (pattern_spec pattern.now) ≤ globs.old.tokens }
    ensures kind { IfSome result (λ kind. IsFalse (ignores_case (pattern_spec pattern.now))
        × (fit (without_case (pattern_spec pattern.now)) (bstr_bytes path.entry) is_dir
        ≡ Some kind)) }
    ensures room { globs.new.tokens ≡ globs.old.tokens }
{
    if ignores_case(pattern) {
        None
    } else {
        match_kind(folded, glob, globs, path, is_dir)
    }
}

/// Where a path that a pattern fits neither as a file nor as a directory parts from what it would have to begin with. It is in
/// the prefix directory.
fn where_it_parts(pattern: &Pattern, path: BStr<'_>) -> Reason
    requires unfit { fit (pattern_spec pattern.now) (bstr_bytes path) true ≡ None }
    requires inside { is_in_prefix_directory (pattern_spec pattern.now) (bstr_bytes path) true
        ≡ true }
    ensures { (table : Table) (is_dir : Bool)
        → fit (pattern_spec pattern.now) (bstr_bytes path.entry) is_dir ≡ None
        → IsReason table (pattern_spec pattern.now) (bstr_bytes path.entry) is_dir result }
{
    if pattern.is_glob() {
        where_glob_parts(pattern, path)
    } else {
        where_text_parts(pattern, path)
    }
}

/// Where a path parts from the stem of a pattern with a glob that doesn't match it; else the glob alone fails.
fn where_glob_parts(pattern: &Pattern, path: BStr<'_>) -> Reason
    requires glob { is_glob (pattern_spec pattern.now) ≡ true }
    requires unfit { fit (pattern_spec pattern.now) (bstr_bytes path) true ≡ None }
    requires inside { is_in_prefix_directory (pattern_spec pattern.now) (bstr_bytes path) true
        ≡ true }
    ensures { (table : Table) (is_dir : Bool)
        → fit (pattern_spec pattern.now) (bstr_bytes path.entry) is_dir ≡ None
        → IsReason table (pattern_spec pattern.now) (bstr_bytes path.entry) is_dir result }
{
    match parting(stem(pattern), path.as_bytes(), ignores_case(pattern)) {
        Some(at) => Reason::Parts(at),
        None => Reason::GlobFails,
    }
}

/// Where a path parts from the path, and a slash, of a pattern without a glob that doesn't match it.
fn where_text_parts(pattern: &Pattern, path: BStr<'_>) -> Reason
    requires text { is_glob (pattern_spec pattern.now) ≡ false }
    requires unfit { fit (pattern_spec pattern.now) (bstr_bytes path) true ≡ None }
    requires inside { is_in_prefix_directory (pattern_spec pattern.now) (bstr_bytes path) true
        ≡ true }
    ensures { (table : Table) (is_dir : Bool)
        → fit (pattern_spec pattern.now) (bstr_bytes path.entry) is_dir ≡ None
        → IsReason table (pattern_spec pattern.now) (bstr_bytes path.entry) is_dir result }
{
    let own = pattern.path().as_bytes();
    match parting_below(own, path.as_bytes(), ignores_case(pattern)) {
        Some(at) => Reason::Parts(at),
        None => unreachable!(),
    }
}

/// The stem of a pattern: its path before the first wildcard byte, or all of a nil pattern's path.
fn stem(pattern: &Pattern) -> &[u8]
    ensures { result.now ≡ stem (pattern_spec pattern.now) }
{
    &pattern.path().as_bytes()[..stem_length(pattern)]
}

/// The length of a pattern's stem.
fn stem_length(pattern: &Pattern) -> usize
    ensures { result ≡ length (stem (pattern_spec pattern.now)) }
{
    let path = pattern.path().as_bytes();
    if pattern.is_nil() {
        path.len()
    } else {
        first_wildcard(path).unwrap_or(path.len())
    }
}
