//! What settles a path.
ghost use Rattle.std.specs.Prelude.{◌≡◌, ◌≢◌, ◌&&◌, [], ℕ, List, Bool, Some, false, IfOk};
ghost use Rattle.std.specs.List.{list_any};
ghost use Rattle.std.specs.Option.{option_map};
ghost use Rattle.bstr.specs.BStr.{bstr_bytes};
ghost use Rattle.gix_pathspec.specs.Attributes.{Table, AsksLookUp};
ghost use Rattle.gix_pathspec.specs.Specs.{is_include};
ghost use Rattle.gix_pathspec.specs.Matching.{is_chosen};
ghost use Rattle.gix_pathspec.specs.Skipping.{may_skip};
ghost use Rattle.gix_pathspec.specs.Found.{match_view};
ghost use Rattle.gix_pathspec.specs.Search.{specs_of, answer, selects};
ghost use Rattle.gix_pathspec.specs.Room.{Fits};
ghost use Rattle.pathspec_explain.specs.Verdicts.{IsVerdict, NoneIncludes, is_selected};

use crate::parting::parting;
use bstr::BStr;
use gix_pathspec::Search;
use gix_pathspec::attributes::LookUp;
use gix_pathspec::search::{Match, Scratch};

/// What a search says of a path, and what settles that. Specs have the numbers that they were given under, from 0.
#[derive(Clone, Copy, Debug, PartialEq, Eq)]
pub enum Verdict {
    /// Selected: the spec with this number, an include, is the first in search order that matches.
    Selected(usize),
    /// Not selected: the spec with this number, an exclude, is the first in search order that matches.
    Excluded(usize),
    /// Selected: there is no include, and no exclude matches.
    NoExcludeMatches,
    /// Not selected: there are includes, and none matches.
    NoIncludeMatches,
    /// Not selected: the heads of all includes begin with the common prefix, and the path parts from it at this byte.
    LacksCommonPrefix(usize),
}

/// The verdict on a path, and what a walk may do there.
#[derive(Clone, Copy, Debug, PartialEq, Eq)]
pub struct Explanation {
    /// What settles the path.
    pub verdict: Verdict,
    /// The path is a directory, and a walk may skip what lies below it, since nothing there is selected.
    pub may_skip: bool,
}

/// Says what settles a path that isn't empty. A directory's path has no slash at its end. It costs what [`Search::settle`] and
/// [`Search::may_skip`] cost, and a look at each byte of the common prefix. It takes no memory.
///
/// # Errors
/// The look-up's fault, and only where the look-up failed in this call.
pub fn explain<L: LookUp>(
    search: &Search,
    path: BStr<'_>,
    is_dir: bool,
    scratch: &mut Scratch,
    look_up: &mut L,
) -> Result<Explanation, L::Fault>
    requires fits { Fits search.now.specs scratch.old }
    requires some { bstr_bytes path ≢ [] }
    ensures verdict { IfOk result (λ told. IsVerdict (L.table look_up.old) search.now.specs
        (bstr_bytes path.entry) is_dir told.verdict) }
    ensures chosen { IfOk result (λ told. is_selected told.verdict
        ≡ is_chosen (L.table look_up.old) (specs_of search.now.specs)
        (bstr_bytes path.entry) is_dir) }
    ensures may_skip { IfOk result (λ told. told.may_skip
        ≡ (may_skip (specs_of search.now.specs) (bstr_bytes path.entry) && is_dir)) }
    ensures room { scratch.new.room ≡ scratch.old.room }
    ensures look_up { AsksLookUp (L.table look_up.old) (L.failures look_up.old)
        (L.table look_up.new) (L.failures look_up.new) result }
{
    let may_skip = search.may_skip(path, scratch) && is_dir;
    let found = search.settle(path, Some(is_dir), scratch, look_up)?;
    let verdict = verdict_of(search, path, found);
    Ok(Explanation { verdict, may_skip })
}

/// The verdict that the answer of [`Search::settle`] stands for.
fn verdict_of(search: &Search, path: BStr<'_>, found: Option<Match<'_>>) -> Verdict
    ensures selected { is_selected result ≡ selects (option_map match_view found.entry) }
    ensures verdict { (table : Table) (is_dir : Bool) → bstr_bytes path.entry ≢ []
        → option_map match_view found.entry
        ≡ answer table search.now.specs (bstr_bytes path.entry) is_dir
        → IsVerdict table search.now.specs (bstr_bytes path.entry) is_dir result }
{
    match found {
        Some(found) => settled(search, &found),
        None => unsettled(search, path),
    }
}

/// The verdict on a path for which a match was found: by a spec, or by the nil pattern where there is no include.
fn settled(search: &Search, found: &Match<'_>) -> Verdict
    ensures selected { is_selected result ≡ is_include (match_view found.now).pattern }
    ensures verdict { (table : Table) (path : List ℕ) (is_dir : Bool) → path ≢ []
        → answer table search.now.specs path is_dir ≡ Some (match_view found.now)
        → IsVerdict table search.now.specs path is_dir result }
{
    if found.is_excluded() {
        return Verdict::Excluded(found.sequence_number);
    }
    if has_include(search) {
        return Verdict::Selected(found.sequence_number);
    }
    Verdict::NoExcludeMatches
}

/// The verdict on a path that no spec settles.
fn unsettled(search: &Search, path: BStr<'_>) -> Verdict
    ensures selected { is_selected result ≡ false }
    ensures verdict { (table : Table) (is_dir : Bool)
        → NoneIncludes table (specs_of search.now.specs) (bstr_bytes path.entry) is_dir
        → IsVerdict table search.now.specs (bstr_bytes path.entry) is_dir result }
{
    match parting(search.common_prefix().as_bytes(), path.as_bytes(), false) {
        Some(at) => Verdict::LacksCommonPrefix(at),
        None => Verdict::NoIncludeMatches,
    }
}

/// Whether a search has an include.
fn has_include(search: &Search) -> bool
    ensures { result ≡ list_any is_include (specs_of search.now.specs) }
{
    let mut patterns = search.patterns();
    while let Some(pattern) = patterns.next() {
        if !pattern.is_excluded() {
            return true;
        }
    }
    false
}
