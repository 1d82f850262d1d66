//! Questions to searches about paths.
//!
//! Each answer is 1 for yes or 0 for no, and nothing else, so that a caller may take it for a truth value. Where it isn't
//! known, it is the one that loses no path: an empty handle skips no directory, and a match that had no memory selects.
ghost use Rattle.std.specs.Prelude.{◌≡◌, ◌≢◌, false, true, is_none, None, Some, IfNone, IfSome, MatchOption};
ghost use Rattle.gix_pathspec.specs.Pruning.{can_match};
ghost use Rattle.gix_pathspec.specs.Search.{selects, specs_of};
ghost use Rattle.gix_pathspec.specs.Skipping.{may_skip};
ghost use Rattle.pathspec_c.specs.Calls.{IsYesOrNo, yes_no};
ghost use Rattle.pathspec_c.specs.Searchers.{KeepsSearcher, answer_in, has_attributes};
ghost use Rattle.pathspec_c.specs.Reports.{IsUnanswered, TellsAnswer};

use crate::handle::PsSearch;
use crate::reports::PsMatch;
use bstr::BStr;
use std::alloc::Global;

/// Whether a handle is empty.
#[unsafe(no_mangle)]
pub extern "C" fn ps_search_is_empty(alloc: Global, search: &mut PsSearch) -> u32
    ensures stays { search.new.searcher ≡ search.old.searcher }
    ensures answer { result ≡ yes_no (is_none search.old.searcher) }
{
    match search.take(alloc) {
        Some(searcher) => {
            search.put(searcher);
            0
        }
        None => 1,
    }
}

/// Whether the search selects a path, and the spec that settles it. An empty handle selects nothing. Where memory ran out,
/// which is only where attributes were given, the answer is 1 with the kind 5.
#[unsafe(no_mangle)]
pub extern "C" fn ps_search_match(
    alloc: Global,
    search: &mut PsSearch,
    path: &[u8],
    is_dir: bool,
    found: &mut PsMatch,
) -> u32
    ensures stays { KeepsSearcher search.old.searcher search.new.searcher }
    ensures empty { IfNone search.old.searcher ((result ≡ 0) × TellsAnswer found.new None) }
    ensures answer { found.new.kind ≢ 5 → IfSome search.old.searcher (λ searcher.
        result ≡ yes_no (selects (answer_in searcher path.now is_dir))) }
    ensures report { found.new.kind ≢ 5 → IfSome search.old.searcher (λ searcher.
        TellsAnswer found.new (answer_in searcher path.now is_dir)) }
    ensures unanswered { found.new.kind ≡ 5 → IsUnanswered result found.new }
    // Where no attributes were given, no look-up can fail.
    ensures failed { found.new.kind ≡ 5 → IfSome search.old.searcher (λ searcher.
        has_attributes searcher.attributes ≡ true) }
    ensures closed { IsYesOrNo result }
{
    match search.take(alloc) {
        Some(mut searcher) => {
            let status = searcher.settle(path, is_dir, found);
            search.put(searcher);
            status
        }
        None => found.tell(&None),
    }
}

/// Whether the search selects a path: the answer of [`ps_search_match`] alone. So where memory ran out it is 1.
#[unsafe(no_mangle)]
pub extern "C" fn ps_search_selects(
    alloc: Global,
    search: &mut PsSearch,
    path: &[u8],
    is_dir: bool,
) -> u32
    ensures stays { KeepsSearcher search.old.searcher search.new.searcher }
    ensures empty { IfNone search.old.searcher (result ≡ 0) }
    ensures answer { IfSome search.old.searcher (λ searcher.
        has_attributes searcher.attributes ≡ false
        → result ≡ yes_no (selects (answer_in searcher path.now is_dir))) }
    // With attributes, too, no path is lost that is selected.
    ensures whole { IfSome search.old.searcher (λ searcher.
        selects (answer_in searcher path.now is_dir) ≡ true → result ≡ 1) }
    ensures closed { IsYesOrNo result }
{
    let mut found = PsMatch::unsettled();
    ps_search_match(alloc, search, path, is_dir, &mut found)
}

/// Whether a walk may skip a directory, since nothing below it is selected. It may not where the handle is empty.
#[unsafe(no_mangle)]
pub extern "C" fn ps_search_may_skip(alloc: Global, search: &mut PsSearch, directory: &[u8]) -> u32
    ensures stays { search.new.searcher ≡ search.old.searcher }
    ensures answer { MatchOption search.old.searcher (result ≡ 0) (λ searcher. result
        ≡ yes_no (may_skip (specs_of searcher.specs) directory.now)) }
{
    match search.take(alloc) {
        Some(mut searcher) => {
            let skips = searcher.may_skip(directory);
            search.put(searcher);
            u32::from(skips)
        }
        None => 0,
    }
}

/// Whether something at or below a path can match. It can where the handle is empty.
#[unsafe(no_mangle)]
pub extern "C" fn ps_search_can_match(
    alloc: Global,
    search: &mut PsSearch,
    path: &[u8],
    is_dir: bool,
) -> u32
    ensures stays { search.new.searcher ≡ search.old.searcher }
    ensures answer { MatchOption search.old.searcher (result ≡ 1) (λ searcher. result
        ≡ yes_no (can_match (specs_of searcher.specs) path.now (Some is_dir))) }
{
    match search.take(alloc) {
        Some(searcher) => {
            let can = searcher
                .search()
                .can_match_relative_path(BStr::new(path), Some(is_dir));
            search.put(searcher);
            u32::from(can)
        }
        None => 1,
    }
}
