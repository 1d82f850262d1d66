//! The question which of many paths a search selects, in one call: for a caller to whom a call costs more than a match.
//!
//! Each path is ended by the byte 0, which the last may lack. Slashes at its end say that it is a directory's, and are no part of it.
//! Each answer is that of [`ps_search_match`], 1 or 0.
ghost use Rattle.std.specs.Prelude.{◌≡◌, ◌≢◌, ◌↔◌, ◌⊎◌, ℕ, true, false, List, None, length};
ghost use Rattle.std.specs.List.{slice_set};
ghost use Rattle.std.specs.Option.{IsSomeAnd};
ghost use Rattle.pathspec_c.specs.Calls.{texts_in};
ghost use Rattle.pathspec_c.specs.Many.{LosesNone, answer_to, answers_to, without_slashes};
ghost use Rattle.pathspec_c.specs.Searchers.{KeepsSearcher, has_attributes};
ghost use Rattle.pathspec_c.specs.Texts.{copied};

use crate::handle::PsSearch;
use crate::questions::{ps_search_is_empty, ps_search_match};
use crate::reports::PsMatch;
use pathspec_parts::split;
use std::alloc::Global;

/// Whether the search selects each of many paths. The answers are written to the first bytes of the caller's array, as many as it
/// has room for, and `count` is how many paths there are. The status is 0; 2 where the handle is empty, which selects nothing;
/// or 3 where memory ran out, which is only where attributes were given: then the answer to each path without memory is 1.
#[unsafe(no_mangle)]
pub extern "C" fn ps_search_match_all(
    alloc: Global,
    search: &mut PsSearch,
    paths: &[u8],
    answers: &mut [u8],
    count: &mut usize,
) -> u32
    ensures stays { KeepsSearcher search.old.searcher search.new.searcher }
    ensures answers { result ≢ 3 → answers.new
        ≡ copied (answers_to search.old.searcher (texts_in paths.now)) answers.old }
    // Without memory, too, no path is lost that is selected.
    ensures whole { (given : List ℕ) × (answers.new ≡ copied given answers.old)
        × LosesNone (answers_to search.old.searcher (texts_in paths.now)) given }
    ensures count { count.new ≡ length (texts_in paths.now) }
    ensures empty { (result ≡ 2) ↔ (search.old.searcher ≡ None) }
    ensures failed { result ≡ 3 → IsSomeAnd search.old.searcher (λ searcher.
        has_attributes searcher.attributes ≡ true) }
    ensures closed { (result ≡ 0) ⊎ (result ≡ 2) ⊎ (result ≡ 3) }
{
    let (mut rest, mut number, mut failed) = (paths, 0, false);
    while !rest.is_empty() {
        let (text, others) = split::at_first(rest, 0);
        failed |= !answer(alloc, search, text, number, answers);
        number += 1;
        rest = others;
    }
    *count = number;
    if failed {
        3
    } else {
        2 * ps_search_is_empty(alloc, search)
    }
}

/// Writes the answer to the path with a number, if there is room for it. It gives false where memory ran out, and then it is 1.
fn answer(
    alloc: Global,
    search: &mut PsSearch,
    text: &[u8],
    number: usize,
    answers: &mut [u8],
) -> bool
    ensures stays { KeepsSearcher search.old.searcher search.new.searcher }
    ensures known { result ≡ true → answers.new
        ≡ slice_set answers.old number (answer_to search.old.searcher text.now) }
    ensures unknown { result ≡ false → answers.new ≡ slice_set answers.old number 1 }
    ensures failed { result ≡ false → IsSomeAnd search.old.searcher (λ searcher.
        has_attributes searcher.attributes ≡ true) }
{
    if number >= answers.len() {
        return true;
    }
    let (path, is_dir) = (without_slashes(text), text.ends_with(b"/"));
    let mut found = PsMatch::unsettled();
    let status = ps_search_match(alloc, search, path, is_dir, &mut found);
    answers[number] = u8::from(status != 0);
    found.kind != 5
}

/// A text without the slashes at its end.
fn without_slashes(text: &[u8]) -> &[u8]
    ensures { result.now ≡ without_slashes text.now }
{
    let mut length = text.len();
    while length > 0 && text[length - 1] == b'/' {
        length -= 1;
    }
    &text[..length]
}
