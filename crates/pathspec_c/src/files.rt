//! The call that adds attribute files to a search, for who reads them as a walk comes to their directories.
//!
//! A search with files answers specs with attributes as git does by these files. It takes no rows beside them, nor files beside
//! rows: the status is then 6. A file of `info` takes the place of rows, since it counts over every other file.
ghost use Rattle.std.specs.Prelude.{◌≡◌, ◌≢◌, ◌↔◌, ◌⊎◌, true, false, None, is_some, IfSome};
ghost use Rattle.std.specs.Option.{IsSomeAnd};
ghost use Rattle.pathspec_attributes.specs.Files.{left_out as lines_left_out};
ghost use Rattle.pathspec_c.specs.Added.{AddsFileAt, NamesPlace, TellsLeftOut, defines, is_place};
ghost use Rattle.pathspec_c.specs.Calls.{IsAddingStatus};
ghost use Rattle.pathspec_c.specs.Searchers.{has_rows};

use crate::handle::PsSearch;
use crate::reports::PsLeftOut;
use crate::searcher::Searcher;
use bstr::BStr;
use pathspec_attributes::Place;
use pathspec_parts::path::is_clean_prefix;
use std::alloc::Global;

/// Adds the text of an attribute file, in place of the one that is held there. The place is 0 for the `.gitattributes` of a
/// directory, 1 for `info/attributes` and 2 for the global file, for which the directory doesn't count.
///
/// The status is 0 where the file was added, and then the lines that git leaves out are told. It is 2 where the handle is empty, 3
/// where memory ran out, and 4 where there is no such place, or the directory isn't clean. It is 6 where rows were given. But with 0
/// nothing changes.
#[unsafe(no_mangle)]
pub extern "C" fn ps_search_add_attributes(
    alloc: Global,
    search: &mut PsSearch,
    place: u32,
    directory: &[u8],
    text: &[u8],
    left_out: &mut PsLeftOut,
) -> u32
    ensures added { result ≡ 0 → IfSome search.old.searcher (λ old.
        IsSomeAnd search.new.searcher (AddsFileAt place directory.now text.now old)) }
    ensures told { result ≡ 0
        → TellsLeftOut left_out.new (lines_left_out (defines place directory.now) text.now) }
    ensures stays { result ≢ 0 → search.new.searcher ≡ search.old.searcher }
    ensures untold { result ≢ 0 → left_out.new ≡ left_out.old }
    ensures empty { (result ≡ 2) ↔ (search.old.searcher ≡ None) }
    ensures mixed { (result ≡ 6) ↔ IsSomeAnd search.old.searcher (λ old.
        has_rows old.attributes ≡ true) }
    ensures place { (result ≡ 4) ↔ IsSomeAnd search.old.searcher (λ old.
        (has_rows old.attributes ≡ false) × (is_place place directory.now ≡ false)) }
    ensures closed { IsAddingStatus result }
{
    match search.take(alloc) {
        Some(mut searcher) => {
            let status = add(alloc, &mut searcher, place, directory, text, left_out);
            search.put(searcher);
            status
        }
        None => 2,
    }
}

/// Adds the text of an attribute file to a searcher.
fn add(
    alloc: Global,
    searcher: &mut Searcher,
    place: u32,
    directory: &[u8],
    text: &[u8],
    left_out: &mut PsLeftOut,
) -> u32
    ensures added { result ≡ 0
        → AddsFileAt place directory.now text.now searcher.old searcher.new }
    ensures told { result ≡ 0
        → TellsLeftOut left_out.new (lines_left_out (defines place directory.now) text.now) }
    ensures stays { result ≢ 0 → searcher.new ≡ searcher.old }
    ensures untold { result ≢ 0 → left_out.new ≡ left_out.old }
    ensures mixed { (result ≡ 6) ↔ (has_rows searcher.old.attributes ≡ true) }
    ensures place { (result ≡ 4) ↔ (has_rows searcher.old.attributes ≡ false)
        × (is_place place directory.now ≡ false) }
    ensures closed { (result ≡ 0) ⊎ (result ≡ 3) ⊎ (result ≡ 4) ⊎ (result ≡ 6) }
{
    if searcher.has_rows() {
        return 6;
    }
    let Some(place) = place_of(place, directory) else {
        return 4;
    };
    match searcher.add_file(alloc, place, text) {
        Ok(lines) => {
            left_out.tell(lines.as_slice());
            0
        }
        Err(_) => 3,
    }
}

/// The place that a number stands for, with a directory.
fn place_of(number: u32, directory: &[u8]) -> Option<Place<'_>>
    ensures is_place { is_some result ≡ is_place number directory.now }
    ensures named { IfSome result (λ place. NamesPlace number directory.now place) }
{
    if number == 1 {
        return Some(Place::Info);
    }
    if number == 2 {
        return Some(Place::Global);
    }
    if number == 0 && is_clean_prefix(BStr::new(directory)) {
        Some(Place::Directory(directory))
    } else {
        None
    }
}
