//! Calls that make, share and free searches.
//!
//! The status is 0 where all was done, 2 where the handle is empty, and 3 where memory ran out. It is 4 where the prefix isn't
//! clean, and 5 where a spec or a list of attributes is at fault. Only with 5 is the fault written. It is 6 where a row would stand
//! beside attribute files.
ghost use Rattle.std.specs.Prelude.{◌≡◌, ◌≢◌, ◌↔◌, ◌⊎◌, ℕ, true, false, None, Some, Err, Result, IfSome, List};
ghost use Rattle.std.specs.Option.{IsSomeAnd};
ghost use Rattle.pathspec_parts.specs.Paths.{is_clean_prefix};
ghost use Rattle.pathspec_pattern.specs.AttributeLists.{assignments_of};
ghost use Rattle.gix_pathspec.specs.Building.{Builds};
ghost use Rattle.gix_pathspec.specs.Errors.{fault_of};
ghost use Rattle.gix_pathspec.specs.Faults.{Fault};
ghost use Rattle.gix_pathspec.specs.Lines.{search_of_lines, search_of_texts};
ghost use Rattle.gix_pathspec.specs.Search.{Numbered};
ghost use Rattle.pathspec_c.specs.Calls.{HasKind, IsAssigningStatus, IsMakingStatus, defaults_from, fault_number, texts_in};
ghost use Rattle.pathspec_c.specs.Searchers.{AddsRow, has_files, new_searcher};
ghost use Rattle.pathspec_c.specs.Reports.{HoldsComputed, TellsFirst};

use crate::build;
use crate::defaults::defaults_from;
use crate::handle::PsSearch;
use crate::reports::{PsFault, error_number};
use crate::searcher::Searcher;
use bstr::BStr;
use gix_pathspec::{BuildError, Error, Search};
use pathspec_parts::path::is_clean_prefix;
use std::alloc::Global;

/// Makes a search of texts, each ended by the byte 0, in the directory `prefix` of the repository at `root`. The search that
/// the handle held before is freed.
#[unsafe(no_mangle)]
pub extern "C" fn ps_search_new(
    alloc: Global,
    search: &mut PsSearch,
    specs: &[u8],
    prefix: &[u8],
    root: &[u8],
    defaults: u32,
    fault: &mut PsFault,
) -> u32
    ensures made { result ≡ 0 → HoldsComputed (search_of_texts (defaults_from defaults)
        prefix.now root.now (texts_in specs.now)) search.new.searcher }
    ensures refused { result ≢ 0 → search.new.searcher ≡ None }
    ensures spec { result ≡ 5 → TellsFirst fault.new (λ first. search_of_texts
        (defaults_from defaults) prefix.now root.now (texts_in specs.now) ≡ Err first) }
    ensures prefix { (result ≡ 4) ↔ (is_clean_prefix prefix.now ≡ false) }
    ensures closed { IsMakingStatus result }
    ensures untold { result ≢ 5 → fault.new ≡ fault.old }
{
    ps_search_free(alloc, search);
    if !is_clean_prefix(BStr::new(prefix)) {
        return 4;
    }
    let defaults = defaults_from(defaults);
    let made = build::search_of_texts(alloc, specs, defaults, prefix, root);
    keep(alloc, search, made, fault)
}

/// Makes a search of the specs on the lines of a text, as [`ps_search_new`] makes one of texts.
#[unsafe(no_mangle)]
pub extern "C" fn ps_search_from_lines(
    alloc: Global,
    search: &mut PsSearch,
    text: &[u8],
    prefix: &[u8],
    root: &[u8],
    defaults: u32,
    fault: &mut PsFault,
) -> u32
    ensures made { result ≡ 0 → HoldsComputed (search_of_lines (defaults_from defaults)
        prefix.now root.now text.now) search.new.searcher }
    ensures refused { result ≢ 0 → search.new.searcher ≡ None }
    ensures spec { result ≡ 5 → TellsFirst fault.new (λ first. search_of_lines
        (defaults_from defaults) prefix.now root.now text.now ≡ Err first) }
    ensures prefix { (result ≡ 4) ↔ (is_clean_prefix prefix.now ≡ false) }
    ensures closed { IsMakingStatus result }
    ensures untold { result ≢ 5 → fault.new ≡ fault.old }
{
    ps_search_free(alloc, search);
    let prefix = BStr::new(prefix);
    if !is_clean_prefix(prefix) {
        return 4;
    }
    let defaults = defaults_from(defaults);
    let source = BStr::new(b"");
    let made = Search::from_lines(alloc, text, source, defaults, Some(prefix), BStr::new(root));
    keep(alloc, search, made, fault)
}

/// Gives `other` the search of a handle, with its own room and no attributes: another thread can ask it at the same time. The
/// search that `other` held before is freed.
#[unsafe(no_mangle)]
pub extern "C" fn ps_search_share(alloc: Global, search: &mut PsSearch, other: &mut PsSearch) -> u32
    ensures stays { search.new.searcher ≡ search.old.searcher }
    ensures made { result ≡ 0 → IfSome search.old.searcher (λ searcher.
        other.new.searcher ≡ Some (new_searcher searcher.specs)) }
    ensures refused { result ≢ 0 → other.new.searcher ≡ None }
    ensures empty { (result ≡ 2) ↔ (search.old.searcher ≡ None) }
    ensures closed { (result ≡ 0) ⊎ (result ≡ 2) ⊎ (result ≡ 3) }
{
    ps_search_free(alloc, other);
    match search.take(alloc) {
        Some(searcher) => {
            let shared = searcher.share(alloc);
            search.put(searcher);
            match shared {
                Ok(shared) => {
                    other.put(shared);
                    0
                }
                Err(_) => 3,
            }
        }
        None => 2,
    }
}

/// Gives a path the attributes that a list assigns, after those that it was given before. A handle with attribute files takes none.
#[unsafe(no_mangle)]
pub extern "C" fn ps_search_assign(
    alloc: Global,
    search: &mut PsSearch,
    path: &[u8],
    list: &[u8],
    fault: &mut PsFault,
) -> u32
    ensures added { result ≡ 0 → IfSome search.old.searcher (λ old.
        IsSomeAnd search.new.searcher (AddsRow path.now list.now old)) }
    ensures stays { result ≢ 0 → search.new.searcher ≡ search.old.searcher }
    ensures empty { (result ≡ 2) ↔ (search.old.searcher ≡ None) }
    ensures mixed { (result ≡ 6) ↔ IsSomeAnd search.old.searcher (λ old.
        has_files old.attributes ≡ true) }
    ensures list { result ≡ 5 → HasKind fault.new.kind (assignments_of list.now) }
    ensures number { result ≡ 5 → fault.new.number ≡ 0 }
    ensures closed { IsAssigningStatus result }
    ensures untold { result ≢ 5 → fault.new ≡ fault.old }
{
    match search.take(alloc) {
        Some(mut searcher) => {
            if searcher.has_files() {
                search.put(searcher);
                return 6;
            }
            let added = searcher.add_row(alloc, path, list);
            search.put(searcher);
            match added {
                Ok(()) => 0,
                Err(error) => refuse(0, &error, fault),
            }
        }
        None => 2,
    }
}

/// Frees the search that a handle holds, and leaves the handle empty.
#[unsafe(no_mangle)]
pub extern "C" fn ps_search_free(alloc: Global, search: &mut PsSearch)
    ensures { search.new.searcher ≡ None }
{
    drop(search.take(alloc));
}

/// Keeps a search in an empty handle, or tells why there is none.
fn keep(
    alloc: Global,
    handle: &mut PsSearch,
    made: Result<Search, BuildError>,
    fault: &mut PsFault,
) -> u32
    requires { handle.old.searcher ≡ None }
    ensures made { (computed : Result (List Numbered) (ℕ × Fault))
        → Builds (λ search. search.specs) computed made
        → result ≡ 0 → HoldsComputed computed handle.new.searcher }
    ensures refused { result ≢ 0 → handle.new.searcher ≡ None }
    ensures spec { (computed : Result (List Numbered) (ℕ × Fault))
        → Builds (λ search. search.specs) computed made
        → result ≡ 5 → TellsFirst fault.new (λ first. computed ≡ Err first) }
    ensures closed { (result ≡ 0) ⊎ (result ≡ 3) ⊎ (result ≡ 5) }
    ensures untold { result ≢ 5 → fault.new ≡ fault.old }
{
    match made {
        Ok(search) => match Searcher::new(alloc, search) {
            Ok(new) => {
                handle.put(new);
                0
            }
            Err(_) => 3,
        },
        Err(BuildError::Spec(number, error)) => refuse(number, &error, fault),
        Err(BuildError::Memory) => 3,
    }
}

/// Tells the error of the spec with a number.
fn refuse(number: usize, error: &Error, fault: &mut PsFault) -> u32
    ensures report { IfSome (fault_of error.now) (λ first. (result ≡ 5)
        × (fault.new ≡ record { number = number; kind = fault_number first })) }
    ensures memory { fault_of error.now ≡ None → (result ≡ 3) × (fault.new ≡ fault.old) }
    ensures closed { (result ≡ 3) ⊎ (result ≡ 5) }
    ensures untold { result ≢ 5 → fault.new ≡ fault.old }
{
    match error {
        Error::Memory => 3,
        error => {
            fault.number = number;
            fault.kind = error_number(error);
            5
        }
    }
}
