//! Callers of the search of `gix_pathspec`.
ghost use Rattle.std.specs.Prelude.{◌≡◌, ◌≢◌, ◌↔◌, [], map, IfOk, IsTrue, IsFalse};
ghost use Rattle.bstr.specs.BStr.{bstr_bytes};
ghost use Rattle.pathspec_parts.specs.Paths.{without_last_slash};
ghost use Rattle.gix_pathspec.specs.Room.{Fits};
ghost use Rattle.pathspec_callers.specs.Selections.{IsChosenFile, selected_count, HoldsNothingBelow};

use bstr::BStr;
use gix_pathspec::Search;
use gix_pathspec::attributes::LookUp;
use gix_pathspec::search::{Scratch, Visit};
use pathspec_parts::path::strip_last_slash;

/// Whether a search selects a file.
///
/// # Errors
/// The fault of the look-up.
pub fn is_selected<L: LookUp>(
    search: &Search,
    file: BStr<'_>,
    scratch: &mut Scratch,
    look_up: &mut L,
) -> Result<bool, L::Fault>
    requires { Fits search.now.specs scratch.old }
    ensures chosen { bstr_bytes file.entry ≢ [] → IfOk result (λ selected. IsTrue selected
        ↔ IsChosenFile (L.table look_up.old) search.now (bstr_bytes file.entry)) }
    ensures room { scratch.new.room ≡ scratch.old.room }
{
    search.is_selected(file, Some(false), scratch, look_up)
}

/// The count of the files that a search selects.
///
/// # Errors
/// The first fault of the look-up.
pub fn count_selected<L: LookUp>(
    search: &Search,
    files: &[&[u8]],
    scratch: &mut Scratch,
    look_up: &mut L,
) -> Result<usize, L::Fault>
    requires { Fits search.now.specs scratch.old }
    ensures count { IfOk result (λ count. count
        ≡ selected_count (L.table look_up.old) search.now (map (λ file. file.now) files.now)) }
    ensures room { scratch.new.room ≡ scratch.old.room }
{
    let mut count = 0;
    for file in files {
        if search.is_selected(BStr::new(file), Some(false), scratch, look_up)? {
            count += 1;
        }
    }
    Ok(count)
}

/// Whether a walker may skip a directory: then nothing below it is chosen, whatever a look-up says.
pub fn may_skip(search: &Search, directory: BStr<'_>, scratch: &mut Scratch) -> bool
    requires { Fits search.now.specs scratch.old }
    ensures skipped { IsTrue result → HoldsNothingBelow search.now (bstr_bytes directory.entry) }
    ensures room { scratch.new.room ≡ scratch.old.room }
{
    search.may_skip(directory, scratch)
}

/// Answers as [`may_skip`] does, for a directory as `git status` prints it, with a slash at its end.
pub fn may_skip_printed(search: &Search, directory: BStr<'_>, scratch: &mut Scratch) -> bool
    requires { Fits search.now.specs scratch.old }
    ensures skipped { IsTrue result
        → HoldsNothingBelow search.now (without_last_slash (bstr_bytes directory.entry)) }
    ensures room { scratch.new.room ≡ scratch.old.room }
{
    let (directory, _) = strip_last_slash(directory.as_bytes());
    may_skip(search, BStr::new(directory), scratch)
}

/// A walker's decision on a directory: whether to give it, and whether to enter it. Nothing below a directory that it doesn't
/// enter is chosen, whatever a look-up says.
///
/// # Errors
/// The fault of the look-up.
pub fn visit_directory<L: LookUp>(
    search: &Search,
    directory: BStr<'_>,
    scratch: &mut Scratch,
    look_up: &mut L,
) -> Result<Visit, L::Fault>
    requires { Fits search.now.specs scratch.old }
    ensures skipped { IfOk result (λ visit. IsFalse visit.is_entered
        → HoldsNothingBelow search.now (bstr_bytes directory.entry)) }
    ensures room { scratch.new.room ≡ scratch.old.room }
{
    search.visit(directory, true, scratch, look_up)
}
