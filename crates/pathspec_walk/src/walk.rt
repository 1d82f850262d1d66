//! The entries of a tree that a search chooses, by a walk that looks only where one can lie.
ghost use Rattle.std.specs.Prelude.{◌≡◌, ◌≢◌, ◌&&◌, ◌++◌, ◌∷◌, [], map, length, if◌then◌else◌, IfOk, OnOk, OnErr};
ghost use Rattle.pathspec_parts.specs.Cursors.{IsNew, path_at, is_dir_at, after_enter};
ghost use Rattle.gix_pathspec.specs.Matching.{is_chosen};
ghost use Rattle.gix_pathspec.specs.Room.{Fits};
ghost use Rattle.gix_pathspec.specs.Search.{specs_of};
ghost use Rattle.pathspec_walk.specs.Walks.{IsWalk, HasWalked, GivenIsOne, EnteredIsOne, can_hold};
ghost use Rattle.pathspec_walk.specs.SelectAnswers.{CountsFailure};

use bstr::BStr;
use gix_pathspec::search::Scratch;
use gix_pathspec::{Search, laws};
use pathspec_parts::attributes::LookUp;
use pathspec_parts::tree::Walk;
use std::alloc::{AllocError, Global};
use std::fmt::Debug;

/// The reason why a walk ended before it came to the end of its tree.
#[derive(Debug, Drop, PartialEq, Eq, thiserror::Error)]
#[error_bound(F: Debug)]
pub enum SelectError<F> {
    /// The fault of the look-up, which failed.
    #[error("look-up failed: {0:?}")]
    LookUp(F),
    /// Memory ran out.
    #[error("out of memory")]
    Memory,
}

/// The places of the entries of a tree that a search chooses, each once, in the tree's order. An entry is chosen just where no
/// exclude matches it, and some include does or there is none.
///
/// The cursor is any new walk ([`Walk`]), as a [`pathspec_parts::tree::Cursor`], whose places are the numbers of entries. It
/// is the only way to the entries. Its trail, [`Walk::entered`], tells what was looked into: exactly the directories that the
/// walk came to and may not skip ([`Search::may_skip`]). No chosen entry is lost by that.
///
/// Plain specs have no wildcard, no attributes, and no prefix directory without case. If there are includes and all are plain,
/// some include matches at or below each entered directory. If all specs are plain, the entered directories are exactly those
/// at or below which something is chosen. An include without case beside an exclude with case makes an exception. All this
/// holds for all specs that parse and normalise, every tree and every steady look-up.
///
/// The call visits each entry that it comes to once ([`Search::visit`]). A directory costs no match where tables tell that
/// nothing at or below it is chosen, as `node_modules` under `:!node_modules`. Entries in a directory that isn't entered cost
/// nothing. The call takes memory for a scratch of the search and for the places that it gives. It only reads the search, so
/// walks can share one.
///
/// # Errors
/// [`SelectError::LookUp`], only where the look-up failed in this call, and [`SelectError::Memory`]. The cursor then stands at
/// the entry that was asked. It is still new where there is no memory for the scratch.
pub fn select<W: Walk, L: LookUp>(
    alloc: Global,
    cursor: &mut W,
    search: &Search,
    look_up: &mut L,
) -> Result<Vec<W::Place>, SelectError<L::Fault>>
    requires { IsNew (W.contents cursor.old) }
    // Exactly the chosen entries, by a walk that enters only directories which it may not skip.
    ensures walk { let es = (W.contents cursor.old).entries in
        IfOk result (λ given. IsWalk (L.table look_up.old) (specs_of search.now.specs)
        es (map (W.number es) given.items) (W.contents cursor.new).entered) }
    // The chosen entries are one list, that of the definition.
    ensures given { GivenIsOne (L.table look_up.old) (specs_of search.now.specs) }
    // Exactly the directories that it came to and may not skip.
    ensures entered { let es = (W.contents cursor.old).entries in
        OnOk result (HasWalked (specs_of search.now.specs)
        es (length es) (W.contents cursor.new).entered) }
    // The entered directories are one list too.
    ensures trail { EnteredIsOne }
    ensures tree { (W.contents cursor.new).entries ≡ (W.contents cursor.old).entries }
    ensures table_stays { L.table look_up.new ≡ L.table look_up.old }
    ensures counts { CountsFailure (L.failures look_up.old) (L.failures look_up.new) result }
{
    // The proof reads here that no nil spec has a prefix directory, and that paths are bytes.
    laws::nil_specs_lack_a_prefix(search);
    laws::spec_paths_are_bytes(search);
    let mut scratch = match search.boxed_scratch(alloc) {
        Ok(scratch) => scratch,
        Err(AllocError) => return Err(SelectError::Memory),
    };
    let mut given = Vec::new(alloc);
    while let Some(place) = cursor.next() {
        visit(cursor, search, &mut scratch, look_up, place, &mut given)?;
    }
    Ok(given)
}

/// Gives the entry at which the cursor stands if it is chosen, and enters it if it is a directory not to be skipped.
fn visit<W: Walk, L: LookUp>(
    cursor: &mut W,
    search: &Search,
    scratch: &mut Scratch,
    look_up: &mut L,
    place: W::Place,
    given: &mut Vec<W::Place>,
) -> Result<(), SelectError<L::Fault>>
    requires path { path_at (W.contents cursor.old) ≢ [] }
    requires fits { Fits search.now.specs scratch.old }
    ensures room { scratch.new.room ≡ scratch.old.room }
    ensures given { let c = W.contents cursor.old in OnOk result (given.new.items
        ≡ (if is_chosen (L.table look_up.old) (specs_of search.now.specs) (path_at c) (is_dir_at c)
        then given.old.items ++ place ∷ [] else given.old.items)) }
    ensures entered { let c = W.contents cursor.old in OnOk result (W.contents cursor.new ≡
        (if is_dir_at c && can_hold (specs_of search.now.specs) (path_at c)
        then after_enter c else c)) }
    ensures tree { (W.contents cursor.new).entries ≡ (W.contents cursor.old).entries }
    ensures table_stays { L.table look_up.new ≡ L.table look_up.old }
    ensures counts { CountsFailure (L.failures look_up.old) (L.failures look_up.new) result }
{
    let visit = search.visit(cursor.path(), cursor.is_dir(), scratch, look_up);
    let visit = visit.map_err(SelectError::LookUp)?;
    if give_if(visit.is_selected, place, given).is_err() {
        return Err(SelectError::Memory);
    }
    enter_if(visit.is_entered, cursor);
    Ok(())
}

/// Gives a place if its entry is selected.
///
/// # Errors
/// Memory runs out.
fn give_if<P: Copy>(is_selected: bool, place: P, given: &mut Vec<P>) -> Result<(), AllocError>
    ensures { OnOk result (given.new.items
        ≡ (if is_selected then given.old.items ++ place ∷ [] else given.old.items)) }
{
    if is_selected {
        given.push(place)?;
    }
    Ok(())
}

/// Enters the directory at which a walk stands if it is one to enter.
fn enter_if<W: Walk>(is_entered: bool, cursor: &mut W)
    ensures { let c = W.contents cursor.old in
        W.contents cursor.new ≡ (if is_entered then after_enter c else c) }
{
    if is_entered {
        cursor.enter();
    }
}
