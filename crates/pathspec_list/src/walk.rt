//! The walk over directories that gives what a search selects.
ghost use Rattle.std.specs.Prelude.{◌≡◌, ◌≢◌, [], ◌∷◌, ◌++◌, map, reverse, not, if◌then◌else◌, IfOk, OnOk, OnErr};
ghost use Rattle.gix_pathspec.specs.Room.{Fits};
ghost use Rattle.gix_pathspec.specs.Search.{specs_of};
ghost use Rattle.pathspec_walk.specs.Walks.{can_hold};
ghost use Rattle.pathspec_list.specs.Directories.{OfTree, IsTree, path_in, append_known};
ghost use Rattle.pathspec_list.specs.Listings.{is_listed, given_if, matters, AllMatter, IsMore, NothingTold, GivesPart, GivesAll};
ghost use Rattle.pathspec_list.specs.Courses.{IsVisit, IsTopVisit, IsLook, MayAsk, MayGive, GivesAtMost, course};
ghost use Rattle.pathspec_list.specs.ListAnswers.{CountsFailure, AsksInWalk, AsksNoLookUp, CountsStop, StopsNothing};

use crate::{Directories, Visitor};
use bstr::BStr;
use gix_pathspec::search::Scratch;
use gix_pathspec::{Search, laws};
use pathspec_parts::attributes::LookUp;
use std::alloc::{AllocError, Global};
use std::fmt::Debug;

/// The reason why a walk over directories ended before it came to the end.
#[derive(Debug, Drop, PartialEq, Eq, thiserror::Error)]
#[error_bound(F: Debug, S: Debug)]
pub enum ListError<F, S> {
    /// The fault of the look-up, which failed.
    #[error("look-up failed: {0:?}")]
    LookUp(F),
    /// The visitor's reason to end the walk.
    #[error("stopped: {0:?}")]
    Stopped(S),
    /// No directory stands at the top.
    #[error("no directory")]
    NoDirectory,
    /// Memory ran out, which is also told of more names than a `u64` counts.
    #[error("out of memory")]
    Memory,
}

/// Walks over directories, and gives a visitor each path that a search selects, with its kind, as it comes to it.
///
/// It gives the paths of files, and those of directories too where they are wanted, a directory before what lies in it. It opens the
/// top, and just the directories that it comes to and may not skip ([`Search::may_skip`]). No path that is selected is lost by that.
/// It looks only at paths that it may not skip, or that it gives if a file or a directory stands there, whatever fails.
///
/// A path that can't be looked at is told to the visitor once, and the walk goes on if the visitor lets it. What it gave is then a part
/// of all that is selected, in order. It depends on what the directories claim of their tree: of one that may change nothing is
/// promised but that the walk ends safely.
///
/// The call takes memory for a scratch of the search, and for the names in opened directories that it has still to visit.
///
/// # Errors
/// [`ListError::LookUp`], only where the look-up failed in this call, [`ListError::Stopped`], just where the visitor ended the walk,
/// [`ListError::NoDirectory`] and [`ListError::Memory`]. What was given before is a part of all, in order.
pub fn walk_selected<D: Directories, L: LookUp, V: Visitor<D::Fault>>(
    alloc: Global,
    directories: &mut D,
    search: &Search,
    with_directories: bool,
    look_up: &mut L,
    visitor: &mut V,
) -> Result<(), ListError<L::Fault, V::Stop>>
    // What was given is a part of what is selected, in order.
    ensures part { OfTree (D.tree directories.old) (λ es.
        IsMore (V.given visitor.old) (V.given visitor.new) (GivesPart
        (is_listed with_directories (L.table look_up.old) (specs_of search.now.specs)) es)) }
    // Where nothing failed, it is all of that, and exactly the directories were opened that the walk came to and may not skip.
    ensures all { OfTree (D.tree directories.old) (λ es. OnOk result (
        NothingTold (V.told visitor.old) (V.told visitor.new) →
        IsMore (V.given visitor.old) (V.given visitor.new) (λ given.
        IsMore (D.opened directories.old) (D.opened directories.new) (
        GivesAll (is_listed with_directories (L.table look_up.old) (specs_of search.now.specs))
        (specs_of search.now.specs) es given)))) }
    // What was looked at is at most what can be given, and what can hold something.
    ensures asked { IsMore (D.asked directories.old) (D.asked directories.new) (AllMatter
        (is_listed with_directories (L.table look_up.old) (specs_of search.now.specs))
        (specs_of search.now.specs)) }
    ensures tree_stays { D.tree directories.new ≡ D.tree directories.old }
    ensures table_stays { L.table look_up.new ≡ L.table look_up.old }
    ensures counts { CountsFailure (L.failures look_up.old) (L.failures look_up.new) result }
    // The walk ends with the visitor's reason just where the visitor ended it.
    ensures stops { CountsStop (V.stops visitor.old) (V.stops visitor.new) result }
{
    // The proof reads here that no nil spec has a prefix directory.
    laws::nil_specs_lack_a_prefix(search);
    let mut scratch = match search.boxed_scratch(alloc) {
        Ok(scratch) => scratch,
        Err(AllocError) => return Err(ListError::Memory),
    };
    let walker = Walker {
        alloc,
        search,
        with_directories,
    };
    let mut pending = Vec::new(alloc);
    open_top(alloc, directories, visitor, &mut pending)?;
    'paths: for _ in 0..u64::MAX {
        let Some(path) = pending.pop() else {
            return Ok(());
        };
        let path = path.as_slice();
        walker.visit(
            directories,
            &mut scratch,
            look_up,
            visitor,
            path,
            &mut pending,
        )?;
    }
    Err(ListError::Memory)
}

/// Opens the top, and puts what lies there on the stack.
fn open_top<D: Directories, F, V: Visitor<D::Fault>>(
    alloc: Global,
    directories: &mut D,
    visitor: &mut V,
    pending: &mut Vec<Vec<u8>>,
) -> Result<(), ListError<F, V::Stop>>
    requires { pending.old.items ≡ [] }
    ensures visited { OfTree (D.tree directories.old) (λ es. OnOk result (IsTopVisit es
        (course (V.given visitor.old) (V.told visitor.old) (D.opened directories.old)
        (map (λ v. v.items) pending.old.items))
        (course (V.given visitor.new) (V.told visitor.new) (D.opened directories.new)
        (map (λ v. v.items) pending.new.items)))) }
    ensures given { V.given visitor.new ≡ V.given visitor.old }
    ensures asked { D.asked directories.new ≡ append_known (D.asked directories.old) ([] ∷ []) }
    ensures tree { OfTree (D.tree directories.old) IsTree }
    ensures tree_stays { D.tree directories.new ≡ D.tree directories.old }
    ensures look_up { AsksNoLookUp result }
    ensures stops { CountsStop (V.stops visitor.old) (V.stops visitor.new) result }
{
    match directories.open(b"") {
        Ok(Some(names)) => match push_names(alloc, pending, b"", names) {
            Ok(()) => Ok(()),
            Err(AllocError) => Err(ListError::Memory),
        },
        Ok(None) => Err(ListError::NoDirectory),
        Err(fault) => tell(visitor, b"", fault),
    }
}

/// What a walk works with: the allocator for its stack, and what it lists, what a search selects, with directories or without.
#[derive(Clone, Copy)]
struct Walker<'a> {
    alloc: Global,
    search: &'a Search,
    with_directories: bool,
}

impl Walker<'_> {
    /// Visits a path: gives it if it is listed, and opens what stands there if it is a directory that may not be skipped.
    fn visit<D: Directories, L: LookUp, V: Visitor<D::Fault>>(
        &self,
        directories: &mut D,
        scratch: &mut Scratch,
        look_up: &mut L,
        visitor: &mut V,
        path: &[u8],
        pending: &mut Vec<Vec<u8>>,
    ) -> Result<(), ListError<L::Fault, V::Stop>>
        requires { Fits self.now.search.now.specs scratch.old }
        ensures visited { OfTree (D.tree directories.old) (λ es. OnOk result (
            IsVisit
            (is_listed self.now.with_directories (L.table look_up.old) (specs_of self.now.search.now.specs))
            (can_hold (specs_of self.now.search.now.specs)) es path.now
            (course (V.given visitor.old) (V.told visitor.old) (D.opened directories.old)
            (map (λ v. v.items) pending.old.items))
            (course (V.given visitor.new) (V.told visitor.new) (D.opened directories.new)
            (map (λ v. v.items) pending.new.items)))) }
        ensures ended { OfTree (D.tree directories.old) (λ es. OnErr result (
            GivesAtMost
            (is_listed self.now.with_directories (L.table look_up.old) (specs_of self.now.search.now.specs))
            es path.now (V.given visitor.old) (V.given visitor.new))) }
        ensures asked { MayAsk (matters
            (is_listed self.now.with_directories (L.table look_up.old) (specs_of self.now.search.now.specs))
            (specs_of self.now.search.now.specs) path.now)
            path.now (D.asked directories.old) (D.asked directories.new) }
        ensures room { scratch.new.room ≡ scratch.old.room }
        ensures tree_stays { D.tree directories.new ≡ D.tree directories.old }
        ensures look_up { AsksInWalk (L.table look_up.old) (L.failures look_up.old)
            (L.table look_up.new) (L.failures look_up.new) result }
        ensures stops { CountsStop (V.stops visitor.old) (V.stops visitor.new) result }
    {
        if self.search.may_skip(BStr::new(path), scratch) {
            return self.visit_skipped(directories, scratch, look_up, visitor, path);
        }
        match directories.open(path) {
            Ok(Some(names)) => {
                self.give_if_listed(scratch, look_up, visitor, path, true)?;
                match push_names(self.alloc, pending, path, names) {
                    Ok(()) => Ok(()),
                    Err(AllocError) => Err(ListError::Memory),
                }
            }
            Ok(None) => self.give_if_listed(scratch, look_up, visitor, path, false),
            Err(fault) => tell(visitor, path, fault),
        }
    }

    /// Visits a path that is not to be opened. What stands there is asked only if it can be listed.
    fn visit_skipped<D: Directories, L: LookUp, V: Visitor<D::Fault>>(
        &self,
        directories: &mut D,
        scratch: &mut Scratch,
        look_up: &mut L,
        visitor: &mut V,
        path: &[u8],
    ) -> Result<(), ListError<L::Fault, V::Stop>>
        requires { Fits self.now.search.now.specs scratch.old }
        ensures visited { OfTree (D.tree directories.old) (λ es. OnOk result (
            IsLook
            (is_listed self.now.with_directories (L.table look_up.old) (specs_of self.now.search.now.specs))
            es path.now (V.given visitor.old) (V.told visitor.old) (V.given visitor.new) (V.told visitor.new))) }
        ensures ended { OfTree (D.tree directories.old) (λ es. OnErr result (
            GivesAtMost
            (is_listed self.now.with_directories (L.table look_up.old) (specs_of self.now.search.now.specs))
            es path.now (V.given visitor.old) (V.given visitor.new))) }
        ensures asked { MayAsk (matters
            (is_listed self.now.with_directories (L.table look_up.old) (specs_of self.now.search.now.specs))
            (specs_of self.now.search.now.specs) path.now)
            path.now (D.asked directories.old) (D.asked directories.new) }
        ensures opened { D.opened directories.new ≡ D.opened directories.old }
        ensures room { scratch.new.room ≡ scratch.old.room }
        ensures tree_stays { D.tree directories.new ≡ D.tree directories.old }
        ensures look_up { AsksInWalk (L.table look_up.old) (L.failures look_up.old)
            (L.table look_up.new) (L.failures look_up.new) result }
        ensures stops { CountsStop (V.stops visitor.old) (V.stops visitor.new) result }
    {
        let file = self.lists(scratch, look_up, path, false)?;
        let directory = self.lists(scratch, look_up, path, true)?;
        if !file && !directory {
            return Ok(());
        }
        match directories.is_dir(path) {
            Ok(is_dir) => give_if(if is_dir { directory } else { file }, visitor, path, is_dir),
            Err(unseen) => tell(visitor, path, unseen),
        }
    }

    /// Gives a path if it is listed.
    fn give_if_listed<F, L: LookUp, V: Visitor<F>>(
        &self,
        scratch: &mut Scratch,
        look_up: &mut L,
        visitor: &mut V,
        path: &[u8],
        is_dir: bool,
    ) -> Result<(), ListError<L::Fault, V::Stop>>
        requires { Fits self.now.search.now.specs scratch.old }
        ensures given { OnOk result (path.now ≢ [] →
            V.given visitor.new ≡ given_if (is_listed self.now.with_directories
            (L.table look_up.old) (specs_of self.now.search.now.specs) path.now is_dir)
            path.now is_dir (V.given visitor.old)) }
        ensures ended { OnErr result (path.now ≢ [] → MayGive
            (is_listed self.now.with_directories
            (L.table look_up.old) (specs_of self.now.search.now.specs) path.now is_dir)
            path.now is_dir (V.given visitor.old) (V.given visitor.new)) }
        ensures room { scratch.new.room ≡ scratch.old.room }
        ensures told { V.told visitor.new ≡ V.told visitor.old }
        ensures look_up { AsksInWalk (L.table look_up.old) (L.failures look_up.old)
            (L.table look_up.new) (L.failures look_up.new) result }
        ensures stops { CountsStop (V.stops visitor.old) (V.stops visitor.new) result }
    {
        let listed = self.lists(scratch, look_up, path, is_dir)?;
        give_if(listed, visitor, path, is_dir)
    }

    /// Whether a path is listed.
    ///
    /// # Errors
    /// The look-up's fault.
    fn lists<L: LookUp, S>(
        &self,
        scratch: &mut Scratch,
        look_up: &mut L,
        path: &[u8],
        is_dir: bool,
    ) -> Result<bool, ListError<L::Fault, S>>
        requires { Fits self.now.search.now.specs scratch.old }
        ensures listed { IfOk result (λ listed. path.now ≢ [] →
            listed ≡ is_listed self.now.with_directories
            (L.table look_up.old) (specs_of self.now.search.now.specs) path.now is_dir) }
        ensures room { scratch.new.room ≡ scratch.old.room }
        ensures look_up { AsksInWalk (L.table look_up.old) (L.failures look_up.old)
            (L.table look_up.new) (L.failures look_up.new) result }
        ensures stops { StopsNothing result }
    {
        if is_dir && !self.with_directories {
            return Ok(false);
        }
        let path = BStr::new(path);
        match self
            .search
            .is_selected(path, Some(is_dir), scratch, look_up)
        {
            Ok(is_selected) => Ok(is_selected),
            Err(fault) => Err(ListError::LookUp(fault)),
        }
    }
}

/// Gives a path, or doesn't.
fn give_if<F, E, V: Visitor<F>>(
    is_given: bool,
    visitor: &mut V,
    path: &[u8],
    is_dir: bool,
) -> Result<(), ListError<E, V::Stop>>
    ensures given { V.given visitor.new ≡ given_if is_given path.now is_dir (V.given visitor.old) }
    ensures told { V.told visitor.new ≡ V.told visitor.old }
    ensures look_up { AsksNoLookUp result }
    ensures stops { CountsStop (V.stops visitor.old) (V.stops visitor.new) result }
{
    if !is_given {
        return Ok(());
    }
    match visitor.give(path, is_dir) {
        Ok(()) => Ok(()),
        Err(stop) => Err(ListError::Stopped(stop)),
    }
}

/// Tells of a path that can't be looked at.
///
/// # Errors
/// The visitor's reason to end the walk.
fn tell<F, E, V: Visitor<F>>(
    visitor: &mut V,
    path: &[u8],
    fault: F,
) -> Result<(), ListError<E, V::Stop>>
    ensures given { V.given visitor.new ≡ V.given visitor.old }
    ensures told { V.told visitor.new ≡ append_known (V.told visitor.old) (path.now ∷ []) }
    ensures look_up { AsksNoLookUp result }
    ensures stops { CountsStop (V.stops visitor.old) (V.stops visitor.new) result }
{
    match visitor.tell(path, fault) {
        Ok(()) => Ok(()),
        Err(stop) => Err(ListError::Stopped(stop)),
    }
}

/// Puts the paths of names in a directory on the stack, so that the first one comes next.
///
/// # Errors
/// Memory runs out.
fn push_names(
    alloc: Global,
    pending: &mut Vec<Vec<u8>>,
    directory: &[u8],
    mut names: Vec<Vec<u8>>,
) -> Result<(), AllocError>
    ensures { OnOk result (reverse (map (λ v. v.items) pending.new.items)
        ≡ map (path_in directory.now) (map (λ v. v.items) names.items)
        ++ reverse (map (λ v. v.items) pending.old.items)) }
{
    while let Some(name) = names.pop() {
        let path = join(alloc, directory, name)?;
        pending.push(path)?;
    }
    Ok(())
}

/// The path of a name in a directory; the empty path is the top.
///
/// # Errors
/// Memory runs out.
fn join(alloc: Global, directory: &[u8], name: Vec<u8>) -> Result<Vec<u8>, AllocError>
    ensures { IfOk result (λ path. path.items ≡ path_in directory.now name.items) }
{
    if directory.is_empty() {
        return Ok(name);
    }
    let length = directory.len().saturating_add(name.len()).saturating_add(1);
    let mut path = Vec::with_capacity(alloc, length)?;
    path.extend_from_slice(directory)?;
    path.push(b'/')?;
    path.extend_from_slice(&name)?;
    Ok(path)
}
