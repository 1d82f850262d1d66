//! The content of a handle: a search, which handles share, with room and attributes of its own.
ghost use Rattle.std.specs.Prelude.{◌≡◌, ◌≢◌, [], ◌∷◌, true, false, map, Err, IfOk, IfErr, OnOk, OnErr};
ghost use Rattle.std.specs.Arc.{arc_value};
ghost use Rattle.std.specs.Box.{box_value};
ghost use Rattle.pathspec_pattern.specs.AttributeLists.{assignments_of};
ghost use Rattle.gix_pathspec.specs.Errors.{IsMemoryOr};
ghost use Rattle.gix_pathspec.specs.Room.{Fits};
ghost use Rattle.gix_pathspec.specs.Search.{specs_of, answer, selects};
ghost use Rattle.gix_pathspec.specs.Skipping.{may_skip};
ghost use Rattle.pathspec_c.specs.Calls.{IsYesOrNo, yes_no};
ghost use Rattle.pathspec_parts.specs.AttributeStates.{assignment_view};
ghost use Rattle.pathspec_attributes.specs.Files.{left_out, table_of};
ghost use Rattle.pathspec_attributes.specs.Places.{may_define};
ghost use Rattle.pathspec_attributes.specs.Views.{left_out_view};
ghost use Rattle.pathspec_c.specs.Added.{AddsFile};
ghost use Rattle.pathspec_c.specs.Searchers.{AddsRow, Keeps, answer_in, has_attributes, has_files, has_rows, new_searcher};
ghost use Rattle.pathspec_c.specs.Searchers.GivenAttributes.{RowsGiven};
ghost use Rattle.pathspec_c.specs.Reports.{IsUnanswered, TellsAnswer};

use crate::empty_rows::EmptyRows;
use crate::reports::PsMatch;
use bstr::BStr;
use gix_pathspec::attributes::LookUp;
use gix_pathspec::search::Scratch;
use gix_pathspec::{Error, Search, parse};
use pathspec_attributes::{AttributeFiles, BorrowedFiles, LeftOut, Place, Room};
use pathspec_parts::attributes::{Assignment, Rows};
use std::alloc::{AllocError, Global};
use std::marker::Model;
use std::sync::Arc;

/// A search, the room for matches, and the attributes of paths.
#[derive(Drop)]
pub struct Searcher {
    search: Arc<Search, Global>,
    scratch: Scratch,
    attributes: Attributes,
}

/// The attributes that were given: none, those of rows, or those of files, with the room for matches of their patterns.
#[derive(Drop)]
pub(crate) enum Attributes {
    Nothing,
    Rows(Rows),
    Files(AttributeFiles, Room),
}

impl Model for Searcher {
    ghost use Rattle.std.specs.Arc.{arc_value};
    ghost use Rattle.gix_pathspec.specs.Room.{Fits};
    ghost use Rattle.pathspec_c.specs.Searchers.{SearcherContents};
    ghost use Rattle.pathspec_c.specs.Views.{given_in};

    ghost Value = { SearcherContents };

    ghost view = { λ h. record { specs = (arc_value h.search).specs; attributes = given_in h.attributes } };

    ghost invariant = { λ h. Fits (arc_value h.search).specs h.scratch };
}

impl Searcher {
    /// Makes a searcher of a search, with room for its matches.
    pub(crate) fn new(alloc: Global, search: Search) -> Result<Box<Searcher>, AllocError>
        ensures { IfOk result (λ searcher. box_value searcher ≡ new_searcher search.specs) }
    {
        Searcher::of(alloc, Arc::new(alloc, search)?)
    }

    /// Makes a searcher of the same search, with room of its own and no attributes.
    pub(crate) fn share(&self, alloc: Global) -> Result<Box<Searcher>, AllocError>
        ensures { IfOk result (λ searcher. box_value searcher ≡ new_searcher self.now.specs) }
    {
        Searcher::of(alloc, Arc::try_clone(&self.search)?)
    }

    /// Makes a searcher of a search that others may share.
    fn of(alloc: Global, search: Arc<Search, Global>) -> Result<Box<Searcher>, AllocError>
        ensures { IfOk result (λ searcher.
            box_value searcher ≡ new_searcher (arc_value search).specs) }
    {
        let scratch = search.new_scratch(alloc)?;
        let searcher = Searcher {
            search,
            scratch,
            attributes: Attributes::Nothing,
        };
        Ok(Box::new(alloc, searcher)?)
    }

    /// The search.
    pub(crate) fn search(&self) -> &Search
        ensures { result.now.specs ≡ self.now.specs }
    {
        &self.search
    }

    /// Whether a walk may skip a directory.
    pub(crate) fn may_skip(&mut self, directory: &[u8]) -> bool
        ensures answer { result ≡ may_skip (specs_of self.old.specs) directory.now }
        ensures same { self.new ≡ self.old }
    {
        self.search
            .may_skip(BStr::new(directory), &mut self.scratch)
    }

    /// Whether the search selects a path, and which spec settles it; or that memory ran out.
    pub(crate) fn settle(&mut self, path: &[u8], is_dir: bool, found: &mut PsMatch) -> u32
        ensures same { Keeps self.old self.new }
        ensures answer { found.new.kind ≢ 5
            → result ≡ yes_no (selects (answer_in self.old path.now is_dir)) }
        ensures report { found.new.kind ≢ 5
            → TellsAnswer found.new (answer_in self.old path.now is_dir) }
        ensures unanswered { found.new.kind ≡ 5 → IsUnanswered result found.new }
        ensures failed { found.new.kind ≡ 5 → has_attributes self.old.attributes ≡ true }
        ensures closed { IsYesOrNo result }
    {
        let (search, scratch) = (&*self.search, &mut self.scratch);
        match &mut self.attributes {
            Attributes::Nothing => {
                match settle_by(search, scratch, &mut EmptyRows, path, is_dir, found) {
                    Ok(status) => status,
                    Err(never) => match never {},
                }
            }
            Attributes::Rows(rows) => settle_or_tell(search, scratch, rows, path, is_dir, found),
            Attributes::Files(files, room) => {
                settle_by_files(search, scratch, files, room, path, is_dir, found)
            }
        }
    }

    /// Whether rows were given, beside which no file may stand.
    pub(crate) fn has_rows(&self) -> bool
        ensures { result ≡ has_rows self.now.attributes }
    {
        matches!(self.attributes, Attributes::Rows(_))
    }

    /// Whether files were given, beside which no row may stand.
    pub(crate) fn has_files(&self) -> bool
        ensures { result ≡ has_files self.now.attributes }
    {
        matches!(self.attributes, Attributes::Files(_, _))
    }

    /// Gives a path the attributes that a list assigns.
    ///
    /// # Errors
    /// The list can't be read, or [`Error::Memory`].
    pub(crate) fn add_row(&mut self, alloc: Global, path: &[u8], list: &[u8]) -> Result<(), Error>
        requires { has_files self.old.attributes ≡ false }
        ensures ok { OnOk result (AddsRow path.now list.now self.old self.new) }
        ensures same { OnErr result (self.new ≡ self.old) }
        ensures err { IfErr result (λ e.
            IsMemoryOr e (λ fault. assignments_of list.now ≡ Err fault)) }
    {
        let assignments = parse::attributes(alloc, list)?;
        match &mut self.attributes {
            Attributes::Rows(rows) => {
                rows.push(path, assignments)?;
                Ok(())
            }
            Attributes::Nothing => {
                self.add_first_row(alloc, path, assignments)?;
                Ok(())
            }
            Attributes::Files(_, _) => {
                self.add_first_row(alloc, path, assignments)?;
                Ok(())
            }
        }
    }

    /// Gives a path attributes, in place of all that were given.
    ///
    /// # Errors
    /// Memory runs out, and all is as before.
    fn add_first_row(
        &mut self,
        alloc: Global,
        path: &[u8],
        assignments: Vec<Assignment>,
    ) -> Result<(), AllocError>
        ensures ok { OnOk result (self.new ≡ record self.old {
          attributes = RowsGiven (record {
            path = path.now;
            assignments = map assignment_view assignments.items;
          } ∷ []);
        }) }
        ensures same { OnErr result (self.new ≡ self.old) }
    {
        let mut rows = Rows::new(alloc);
        rows.push(path, assignments)?;
        self.attributes = Attributes::Rows(rows);
        Ok(())
    }

    /// Adds an attribute file, in place of the one that is held there. Gives the lines that git leaves out.
    ///
    /// # Errors
    /// Memory runs out, and all is as before.
    pub(crate) fn add_file(
        &mut self,
        alloc: Global,
        place: Place<'_>,
        text: &[u8],
    ) -> Result<Vec<LeftOut>, AllocError>
        requires { has_rows self.old.attributes ≡ false }
        ensures ok { OnOk result (AddsFile place.entry text.now self.old self.new) }
        ensures same { OnErr result (self.new ≡ self.old) }
        ensures left_out { IfOk result (λ told.
            map left_out_view told.items ≡ left_out (may_define place.entry) text.now) }
    {
        match &mut self.attributes {
            Attributes::Files(files, _) => files.add(place, text),
            Attributes::Nothing => self.add_first_file(alloc, place, text),
            Attributes::Rows(_) => self.add_first_file(alloc, place, text),
        }
    }

    /// Adds an attribute file, in place of all attributes that were given.
    ///
    /// # Errors
    /// Memory runs out, and all is as before.
    fn add_first_file(
        &mut self,
        alloc: Global,
        place: Place<'_>,
        text: &[u8],
    ) -> Result<Vec<LeftOut>, AllocError>
        requires { has_files self.old.attributes ≡ false }
        ensures ok { OnOk result (AddsFile place.entry text.now self.old self.new) }
        ensures same { OnErr result (self.new ≡ self.old) }
        ensures left_out { IfOk result (λ told.
            map left_out_view told.items ≡ left_out (may_define place.entry) text.now) }
    {
        let mut files = AttributeFiles::new(alloc)?;
        let left_out = files.add(place, text)?;
        let room = Room::new(alloc)?;
        self.attributes = Attributes::Files(files, room);
        Ok(left_out)
    }
}

/// Whether a search selects a path by attribute files, and which spec settles it; or that memory ran out.
fn settle_by_files(
    search: &Search,
    scratch: &mut Scratch,
    files: &AttributeFiles,
    room: &mut Room,
    path: &[u8],
    is_dir: bool,
    found: &mut PsMatch,
) -> u32
    requires { Fits search.now.specs scratch.old }
    ensures answer { found.new.kind ≢ 5 → result ≡ yes_no
        (selects (answer (table_of files.now.files) search.now.specs path.now is_dir)) }
    ensures report { found.new.kind ≢ 5 → TellsAnswer found.new
        (answer (table_of files.now.files) search.now.specs path.now is_dir) }
    ensures unanswered { found.new.kind ≡ 5 → IsUnanswered result found.new }
    ensures closed { IsYesOrNo result }
    ensures room { scratch.new.room ≡ scratch.old.room }
{
    let mut look_up = BorrowedFiles::new(files, room);
    settle_or_tell(search, scratch, &mut look_up, path, is_dir, found)
}

/// Whether a search selects a path by a look-up, and which spec settles it; or that the look-up failed.
fn settle_or_tell<L: LookUp>(
    search: &Search,
    scratch: &mut Scratch,
    look_up: &mut L,
    path: &[u8],
    is_dir: bool,
    found: &mut PsMatch,
) -> u32
    requires { Fits search.now.specs scratch.old }
    ensures answer { found.new.kind ≢ 5 → result
        ≡ yes_no (selects (answer (L.table look_up.old) search.now.specs path.now is_dir)) }
    ensures report { found.new.kind ≢ 5 → TellsAnswer found.new
        (answer (L.table look_up.old) search.now.specs path.now is_dir) }
    ensures unanswered { found.new.kind ≡ 5 → IsUnanswered result found.new }
    ensures closed { IsYesOrNo result }
    ensures room { scratch.new.room ≡ scratch.old.room }
    ensures table_stays { L.table look_up.new ≡ L.table look_up.old }
{
    match settle_by(search, scratch, look_up, path, is_dir, found) {
        Ok(status) => status,
        Err(_) => found.tell_unanswered(),
    }
}

/// Whether a search selects a path by a look-up, and which spec settles it.
///
/// # Errors
/// The look-up's fault.
fn settle_by<L: LookUp>(
    search: &Search,
    scratch: &mut Scratch,
    look_up: &mut L,
    path: &[u8],
    is_dir: bool,
    found: &mut PsMatch,
) -> Result<u32, L::Fault>
    requires { Fits search.now.specs scratch.old }
    ensures answer { IfOk result (λ status. status
        ≡ yes_no (selects (answer (L.table look_up.old) search.now.specs path.now is_dir))) }
    ensures report { IfOk result (λ _. TellsAnswer found.new
        (answer (L.table look_up.old) search.now.specs path.now is_dir)) }
    ensures answered { OnOk result (found.new.kind ≢ 5) }
    ensures closed { IfOk result IsYesOrNo }
    ensures room { scratch.new.room ≡ scratch.old.room }
    ensures table_stays { L.table look_up.new ≡ L.table look_up.old }
{
    let settled = search.settle(BStr::new(path), Some(is_dir), scratch, look_up)?;
    Ok(found.tell(&settled))
}
