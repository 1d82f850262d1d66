//! A search with the room for its questions.
ghost use Rattle.std.specs.Prelude.{◌≡◌, ◌≢◌, [], false, IsTrue, IfOk};
ghost use Rattle.pathspec_parts.specs.Attributes.{AsksLookUp};
ghost use Rattle.pathspec_filter.specs.Selections.{KeepsBelow, taken_if};
ghost use Rattle.pathspec_filter.specs.Places.{HoldsNoneChosen, is_taken};

use crate::selection::path_in;
use crate::{LeadingDot, Selection};
use bstr::BStr;
use gix_pathspec::Search;
use gix_pathspec::search::Scratch;
use pathspec_parts::attributes::LookUp;
use std::alloc::{AllocError, Global};
use std::marker::Model;

/// A search and a scratch of it, asked about paths of records. A contract sees the specs, and which records are taken.
#[derive(Drop)]
pub(crate) struct Questions<'s> {
    search: &'s Search,
    selection: Selection,
    /// The directories of which a question was told that they may be skipped.
    skipped: u64,
    /// In a box: whoever drops it needn't prove anew what becomes of its lists.
    scratch: Box<Scratch>,
}

impl<'s> Model for Questions<'s> {
    ghost use Rattle.std.specs.Box.{box_value};
    ghost use Rattle.gix_pathspec.specs.Room.{Fits};
    ghost use Rattle.pathspec_filter.specs.Places.{Asked};

    ghost Value = { Asked };

    ghost view = { λ q. record { specs = q.search.now.specs; selection = q.selection } };

    ghost invariant = { λ q. Fits q.search.now.specs (box_value q.scratch) };
}

impl<'s> Questions<'s> {
    /// A scratch for a search.
    ///
    /// # Errors
    /// Memory runs out.
    pub(crate) fn new(
        alloc: Global,
        search: &'s Search,
        selection: Selection,
    ) -> Result<Questions<'s>, AllocError>
        ensures { IfOk result (λ questions. questions
            ≡ record { specs = search.now.specs; selection = selection }) }
    {
        let scratch = search.boxed_scratch(alloc)?;
        Ok(Questions {
            search,
            selection,
            skipped: 0,
            scratch,
        })
    }

    /// Whether a record with this path is taken.
    ///
    /// # Errors
    /// The look-up's fault, where it failed in this call.
    #[inline(always)]
    pub(crate) fn takes<L: LookUp>(
        &mut self,
        path: &[u8],
        is_dir: bool,
        look_up: &mut L,
    ) -> Result<bool, L::Fault>
        requires { path.now ≢ [] }
        ensures kept { self.new ≡ self.old }
        ensures taken { IfOk result (λ answer. answer
            ≡ is_taken (L.table look_up.old) self.old path.now is_dir) }
        ensures look_up { AsksLookUp (L.table look_up.old) (L.failures look_up.old)
            (L.table look_up.new) (L.failures look_up.new) result }
    {
        let path = BStr::new(path_in(self.selection.leading_dot, path));
        let visit = self.search.visit(path, is_dir, &mut self.scratch, look_up)?;
        Ok(self.takes_if(visit.is_selected))
    }

    /// Whether a path that the search selects, or doesn't, is taken.
    #[inline(always)]
    pub(crate) fn takes_if(&self, is_selected: bool) -> bool
        ensures { result ≡ taken_if self.now.selection is_selected }
    {
        if self.selection.is_inverted {
            !is_selected
        } else {
            is_selected
        }
    }

    /// The count of directories that [`Questions::may_skip`] said may be skipped.
    pub(crate) fn skipped(&self) -> u64 {
        self.skipped
    }

    /// Whether nothing below a directory is selected, as far as the search tells without a look at a path there.
    #[inline(never)]
    pub(crate) fn may_skip(&mut self, directory: &[u8]) -> bool
        ensures kept { self.new ≡ self.old }
        ensures none { IsTrue result → HoldsNoneChosen self.old directory.now }
    {
        if is_top(self.selection.leading_dot, directory) {
            return false;
        }
        let directory = BStr::new(path_in(self.selection.leading_dot, directory));
        let may_skip = self.search.may_skip(directory, &mut self.scratch);
        self.skipped = self.skipped.saturating_add(u64::from(may_skip));
        may_skip
    }
}

/// Whether the paths below a directory may have another front than the directory: it is `.`, and a leading `./` is dropped.
fn is_top(leading_dot: LeadingDot, directory: &[u8]) -> bool
    ensures { result ≡ false → KeepsBelow leading_dot directory.now }
{
    match leading_dot {
        LeadingDot::Kept => false,
        LeadingDot::Dropped => b"./".starts_with(directory),
    }
}
