//! The handle that C keeps of a search.
ghost use Rattle.std.specs.Prelude.{◌≡◌, Option, Some, None};
ghost use Rattle.std.specs.Option.{option_map};
ghost use Rattle.std.specs.Box.{box_value};
ghost use Rattle.pathspec_c.specs.Handle.{searcher_at, searcher_coded};
ghost use Rattle.pathspec_c.specs.Searchers.{SearcherContents};

use crate::raw_box::RawBox;
use crate::searcher::Searcher;
use std::alloc::Global;
use std::marker::Model;
use std::{mem, ptr};

/// A handle that C keeps: one pointer, null where the handle is empty, and else to the searcher that the handle owns. C makes
/// it of zero bytes, and then only hands its address on.
#[repr(C)]
#[derive(Drop)]
pub struct PsSearch {
    at: *mut u8,
    pub ghost searcher: { Option SearcherContents } by { searcher_coded },
}

impl Model for PsSearch {
    ghost also_owns = { λ h. searcher_at h.at h.searcher };
}

// The handle owns a box, which may go to another thread.
unsafe impl Send for PsSearch {}

impl PsSearch {
    /// Makes an empty handle.
    fn empty() -> PsSearch
        ensures { result.searcher ≡ None }
    {
        PsSearch {
            at: ptr::null_mut(),
        }
    }

    /// Makes a handle that owns what a box owned.
    fn of(searcher: RawBox<Searcher, Global>) -> PsSearch
        ensures { result.searcher ≡ Some searcher.value }
    {
        let RawBox { at, alloc: _ } = searcher;
        PsSearch { at: at as *mut u8 }
    }

    /// The searcher that the handle holds, if it isn't empty.
    fn into_raw_box(self, alloc: Global) -> Option<RawBox<Searcher, Global>>
        ensures { option_map (λ u. u.value) result ≡ self.searcher }
    {
        let PsSearch { at } = self;
        if at.is_null() {
            None
        } else {
            Some(RawBox {
                at: at as *mut Searcher,
                alloc,
            })
        }
    }

    /// Takes the searcher out of the handle, if it holds one, and leaves it empty.
    pub(crate) fn take(&mut self, alloc: Global) -> Option<Box<Searcher>>
        ensures searcher { option_map box_value result ≡ self.old.searcher }
        ensures empty { self.new.searcher ≡ None }
    {
        match mem::replace(self, PsSearch::empty()).into_raw_box(alloc) {
            Some(searcher) => Some(searcher.into_box()),
            None => None,
        }
    }

    /// Puts a searcher into an empty handle.
    pub(crate) fn put(&mut self, searcher: Box<Searcher>)
        requires { self.old.searcher ≡ None }
        ensures { self.new.searcher ≡ Some (box_value searcher) }
    {
        *self = PsSearch::of(RawBox::of(searcher));
    }
}
