//! A box as its pointer.
ghost use Rattle.std.specs.Prelude.{◌≡◌};
ghost use Rattle.std.specs.Box.{box_value};
ghost use Rattle.std.specs.Box.Ownership.{box_owns};

use std::alloc::Allocator;
use std::marker::Model;

/// A box in parts: the pointer to its value, the right to free its block, and the allocator's handle to free it by.
pub(crate) struct RawBox<T, A: Allocator> {
    pub(crate) at: *mut T,
    pub(crate) alloc: A,
    pub(crate) ghost value: { T },
}

impl<T, A: Allocator> Model for RawBox<T, A> {
    ghost also_owns = { λ u. box_owns (A.dealloc_token u.alloc) T.row u.at u.value };
}

impl<T: Drop, A: Allocator> RawBox<T, A> {
    /// Takes a box apart.
    pub(crate) fn of(whole: Box<T, A>) -> RawBox<T, A>
        ensures { result.value ≡ box_value whole }
    {
        let (at, alloc) = Box::into_raw_with_allocator(whole);
        RawBox { at, alloc }
    }

    /// Makes the box again.
    pub(crate) fn into_box(self) -> Box<T, A>
        ensures { box_value result ≡ self.value }
    {
        let RawBox { at, alloc } = self;
        unsafe { Box::from_raw(alloc, at) }
    }
}
