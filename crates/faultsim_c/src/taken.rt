//! A box that is taken apart.

ghost use Rattle.std.specs.Prelude.{◌≡◌};
ghost use Rattle.std.specs.Box.Ownership.{box_owns};

use std::alloc::Allocator;
use std::marker::Model;

/// The pointer of a box and its allocator, which own what the box owned.
pub(crate) struct Taken<T, A: Allocator> {
    pub(crate) ptr: *mut T,
    pub(crate) alloc: A,
    pub(crate) ghost value: { T },
}

impl<T, A: Allocator> Model for Taken<T, A> {
    ghost also_owns = { λ t. box_owns (A.dealloc_token t.alloc) T.row t.ptr t.value };
}

impl<T, A: Allocator> Taken<T, A> {
    /// Takes a box apart.
    pub(crate) fn of(whole: Box<T, A>) -> Taken<T, A>
    where
        T: Drop,
        ensures { result.value ≡ whole.value }
    {
        let (ptr, alloc) = Box::into_raw_with_allocator(whole);
        Taken { ptr, alloc }
    }

    /// Puts the box together.
    pub(crate) fn into_box(self) -> Box<T, A>
        ensures { result.value ≡ self.value }
    {
        let Taken { ptr, alloc } = self;
        unsafe { Box::from_raw(alloc, ptr) }
    }
}
