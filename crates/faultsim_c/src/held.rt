//! The pointer in a handle.

ghost use Rattle.std.specs.Prelude.{◌≡◌, Option, Some, None};
ghost use Rattle.faultsim_c.specs.Held.{Value, held_by, value_coded};

use crate::holding::Holding;
use crate::taken::Taken;
use std::alloc::Global;
use std::marker::Model;
use std::ptr::null_mut;

/// A pointer that owns the contents of a handle, or null. Its type names no type of this library,
/// so that it crosses to C.
#[repr(C)]
pub struct Held {
    at: *mut u8,
    alloc: Global,
    pub ghost holding: { Option Value } by { value_coded },
}

impl Model for Held {
    ghost also_owns = { λ h. held_by h.alloc h.at h.holding };
}

impl Held {
    /// Holds nothing.
    pub(crate) fn none(alloc: Global) -> Held
        ensures { result.holding ≡ None }
    {
        Held {
            at: null_mut(),
            alloc,
        }
    }

    /// Holds the contents of a handle.
    pub(crate) fn of(taken: Taken<Holding, Global>) -> Held
        ensures { result.holding ≡ Some taken.value }
    {
        let Taken { ptr, alloc } = taken;
        Held {
            at: ptr as *mut u8,
            alloc,
        }
    }

    /// Gives up what is held.
    pub(crate) fn open(self) -> Taken<Holding, Global>
        requires { (v : Value) × (self.holding ≡ Some v) }
        ensures { self.holding ≡ Some result.value }
    {
        let Held { at, alloc } = self;
        Taken {
            ptr: at as *mut Holding,
            alloc,
        }
    }

    /// Lets a holder of nothing go.
    pub(crate) fn nothing(self)
        requires { self.holding ≡ None }
    {
        let Held { at: _, alloc: _ } = self;
    }
}

// A handle's contents may go to another thread because the job and its room may.
unsafe impl Send for Held {}
