//! A box as a pointer that C may keep.
ghost use Rattle.std.specs.Prelude.{◌≡◌, Option, Some, None, IsSome};
ghost use Rattle.lc_c.specs.Side.{Side};
ghost use Rattle.lc_c.specs.Handle.{handle_owns, held_coded};

use crate::c_peer::CPeer;
use crate::parts::Parts;
use std::alloc::Global;
use std::marker::Model;
use std::ptr;

/// The place of a side, or none.
#[repr(C)]
pub struct Slot {
    at: *mut (),
    alloc: Global,
    pub ghost held: { Option Side } by { held_coded },
}

impl Model for Slot {
    ghost also_owns = { λ h. handle_owns h.alloc h.at h.held };
}

impl Slot {
    pub(crate) fn empty(alloc: Global) -> Slot
        ensures { result.held ≡ None }
    {
        Slot {
            at: ptr::null_mut(),
            alloc,
        }
    }

    pub(crate) fn of(whole: Box<CPeer>) -> Slot
        ensures { result.held ≡ Some whole.value }
    {
        Slot::of_parts(Parts::of(whole))
    }

    pub(crate) fn into_box(self) -> Box<CPeer>
        requires { IsSome self.held }
        ensures { Some result.value ≡ self.held }
    {
        self.into_parts().into_box()
    }

    fn of_parts(parts: Parts<CPeer, Global>) -> Slot
        ensures { result.held ≡ Some parts.value }
    {
        let Parts { ptr, alloc } = parts;
        Slot {
            at: ptr as *mut (),
            alloc,
        }
    }

    fn into_parts(self) -> Parts<CPeer, Global>
        requires { IsSome self.held }
        ensures { Some result.value ≡ self.held }
    {
        let Slot { at, alloc } = self;
        Parts {
            ptr: at as *mut CPeer,
            alloc,
        }
    }
}

// A slot that holds a side is never let go: the side leaves it as a box, and its memory with it.
impl Drop for Slot {
    fn drop(self)
        requires { self.held ≡ None }
    {
        let Slot { at: _, alloc: _ } = self;
    }
}

// What stands behind a handle is memory that no thread owns.
unsafe impl Send for Slot {}
