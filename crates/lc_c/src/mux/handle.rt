//! A box as a pointer that C may keep.
ghost use Rattle.std.specs.Prelude.{◌≡◌, Option, Some, None, IsSome};
ghost use Rattle.lc_c.specs.declared.mux.session.CMux.{CMux};
ghost use Rattle.lc_c.specs.MuxHandle.{handle_owns, held_coded};

use super::session::CMux;
use crate::parts::Parts;
use std::alloc::Global;
use std::marker::Model;
use std::ptr;

/// The place of a session, or none.
#[repr(C)]
pub struct MuxSlot {
    at: *mut (),
    alloc: Global,
    pub ghost held: { Option CMux } by { held_coded },
}

impl Model for MuxSlot {
    ghost also_owns = { λ h. handle_owns h.alloc h.at h.held };
}

impl MuxSlot {
    pub(crate) fn empty(alloc: Global) -> MuxSlot
        ensures { result.held ≡ None }
    {
        MuxSlot {
            at: ptr::null_mut(),
            alloc,
        }
    }

    pub(crate) fn of(whole: Box<CMux>) -> MuxSlot
        ensures { result.held ≡ Some whole.value }
    {
        MuxSlot::of_parts(Parts::of(whole))
    }

    pub(crate) fn into_box(self) -> Box<CMux>
        requires { IsSome self.held }
        ensures { Some result.value ≡ self.held }
    {
        self.into_parts().into_box()
    }

    fn of_parts(parts: Parts<CMux, Global>) -> MuxSlot
        ensures { result.held ≡ Some parts.value }
    {
        let Parts { ptr, alloc } = parts;
        MuxSlot {
            at: ptr as *mut (),
            alloc,
        }
    }

    fn into_parts(self) -> Parts<CMux, Global>
        requires { IsSome self.held }
        ensures { Some result.value ≡ self.held }
    {
        let MuxSlot { at, alloc } = self;
        Parts {
            ptr: at as *mut CMux,
            alloc,
        }
    }
}

// A slot that holds a session is never let go: the session leaves it as a box, and its memory with it.
impl Drop for MuxSlot {
    fn drop(self)
        requires { self.held ≡ None }
    {
        let MuxSlot { at: _, alloc: _ } = self;
    }
}

// What stands behind a handle is memory that no thread owns.
unsafe impl Send for MuxSlot {}
