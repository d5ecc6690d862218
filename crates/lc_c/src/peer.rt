//! The handle of a peer.
ghost use Rattle.std.specs.Prelude.{◌≡◌, ◌==◌, not, is_some, Some, None};
ghost use Rattle.std.specs.Option.{option_map};

use crate::c_peer::CPeer;
use crate::handle::Slot;
use std::alloc::Global;
use std::mem;

/// The handle of a peer, or an empty one, which is all zero. C passes it on and changes nothing in
/// it.
#[repr(C)]
#[derive(Drop)]
pub struct LcmuxPeer {
    mark: u64,
    pub slot: Slot,
    ghost marked: { is_some slot.held ≡ not (mark == 0) },
}

impl LcmuxPeer {
    pub(crate) fn empty(alloc: Global) -> LcmuxPeer
        ensures { result.slot.held ≡ None }
    {
        LcmuxPeer {
            mark: 0,
            slot: Slot::empty(alloc),
        }
    }

    pub(crate) fn of(side: Box<CPeer>) -> LcmuxPeer
        ensures { result.slot.held ≡ Some side.value }
    {
        LcmuxPeer {
            mark: 1,
            slot: Slot::of(side),
        }
    }

    pub(crate) fn into_side(self) -> Option<Box<CPeer>>
        ensures { option_map (λ side. side.value) result ≡ self.slot.held }
    {
        let LcmuxPeer { mark, slot } = self;
        if mark == 0 {
            return None;
        }
        Some(slot.into_box())
    }
}

/// What stands behind a handle, which is empty then.
pub(crate) fn open(handle: &mut LcmuxPeer, alloc: Global) -> Option<Box<CPeer>>
    ensures value { option_map (λ side. side.value) result ≡ handle.old.slot.held }
    ensures empty { handle.new.slot.held ≡ None }
{
    mem::replace(handle, LcmuxPeer::empty(alloc)).into_side()
}
