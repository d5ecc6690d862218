//! The handle of a session, and from it and a channel's number to a session and a channel.
ghost use Rattle.std.specs.Prelude.{◌≡◌, ◌==◌, not, is_some, Some, None};
ghost use Rattle.std.specs.Option.{option_map};
ghost use Rattle.lc_frame.specs.Channel.{channel_at};
ghost use Rattle.lc_c.specs.Reach.{Reaches};

use super::handle::MuxSlot;
use super::session::CMux;
use crate::answer::{NO_CHANNEL, NO_PEER, only};
use crate::reach::{Target, channel_of};
use std::alloc::Global;
use std::mem;

/// The handle of a session, or an empty one, which is all zero. C passes it on and changes nothing in
/// it.
#[repr(C)]
#[derive(Drop)]
pub struct LcmuxMux {
    mark: u64,
    pub slot: MuxSlot,
    ghost marked: { is_some slot.held ≡ not (mark == 0) },
}

impl LcmuxMux {
    pub(crate) fn empty(alloc: Global) -> LcmuxMux
        ensures { result.slot.held ≡ None }
    {
        LcmuxMux {
            mark: 0,
            slot: MuxSlot::empty(alloc),
        }
    }

    pub(crate) fn of(session: Box<CMux>) -> LcmuxMux
        ensures { result.slot.held ≡ Some session.value }
    {
        LcmuxMux {
            mark: 1,
            slot: MuxSlot::of(session),
        }
    }

    pub(crate) fn into_session(self) -> Option<Box<CMux>>
        ensures { option_map (λ session. session.value) result ≡ self.slot.held }
    {
        let LcmuxMux { mark, slot } = self;
        if mark == 0 {
            return None;
        }
        Some(slot.into_box())
    }
}

/// The session behind a handle, which is empty then.
pub(crate) fn open(handle: &mut LcmuxMux, alloc: Global) -> Option<Box<CMux>>
    ensures value { option_map (λ session. session.value) result ≡ handle.old.slot.held }
    ensures empty { handle.new.slot.held ≡ None }
{
    mem::replace(handle, LcmuxMux::empty(alloc)).into_session()
}

/// The session behind a handle, and the channel of a number.
pub(crate) fn reach(handle: &mut LcmuxMux, alloc: Global, number: u32) -> Target<CMux>
    ensures { Reaches result handle.old.slot.held (channel_at number) handle.new.slot.held }
{
    match open(handle, alloc) {
        None => Target::Barred(only(NO_PEER)),
        Some(session) => match channel_of(number) {
            Some(channel) => Target::At(session, channel),
            None => {
                *handle = LcmuxMux::of(session);
                Target::Barred(only(NO_CHANNEL))
            }
        },
    }
}
