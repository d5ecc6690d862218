//! From a handle and a channel's number to a peer and a channel.
ghost use Rattle.std.specs.Prelude.{◌≡◌};
ghost use Rattle.lc_frame.specs.Channel.{channel_at};
ghost use Rattle.lc_c.specs.Reach.{Reaches};

use crate::answer::{LcmuxAnswer, NO_CHANNEL, NO_PEER, only};
use crate::c_peer::CPeer;
use crate::peer::{LcmuxPeer, open};
use lc_frame::Channel;
use std::alloc::Global;

/// What stands behind a handle and a number: a side or a session, which is out of the handle, and a
/// channel, or the answer of a call that comes to none.
#[derive(Drop)]
pub(crate) enum Target<T> {
    Barred(LcmuxAnswer),
    At(Box<T>, Channel),
}

/// The channel of a number.
pub(crate) fn channel_of(number: u32) -> Option<Channel>
    ensures { result ≡ channel_at number }
{
    match u8::try_from(number) {
        Ok(number) => Channel::from_number(number),
        Err(_) => None,
    }
}

pub(crate) fn reach(handle: &mut LcmuxPeer, alloc: Global, number: u32) -> Target<CPeer>
    ensures { Reaches result handle.old.slot.held (channel_at number) handle.new.slot.held }
{
    match open(handle, alloc) {
        None => Target::Barred(only(NO_PEER)),
        Some(side) => match channel_of(number) {
            Some(channel) => Target::At(side, channel),
            None => {
                *handle = LcmuxPeer::of(side);
                Target::Barred(only(NO_CHANNEL))
            }
        },
    }
}
