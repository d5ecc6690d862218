//! A Send that is begun.
ghost use Rattle.std.specs.Prelude.{◌≡◌, ℕ, IfSome, IfNone};
ghost use Rattle.lc_frame.specs.declared.channel.Channel.{Channel};
ghost use Rattle.lc_frame.specs.Begun.{BeginsSend};

use crate::channel::Channel;
use crate::kind::Kind;
use crate::scan::{number_at, send_channel};
use crate::version::Version;

/// A Send whose tag and length are there, with any part of its body, or nothing of it.
#[derive(Clone, Copy, Debug)]
pub struct BegunSend {
    pub channel: Channel,
    /// The length of its message, in bytes.
    pub len: usize,
}

/// The Send that is begun at the front of the bytes, which are those of frames of a version, behind
/// any greeting. `None` where none is, or where its length is not there yet or out of range.
#[inline]
pub fn begun_send(version: Version, bytes: &[u8]) -> Option<BegunSend>
    ensures some { IfSome result (λ b. BeginsSend version b.channel b.len bytes.now) }
    ensures none { IfNone result ((c : Channel) (len : ℕ) → ¬ BeginsSend version c len bytes.now) }
{
    let [tag, rest @ ..] = bytes else {
        return None;
    };
    let Some(channel) = send_channel(*tag) else {
        return None;
    };
    let width = Kind::Send.width(version);
    if rest.len() < width {
        return None;
    }
    let number = number_at(version, Kind::Send, rest.split_at(width).0);
    if !Kind::Send.allows(version, number) {
        return None;
    }
    Some(BegunSend {
        channel,
        len: number as usize,
    })
}
