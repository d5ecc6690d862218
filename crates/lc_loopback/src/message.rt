//! The messages that are sent.
ghost use Rattle.std.specs.Prelude.{◌≡◌, ◌+◌, ◌-◌, ◌≤◌, ◌<◌, IfOk, length, take, drop, replicate, vec_len};
ghost use Rattle.lc_frame.specs.Channel.{number_of};
ghost use Rattle.lc_loopback.specs.Plan.{IsPlan, message};

use crate::exchange::Exchange;
use crate::plan::Plan;
use lc_frame::Channel;
use lc_loopback_report::LoopFault;
use std::alloc::Global;

/// So many bytes.
pub(crate) fn bytes(alloc: Global, byte: u8, len: u32) -> Result<Vec<u8>, LoopFault>
    ensures { IfOk result (λ v. v.items ≡ replicate len byte) }
{
    match vec![in alloc; byte; len as usize] {
        Ok(bytes) => Ok(bytes),
        Err(_) => Err(LoopFault::OutOfMemory),
    }
}

/// The messages of a channel, one after another in one buffer, of which only the number changes and
/// how much of it is the message.
#[derive(Drop)]
pub(crate) struct Message {
    plan: Plan,
    channel: Channel,
    buffer: Vec<u8>,
    len: usize,
    ghost lawful: { IsPlan plan },
    ghost long: { vec_len buffer ≡ plan.shortest + plan.lengths },
    ghost rest: { drop 4 buffer.items ≡ replicate (plan.shortest + plan.lengths - 4) (number_of channel) },
    ghost within: { len < vec_len buffer },
}

impl Message {
    /// No message as yet.
    pub(crate) fn new(exchange: Exchange, channel: Channel) -> Result<Message, LoopFault>
        ensures plan { IfOk result (λ m. m.plan ≡ exchange.plan) }
        ensures channel { IfOk result (λ m. m.channel ≡ channel) }
    {
        let Exchange { alloc, plan, .. } = exchange;
        let buffer = bytes(alloc, channel.number(), plan.shortest + plan.lengths)?;
        Ok(Message {
            plan,
            channel,
            buffer,
            len: 0,
        })
    }

    /// The message of this number.
    pub(crate) fn turn_to(&mut self, number: u32)
        ensures plan { self.new.plan ≡ self.old.plan }
        ensures channel { self.new.channel ≡ self.old.channel }
        ensures is { take self.new.len self.new.buffer.items ≡ message self.old.plan self.old.channel number }
    {
        let Plan {
            shortest,
            lengths,
            ..
        } = self.plan;
        let [a, b, c, d] = number.to_be_bytes();
        self.buffer[0] = a;
        self.buffer[1] = b;
        self.buffer[2] = c;
        self.buffer[3] = d;
        self.len = (shortest + number % lengths) as usize;
    }

    pub(crate) fn as_slice(&self) -> &[u8]
        ensures is { result.now ≡ take self.now.len self.now.buffer.items }
        ensures range { length result.now < 65536 }
    {
        &self.buffer[..self.len]
    }
}
