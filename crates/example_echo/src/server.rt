//! The server: it sends each message back on the channel on which it arrived.
ghost use Rattle.std.specs.Prelude.{◌≡◌, length, IfOk, IfSome, IfNone, IsSome, OnErr};
ghost use Rattle.lc_frame.specs.declared.channel.Channel.TheVariants.{Data};
ghost use Rattle.lc_frame.specs.declared.frame.Frame.TheVariants.{Send};
ghost use Rattle.lc_ring.specs.Ring.{front};
ghost use Rattle.lc_peer.specs.Peer.{inbox};
ghost use Rattle.lc_peer.specs.Calls.{put, take_on};

use crate::side::{CHANNEL, Work, issue_again, run};
use anyhow::Error;
use lc_driver::Link;
use lc_peer::{Refusal, Take};
use std::alloc::Global;
use std::fmt;
use std::fmt::{Display, Formatter};
use std::net::TcpStream;

/// The echo of one session, and how much it has sent back.
#[derive(Drop)]
pub struct Echo {
    alloc: Global,
    messages: u64,
    bytes: u64,
}

// Sends the first message back and then removes it from the ring. Its length, or `None` where it stays in the
// ring since the client has no room for it, or where there is no message.
fn send_back(alloc: Global, link: &mut Link) -> Result<Option<u32>, Refusal>
    ensures waits { IfOk result (λ sent. IfSome sent (λ _. IsSome (front (inbox link.old.peer Data).ring))) }
    ensures echo { IfOk result (λ sent. IfSome sent (λ len. IfSome (front (inbox link.old.peer Data).ring) (λ body. (len ≡ length body) × (link.new.peer ≡ take_on (put link.old.peer (Send Data body)) Data)))) }
    ensures none { IfOk result (λ sent. IfNone sent (link.new.peer ≡ link.old.peer)) }
    ensures refused { OnErr result (link.new.peer ≡ link.old.peer) }
{
    let Some((first, second)) = link.peer.front(CHANNEL) else {
        return Ok(None);
    };
    let mut body = Vec::new(alloc);
    body.extend_from_slice(first).or(Err(Refusal::OutOfMemory))?;
    body.extend_from_slice(second)
        .or(Err(Refusal::OutOfMemory))?;
    match link.peer.send(CHANNEL, &body) {
        Ok(()) => {}
        Err(Refusal::NoGuarantee { .. } | Refusal::QueueFull) => return Ok(None),
        Err(refusal) => return Err(refusal),
    }
    match link.peer.pop(CHANNEL) {
        Take::Took(len) => Ok(Some(len as u32)),
        Take::Empty | Take::Ended => unreachable!(),
    }
}

impl Display for Echo {
    fn fmt<W: fmt::Write>(&self, f: &mut Formatter<W>) -> fmt::Result {
        write!(f, "echoed {} messages, {} bytes", self.messages, self.bytes)
    }
}

impl Work for Echo {
    fn step(&mut self, link: &mut Link) -> Result<bool, Error> {
        // An echo takes two slots: one for the message, and one for the credit for the room that it leaves.
        'echoes: for _ in 0..link.peer.slots_left() / 2 {
            let Some(len) = send_back(self.alloc, link)? else {
                break 'echoes;
            };
            issue_again(link, len)?;
            self.messages = self.messages.saturating_add(1);
            self.bytes = self.bytes.saturating_add(u64::from(len));
        }
        Ok(link.peer.ready_on(CHANNEL).ended)
    }
}

/// Echoes the messages of one client until it has sent its last one.
pub fn serve(alloc: Global, socket: &TcpStream) -> Result<Echo, Error> {
    let mut echo = Echo {
        alloc,
        messages: 0,
        bytes: 0,
    };
    run(alloc, socket, &mut echo)?;
    Ok(echo)
}
