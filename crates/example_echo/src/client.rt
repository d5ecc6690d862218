//! The client: it sends its messages, and receives the echoes.

use crate::side::{CHANNEL, RING, Work, finish, issue_again, run};
use anyhow::{Context, Error};
use lc_driver::Link;
use lc_peer::{Refusal, Take};
use std::alloc::Global;
use std::net::TcpStream;
use std::str;

// The messages that are still to be sent, and the echoes that have arrived, one a line.
#[derive(Drop)]
struct Client<'a> {
    messages: &'a [String],
    echoes: String,
}

// Sends the messages that the server has room for, and returns those that are left.
fn send_more<'a>(link: &mut Link, messages: &'a [String]) -> Result<&'a [String], Refusal> {
    let mut left = messages;
    'messages: for _ in 0..link.peer.slots_left() {
        let [message, rest @ ..] = left else {
            break 'messages;
        };
        match link.peer.send(CHANNEL, message.as_bytes()) {
            Ok(()) => left = rest,
            Err(Refusal::NoGuarantee { .. }) => break 'messages,
            Err(refusal) => return Err(refusal),
        }
    }
    Ok(left)
}

impl Client<'_> {
    // Takes the echoes that have arrived, and issues credit for the room that they leave. It stops only where no
    // slot is free, so that a write follows: a server that has finished gets no credit, and an echo that stayed
    // in the ring behind its last frame would never be taken.
    fn take_echoes(&mut self, link: &mut Link) -> Result<(), Error> {
        let mut buffer = [0; RING as usize];
        'echoes: for _ in 0..u64::MAX {
            if link.peer.slots_left() == 0 {
                break 'echoes;
            }
            let Take::Took(len) = link.peer.take_into(CHANNEL, &mut buffer)? else {
                break 'echoes;
            };
            issue_again(link, len as u32)?;
            let echo = buffer.get(..len).context("an echo is longer than a ring")?;
            self.echoes.push_str(str::from_utf8(echo)?)?;
            self.echoes.push('\n')?;
        }
        Ok(())
    }
}

impl Work for Client<'_> {
    fn step(&mut self, link: &mut Link) -> Result<bool, Error> {
        self.take_echoes(link)?;
        self.messages = send_more(link, self.messages)?;
        if self.messages.is_empty() && link.peer.slots_left() > 0 {
            finish(link, CHANNEL)?;
        }
        Ok(link.peer.ready_on(CHANNEL).ended)
    }
}

/// Sends the messages, and returns their echoes, one a line.
pub fn ask(alloc: Global, socket: &TcpStream, messages: &[String]) -> Result<String, Error> {
    let mut work = Client {
        messages,
        echoes: String::new(alloc),
    };
    run(alloc, socket, &mut work)?;
    let Client { echoes, .. } = work;
    Ok(echoes)
}
