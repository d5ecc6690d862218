//! A receiving ring: a message in, and out again.
use crate::figures::{Figure, Turns};
use crate::plan::Plan;
use lc_frame::MAX_BODY;
use lc_ring::RecvRing;
use std::alloc::Global;
use std::io;

/// The bytes of the ring.
const CAPACITY: u32 = 65_536;

/// The messages that are measured: the figure's name, and the length in bytes.
const MESSAGES: [(&str, usize); 3] = [("ring.16", 16), ("ring.1k", 1_024), ("ring.60k", 61_440)];

// A ring, a message for it, and a buffer of the same length.
#[derive(Drop)]
struct Passage {
    ring: RecvRing,
    body: Vec<u8>,
    buffer: Vec<u8>,
}

impl Passage {
    fn new(alloc: Global, len: usize) -> io::Result<Passage> {
        let body = vec![in alloc; 0x5a_u8; len]?;
        let buffer = vec![in alloc; 0u8; len]?;
        match RecvRing::new(alloc, CAPACITY) {
            Ok(ring) => Ok(Passage { ring, body, buffer }),
            Err(_) => Err(io::Error::other("no ring was made")),
        }
    }
}

impl Turns for Passage {
    fn run(&mut self, turns: u64, sum: &mut u64) -> io::Result<()> {
        pass(&mut self.ring, &self.body, &mut self.buffer, turns, sum);
        Ok(())
    }
}

#[inline(never)]
fn pass(ring: &mut RecvRing, body: &[u8], buffer: &mut [u8], turns: u64, sum: &mut u64) {
    if body.is_empty() || body.len() > MAX_BODY {
        return;
    }
    for _ in 0..turns {
        let Ok(()) = ring.push(body) else {
            return;
        };
        if let Ok(Some(len)) = ring.take_into(buffer) {
            *sum = sum.wrapping_add(len as u64);
        }
    }
}

/// Takes the figures of a ring and each message.
pub fn measure_rings(rt: &HostRuntime, plan: &Plan) -> io::Result<()> {
    for (name, len) in &MESSAGES {
        let figure = Figure {
            name,
            things: "messages",
            count: 1,
            bytes: Some(*len),
        };
        figure.take(rt, plan, &mut Passage::new(rt.alloc(), *len)?)?;
    }
    Ok(())
}
