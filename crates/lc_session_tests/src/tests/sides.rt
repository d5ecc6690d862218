//! New sessions, and their ends and pumps, each to be lent to a thread.
ghost use Rattle.std.specs.Prelude.{IfOk};
ghost use Rattle.lc_session.specs.Parts.{state_of};
ghost use Rattle.lc_session.specs.Report.{AreOfOneSession};

use lc_frame::{CHANNELS, Version};
use lc_peer::{Config, PeerFault};
use lc_session::{Parts, ReadPump, RecvEnd, SendEnd, Session, WritePump};
use std::alloc::Global;

/// The ends of a session.
pub struct Ends {
    pub sending: [SendEnd; CHANNELS],
    pub receiving: [RecvEnd; CHANNELS],
}

// One call, wherever ends are dropped; and so below.
impl Drop for Ends {
    fn drop(self) {
        let Ends {
            sending: _,
            receiving: _,
        } = self;
    }
}

/// The pumps of a session.
pub struct Pumps {
    pub reading: ReadPump,
    pub writing: WritePump,
}

impl Drop for Pumps {
    fn drop(self) {
        let Pumps {
            reading: _,
            writing: _,
        } = self;
    }
}

/// A session, and by what it can be stopped.
pub struct Side {
    pub session: Session,
    pub ends: Ends,
    pub pumps: Pumps,
}

impl Drop for Side {
    fn drop(self) {
        let Side {
            session: _,
            ends: _,
            pumps: _,
        } = self;
    }
}

impl Side {
    /// All that it has.
    pub fn apart(self) -> (Session, Ends, Pumps) {
        let Side {
            session,
            ends,
            pumps,
        } = self;
        (session, ends, pumps)
    }
}

/// A session that writes in a version, with rings of so many bytes, and so many slots.
pub fn session(alloc: Global, version: Version, ring: u32, slots: u32) -> Result<Parts, PeerFault>
    ensures { IfOk result (λ parts. AreOfOneSession (state_of parts)) }
{
    let config = Config {
        version,
        capacities: [ring; CHANNELS],
        slots,
    };
    Session::new(alloc, config)
}

fn taken_apart(parts: Parts) -> Side {
    let Parts {
        session,
        send_ends,
        recv_ends,
        read_pump,
        write_pump,
    } = parts;
    let ends = Ends {
        sending: send_ends,
        receiving: recv_ends,
    };
    let pumps = Pumps {
        reading: read_pump,
        writing: write_pump,
    };
    Side {
        session,
        ends,
        pumps,
    }
}

/// The same, of which each thread is lent what it needs.
pub fn new_side_as(alloc: Global, version: Version, ring: u32, slots: u32) -> Option<Side> {
    Some(taken_apart(session(alloc, version, ring, slots).ok()?))
}

/// One of version One.
pub fn new_side(alloc: Global, ring: u32, slots: u32) -> Option<Side> {
    new_side_as(alloc, Version::One, ring, slots)
}
