//! A peer with what it keeps of its two streams.
use crate::pending::Pending;
use lc_peer::{Peer, RingIntake};
use std::marker::Model;

/// A peer, what came of its stream and is no whole frame yet, with why that stream was given up, if
/// it was, how many bytes of it were taken, and what is left of the frame that was begun to go out, or
/// of the greeting. Of what came no message longer than its ring is kept.
#[derive(Drop)]
pub struct CPeer {
    pub peer: Peer,
    pub intake: RingIntake,
    // At `u64::MAX` the count stays.
    pub taken: u64,
    pub pending: Pending,
}

impl Model for CPeer {
    ghost use Rattle.std.specs.Prelude.{◌≡◌};
    ghost use Rattle.lc_c.specs.Side.{Side};

    ghost Value = { Side };

    ghost view = { λ side. record { peer = side.peer; intake = side.intake; taken = side.taken; pending = side.pending } };

    ghost invariant = { λ side. side.peer.capacities ≡ side.intake.rings };
}
