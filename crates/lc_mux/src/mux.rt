//! A session: its send scheduler with its pending control frames and both streams, and how it ends.
ghost use Rattle.std.specs.Prelude.{◌≡◌, None, Some, IfOk, OnErr};
ghost use Rattle.std.specs.Result.{result_err};
ghost use Rattle.lc_lines.specs.Scheduler.{IsSchedulerAnswer};
ghost use Rattle.lc_owed.specs.Owed.{pending_on};
ghost use Rattle.lc_mux.specs.Mux.{new_mux};
ghost use Rattle.lc_mux.specs.Flushing.{DeliversAndFlushes};
ghost use Rattle.lc_mux.specs.Ends.{end_of_stop, input_over};

mod calls;
mod controls;
mod ending;
mod taking;
mod writing;

use crate::end::{End, end_of_stop};
use crate::flushing::flush_unless;
use crate::pending::Pending;
use lc_lines::Lines;
use lc_owed::Owed;
use lc_peer::{Config, Delivery, Peer, PeerFault, RingIntake};
use std::alloc::Global;
use std::marker::Model;

/// A session as one value: its send scheduler, its pending control frames, the intake of its inbound stream, and the
/// unwritten rest of a frame of its outbound stream, or of the greeting. Of the bytes that arrive no message longer than
/// its ring is kept.
pub struct Mux {
    lines: Lines,
    owed: Owed,
    intake: RingIntake,
    pending: Pending,
    closing: bool,
    input_ended: bool,
    end: Option<End>,
}

// One call, wherever it is dropped.
impl Drop for Mux {
    fn drop(self) {
        let Mux {
            lines: _,
            owed: _,
            intake: _,
            pending: _,
            closing: _,
            input_ended: _,
            end: _,
        } = self;
    }
}

impl Model for Mux {
    ghost use Rattle.lc_mux.specs.Mux.{MuxState, AreMuxFields};

    ghost Value = { MuxState };

    ghost view = { λ m. record { lines = m.lines; owed = m.owed; intake = m.intake; pending = m.pending; closing = m.closing; input_ended = m.input_ended; end = m.end } };

    ghost invariant = { λ m. AreMuxFields m.lines m.owed m.intake m.pending m.closing m.end };
}

impl Mux {
    /// A new session, on which nothing has happened. It issues all room at once and honours each plead at once, from the
    /// first [`Mux::write`] on, unless other policies are set before. Faults come as of [`Lines::new`].
    pub fn new(alloc: Global, config: Config) -> Result<Mux, PeerFault>
        ensures answer { IsSchedulerAnswer config (result_err result) }
        ensures value { IfOk result (λ m. m ≡ new_mux config) }
    {
        let lines = Lines::new(alloc, config)?;
        let Ok(intake) = RingIntake::new(alloc, config.capacities) else {
            return Err(PeerFault::OutOfMemory);
        };
        let Ok(pending) = Pending::new(alloc, config.version) else {
            return Err(PeerFault::OutOfMemory);
        };
        Ok(Mux {
            lines,
            owed: Owed::new(),
            intake,
            pending,
            closing: false,
            input_ended: false,
            end: None,
        })
    }

    /// The peer: its books, its messages and the frames that are queued.
    #[inline]
    pub fn peer(&self) -> &Peer
        ensures { result.now ≡ self.now.lines.scheduler.peer }
    {
        self.lines.peer()
    }

    /// What is held of the inbound stream, and where it broke the rules.
    #[inline]
    pub fn intake(&self) -> &RingIntake
        ensures { result.now ≡ self.now.intake }
    {
        &self.intake
    }

    /// The next bytes of the inbound stream arrive, then each call proceeds that can, and then what is due is put. A
    /// violation or a fault ends the session. Where the session is over, or its inbound stream has ended, no byte is taken,
    /// and nothing changes.
    pub fn deliver(&mut self, piece: &[u8]) -> Result<Delivery, End>
        ensures over { result_err result ≡ input_over self.old }
        ensures refused { OnErr result (self.new ≡ self.old) }
        ensures delivers { IfOk result (λ d. DeliversAndFlushes piece.now d self.old self.new) }
        ensures stop { IfOk result (λ d. self.new.intake.stop ≡ d.stop) }
        ensures end { IfOk result (λ d. self.new.end ≡ end_of_stop d.stop) }
        ensures rest { self.new ≡ record self.old { lines = self.new.lines; owed = self.new.owed; intake = self.new.intake; end = self.new.end } }
    {
        if let Some(end) = self.input_over() {
            return Err(end);
        }
        // Its contract says that every channel has its books.
        let _peer = self.lines.peer();
        let delivery = self.lines.deliver_through(&mut self.intake, piece);
        self.end = end_of_stop(delivery.stop);
        flush_unless(self.closing, &mut self.owed, &mut self.lines);
        Ok(delivery)
    }
}
