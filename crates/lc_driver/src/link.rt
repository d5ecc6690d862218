//! A peer with its two streams.
ghost use Rattle.std.specs.Prelude.{◌≡◌, ◌+◌, ◌≤◌, ◌↔◌, [], length, false, None, IfOk, OnOk, IfSome};
ghost use Rattle.std.specs.Result.{result_err};
ghost use Rattle.lc_frame.specs.declared.frame_fault.FrameFault.TheVariants.{BadTag};
ghost use Rattle.lc_frame.specs.Kind.{max_frame};
ghost use Rattle.lc_frame.specs.Stored.{nothing_stored, HasFault};
ghost use Rattle.lc_peer.specs.Config.{IsNewAnswer, new_peer};
ghost use Rattle.lc_peer.specs.Offending.{ShowsHead, last_byte};
ghost use Rattle.lc_peer.specs.RingIntake.{IsKept};
ghost use Rattle.lc_driver.specs.Outgo.{new_outgo};
ghost use Rattle.lc_driver.specs.Writing.{Writes, CountsWrites, written_in};
ghost use Rattle.lc_driver.specs.Reading.{max_read, Reads, CountsReads, CountsAll, EndsInput, end_of};

use crate::counted::{CountedRead, CountedWrite};
use crate::outgo::Outgo;
use crate::reading::{MOST_READ, ReadEnd, read_by};
use crate::writing::{WriteFault, write_out};
use lc_peer::{Config, FrameHead, Peer, PeerFault, RingIntake, Stop};
use std::alloc::Global;
use std::fmt;
use std::fmt::{Debug, Formatter};

/// A peer with its outgoing and its incoming stream as one value. The peer's own calls are made on
/// `peer`; the invariants keep that what goes out is written in the peer's version, and that of what
/// comes no message longer than its ring is kept.
pub struct Link {
    pub peer: Peer,
    outgo: Outgo,
    intake: RingIntake,
    // What a read gave, until it is delivered.
    memory: Vec<u8>,
    ghost one_version: { outgo.version ≡ peer.version },
    ghost own_rings: { peer.capacities ≡ intake.rings },
    ghost whole_memory: { length memory.items ≡ max_read },
}

// One call, wherever a link is dropped.
impl Drop for Link {
    fn drop(self) {
        let Link {
            peer: _,
            outgo: _,
            intake: _,
            memory: _,
        } = self;
    }
}

impl Debug for Link {
    fn fmt<W: fmt::Write>(&self, f: &mut Formatter<W>) -> fmt::Result {
        f.debug_struct("Link")
            .field("peer", &self.peer)
            .field("outgo", &self.outgo)
            .field("intake", &self.intake)
            .finish_non_exhaustive()
    }
}

impl Link {
    /// A peer on which nothing has happened, at the start of both streams. Faults come as those of
    /// `Peer::new`; no other call but `Peer::send` asks for memory.
    pub fn new(alloc: Global, config: Config) -> Result<Link, PeerFault>
        ensures answer { IsNewAnswer config (result_err result) }
        ensures peer { IfOk result (λ link. link.peer ≡ new_peer config) }
        ensures outgo { IfOk result (λ link. link.outgo ≡ new_outgo config.version) }
        ensures intake { IfOk result (λ link. link.intake ≡ record { held = nothing_stored; kept = 0; stop = None; rings = config.capacities }) }
    {
        let peer = Peer::new(alloc, config)?;
        let Ok(outgo) = Outgo::new(alloc, config.version) else {
            return Err(PeerFault::OutOfMemory);
        };
        let Ok(intake) = RingIntake::new(alloc, config.capacities) else {
            return Err(PeerFault::OutOfMemory);
        };
        let Ok(memory) = vec![in alloc; 0u8; MOST_READ] else {
            return Err(PeerFault::OutOfMemory);
        };
        Ok(Link {
            peer,
            outgo,
            intake,
            memory,
        })
    }

    /// How many bytes are left of the greeting, or of a frame that was begun.
    pub fn pending(&self) -> usize
        ensures value { result ≡ length self.now.outgo.pending }
        ensures most { result ≤ max_frame self.now.peer.version }
    {
        self.outgo.pending()
    }

    /// Whether there is anything to write: the greeting, the rest of a frame that was begun, or a
    /// frame that waits.
    pub fn wants_write(&self) -> bool
        ensures { (result ≡ false) ↔ ((self.now.outgo.pending ≡ []) × (self.now.peer.waiting ≡ [])) }
    {
        self.outgo.pending() > 0 || self.peer.waiting() > 0
    }

    /// Writes what is pending and all frames that wait, as [`write_out`](crate::write_out) does.
    pub fn write_out<W: CountedWrite>(&mut self, writer: &mut W) -> Result<u64, WriteFault>
        ensures writes { Writes self.old.peer.version (W.contents writer.old) (W.contents writer.new) self.old.outgo.pending self.old.peer self.new.outgo.pending self.new.peer (written_in result) }
        ensures all { OnOk result ((self.new.outgo.pending ≡ []) × (self.new.peer.waiting ≡ [])) }
        ensures none { self.old.outgo.pending ≡ [] → self.old.peer.waiting ≡ [] → writer.new ≡ writer.old }
        ensures counts { CountsWrites result (W.counts writer.old) (W.counts writer.new) }
        ensures intake { self.new.intake ≡ self.old.intake }
    {
        write_out(&mut self.peer, &mut self.outgo, writer)
    }

    /// Reads up to `max_reads` times, each time up to 4,096 bytes, and lets each whole frame arrive, as
    /// [`read_in`](crate::read_in) does.
    pub fn read_in<R: CountedRead>(&mut self, reader: &mut R, max_reads: u64) -> ReadEnd
        ensures given_up { IfSome self.old.intake.stop (λ stop. (result ≡ end_of stop) × (self.new.peer ≡ self.old.peer) × (reader.new ≡ reader.old) × (self.new.intake ≡ self.old.intake)) }
        ensures reads { self.old.intake.stop ≡ None → Reads (R.remaining reader.old) (R.remaining reader.new) self.old.intake.held self.old.peer self.new.intake self.new.peer max_reads result }
        ensures at_end { EndsInput result (R.remaining reader.new) }
        ensures counts { CountsReads result (R.counts reader.old) (R.counts reader.new) }
        ensures calls { (R.counts reader.new).calls ≤ (R.counts reader.old).calls + max_reads }
        ensures spent { CountsAll result max_reads (R.counts reader.old) (R.counts reader.new) }
        ensures outgo { self.new.outgo ≡ self.old.outgo }
    {
        let (peer, intake) = (&mut self.peer, &mut self.intake);
        read_by(peer, reader, intake, &mut self.memory, max_reads)
    }

    /// How many bytes of the incoming stream are kept, which are no whole frame yet: never more than
    /// the greatest of the peer's rings has, and the 9 bytes of the longest tag and number.
    pub fn kept(&self) -> usize
        ensures value { result ≡ self.now.intake.kept }
        ensures little { IsKept self.now.intake }
    {
        self.intake.kept()
    }

    /// Why the incoming stream was given up, `None` while it goes on.
    pub fn stop(&self) -> Option<Stop>
        ensures { result ≡ self.now.intake.stop }
    {
        self.intake.stop()
    }

    /// How many bytes of the incoming stream came since the last whole frame, as
    /// [`RingIntake::begun`] counts them.
    pub fn begun(&self) -> usize
        ensures { result ≡ length self.now.intake.held.bytes }
    {
        self.intake.begun()
    }

    /// The head of the frame that broke the rules, after a violation, F2 or F3; `None` where neither a
    /// whole frame nor a number that is out of range is held. What a frame might have carried
    /// [`Peer::allowed`] answers.
    pub fn offending(&self) -> Option<FrameHead>
        ensures { ShowsHead result self.now.intake.held }
    {
        self.intake.offending()
    }

    /// The byte that is no tag, or that differs from a greeting, after `FrameFault::BadTag`.
    pub fn bad_byte(&self) -> Option<u8>
        ensures bad { HasFault BadTag self.now.intake.held → result ≡ last_byte self.now.intake.held }
        ensures none { ¬ HasFault BadTag self.now.intake.held → result ≡ None }
    {
        self.intake.bad_byte()
    }
}
