//! The pump that reads.
ghost use Rattle.std.specs.Prelude.{◌≡◌, ◌+◌, ◌≤◌, length, None, IfSome};
ghost use Rattle.lc_frame.specs.declared.frame_fault.FrameFault.TheVariants.{BadTag};
ghost use Rattle.lc_frame.specs.Stored.{HasFault};
ghost use Rattle.lc_driver.specs.Reading.{ReadsInto, CountsReads, CountsAll, EndsInput, end_of};
ghost use Rattle.lc_session.specs.Reading.{rings_of, Arrives, Violates, IsSameReading};
ghost use Rattle.lc_session.specs.Heard.{HearsMore};
ghost use Rattle.lc_peer.specs.Offending.{ShowsHead, last_byte};

use crate::reading_side::ReadingSide;
use lc_credit::CreditIn;
use lc_driver::{CountedRead, MOST_READ, ReadEnd, read_into};
use lc_frame::CHANNELS;
use lc_inbox::InboxIn;
use lc_peer::{FrameHead, RingIntake};
use std::marker::Model;
use std::sync::Wait;

/// Reads frames and lets each arrive at its channel's inbox or credit. One thread has it. It keeps no
/// message that is longer than its ring.
pub struct ReadPump {
    pub(crate) side: ReadingSide,
    intake: RingIntake,
}

// One call, wherever one is dropped.
impl Drop for ReadPump {
    fn drop(self) {
        let ReadPump { side: _, intake: _ } = self;
    }
}

impl Model for ReadPump {
    ghost use Rattle.std.specs.Prelude.{◌≡◌};
    ghost use Rattle.lc_session.specs.Reading.{Reading, rings_of};

    ghost Value = { Reading };

    ghost view = { λ p. record { side = p.side; intake = p.intake } };

    ghost invariant = { λ p. rings_of p.side ≡ p.intake.rings };
}

impl ReadPump {
    pub(crate) fn new(side: ReadingSide, intake: RingIntake) -> ReadPump
        requires { rings_of side ≡ intake.rings }
        ensures { result ≡ record { side = side; intake = intake } }
    {
        ReadPump { side, intake }
    }

    /// Reads up to `max_reads` times, at most 4,096 bytes each, and lets each whole frame arrive, as
    /// `lc_driver::read_in` does at a peer. When the run ends all ends are woken, and waits for
    /// guarantees and messages are over.
    ///
    /// It ends by its transport: `Session::stop` does not reach it while it waits in a read. What
    /// frees it is `shutdown(Read)` on a clone of its socket, or the other side's end of the stream.
    pub fn run<R: Wait, D: CountedRead>(
        &mut self,
        rt: &R,
        reader: &mut D,
        max_reads: u64,
    ) -> ReadEnd
        ensures given_up { IfSome self.old.intake.stop (λ stop. (result ≡ end_of stop) × (reader.new ≡ reader.old) × (self.new ≡ self.old)) }
        ensures reads { self.old.intake.stop ≡ None → ReadsInto Arrives Violates (D.remaining reader.old) (D.remaining reader.new) self.old.intake.held self.old.side self.new.intake self.new.side max_reads result }
        ensures at_end { EndsInput result (D.remaining reader.new) }
        ensures counts { CountsReads result (D.counts reader.old) (D.counts reader.new) }
        ensures calls { (D.counts reader.new).calls ≤ (D.counts reader.old).calls + max_reads }
        ensures spent { CountsAll result max_reads (D.counts reader.old) (D.counts reader.new) }
        ensures same { IsSameReading self.old.side self.new.side }
        ensures hears { HearsMore self.old self.new }
    {
        self.side.begin_run();
        let end = read_into(
            &mut self.side,
            rt,
            reader,
            &mut self.intake,
            &mut [0; MOST_READ],
            max_reads,
        );
        self.side.end_run();
        end
    }

    /// How many bytes of the stream came since the last whole frame, as [`RingIntake::begun`] counts
    /// them.
    pub fn begun(&self) -> usize
        ensures { result ≡ length self.now.intake.held.bytes }
    {
        self.intake.begun()
    }

    /// The head of the frame that broke the rules, after a violation, F2 or F3; `None` where neither a
    /// whole frame nor a number that is out of range is held.
    pub fn offending(&self) -> Option<FrameHead>
        ensures { ShowsHead result self.now.intake.held }
    {
        self.intake.offending()
    }

    /// The byte that is no tag, or that differs from a greeting, after `FrameFault::BadTag`.
    pub fn bad_byte(&self) -> Option<u8>
        ensures bad { HasFault BadTag self.now.intake.held → result ≡ last_byte self.now.intake.held }
        ensures none { ¬ HasFault BadTag self.now.intake.held → result ≡ None }
    {
        self.intake.bad_byte()
    }

    /// The reading sides of the credits and of the inboxes, when the session ends.
    pub(crate) fn into_parts(self) -> (CreditIn, [InboxIn; CHANNELS])
        ensures { self.side ≡ record { credits = result.0; inboxes = result.1 } }
    {
        let ReadPump { side, intake: _ } = self;
        side.into_parts()
    }
}
