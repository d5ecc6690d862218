//! Reading what comes to a peer, or to another sink.
ghost use Rattle.std.specs.Prelude.{◌≡◌, ◌+◌, ◌<◌, ◌≤◌, length, All, None, IfSome};
ghost use Rattle.lc_peer.specs.Intake.{IntakeState, IntakeEnds};
ghost use Rattle.lc_driver.specs.Reading.{EndsHere, max_read, Reads, ReadsInto, CountsReads, CountsAll, EndsInput, end_of};

use crate::counted::CountedRead;
use lc_frame::{Fill, Filled, FrameFault};
use lc_peer::{FrameSink, Intake, IntakeFor, Peer, Stop, Violation};

/// The bytes that `read_in` asks for per read, but inside a frame that lacks more.
const READ_LEN: usize = 512;

/// The most bytes that are asked for per read.
pub const MOST_READ: usize = 4_096;

/// Why reading ended.
#[must_use]
#[derive(Clone, Copy, Debug, PartialEq, Eq)]
pub enum ReadEnd {
    /// The input ended after a whole frame, or before the first.
    Clean,
    /// The input ended inside a frame.
    Truncated,
    /// What follows the frames that arrived is no frame, however the input goes on. It is not
    /// `FrameFault::Truncated`, for which `Truncated` stands.
    Fault(FrameFault),
    /// The frame after those that arrived breaks the rules.
    Violated(Violation),
    /// A read failed.
    ReadFailed,
    /// As many reads were made as were allowed, and each gave bytes.
    TurnsSpent,
}

impl From<Stop> for ReadEnd {
    ghost from_gives = { λ stop end. end ≡ end_of stop };

    fn from(stop: Stop) -> ReadEnd {
        match stop {
            Stop::Fault(fault) => ReadEnd::Fault(fault),
            Stop::Violated(violation) => ReadEnd::Violated(violation),
        }
    }
}

// Memory is filled by a counted read.
struct ByReads;

impl<R: CountedRead> Fill<R> for ByReads {
    ghost use Rattle.lc_driver.specs.Reading.{ReadGives};

    ghost fills = { λ old answer memory new. ReadGives answer memory (R.remaining old) (R.remaining new) (R.counts old) (R.counts new) };

    #[inline]
    fn fill(&self, source: &mut R, memory: &mut [u8]) -> Option<usize>
        ensures bound { IfSome result (λ n. n ≤ length memory.new) }
        ensures bytes { All (λ b. b < 256) memory.new }
        ensures fills { ReadGives result memory.new (R.remaining source.old) (R.remaining source.new) (R.counts source.old) (R.counts source.new) }
    {
        match source.read_counted(memory) {
            Ok(count) => Some(count),
            Err(_) => None,
        }
    }
}

// What it means that the input ends, by what that means to an intake.
fn input_end(end: Option<Stop>) -> ReadEnd
    ensures { (intake : IntakeState) → intake.stop ≡ None → IntakeEnds end intake → EndsHere result intake.held }
{
    match end {
        None => ReadEnd::Clean,
        Some(_) => ReadEnd::Truncated,
    }
}

/// What `read_in` does, at any sink, by any intake that suits it, and through any memory of at most
/// [`MOST_READ`] bytes: the more it has, the fewer frames are cut.
pub fn read_into<C, S: FrameSink<C>, I: IntakeFor<C, S>, R: CountedRead>(
    sink: &mut S,
    context: &C,
    reader: &mut R,
    intake: &mut I,
    memory: &mut [u8],
    max_reads: u64,
) -> ReadEnd
    requires suits { I.suits (I.state intake.old).rings sink.old }
    requires some { 0 < length memory.old }
    requires most { length memory.old ≤ max_read }
    ensures given_up { IfSome (I.state intake.old).stop (λ stop. (result ≡ end_of stop) × (sink.new ≡ sink.old) × (reader.new ≡ reader.old) × (intake.new ≡ intake.old)) }
    ensures reads { (I.state intake.old).stop ≡ None → ReadsInto S.arrived S.violated (R.remaining reader.old) (R.remaining reader.new) (I.state intake.old).held sink.old (I.state intake.new) sink.new max_reads result }
    ensures at_end { EndsInput result (R.remaining reader.new) }
    ensures counts { CountsReads result (R.counts reader.old) (R.counts reader.new) }
    ensures calls { (R.counts reader.new).calls ≤ (R.counts reader.old).calls + max_reads }
    ensures spent { CountsAll result max_reads (R.counts reader.old) (R.counts reader.new) }
    ensures suits { I.suits (I.state intake.new).rings sink.new }
    ensures rings { (I.state intake.new).rings ≡ (I.state intake.old).rings }
{
    match intake.stop() {
        Some(stop) => return ReadEnd::from(stop),
        None => {}
    }
    // What was counted fits a count.
    let _calls = reader.calls();
    'reads: for _ in 0..max_reads {
        match intake.fill(&ByReads, reader) {
            Filled::Took(0) => return input_end(intake.end()),
            Filled::Took(_) => continue 'reads,
            Filled::Failed => return ReadEnd::ReadFailed,
            Filled::Few => {}
        }
        match reader.read_counted(memory) {
            Ok(0) => return input_end(intake.end()),
            Ok(n) => match intake.deliver(sink, context, memory.split_at(n).0).stop {
                Some(stop) => return ReadEnd::from(stop),
                None => {}
            },
            Err(_) => return ReadEnd::ReadFailed,
        }
    }
    ReadEnd::TurnsSpent
}

// What `read_in` does, by any intake that suits the peer, and through any memory.
pub(crate) fn read_by<I: IntakeFor<(), Peer>, R: CountedRead>(
    peer: &mut Peer,
    reader: &mut R,
    intake: &mut I,
    memory: &mut [u8],
    max_reads: u64,
) -> ReadEnd
    requires suits { I.suits (I.state intake.old).rings peer.old }
    requires some { 0 < length memory.old }
    requires most { length memory.old ≤ max_read }
    ensures given_up { IfSome (I.state intake.old).stop (λ stop. (result ≡ end_of stop) × (peer.new ≡ peer.old) × (reader.new ≡ reader.old) × (intake.new ≡ intake.old)) }
    ensures reads { (I.state intake.old).stop ≡ None → Reads (R.remaining reader.old) (R.remaining reader.new) (I.state intake.old).held peer.old (I.state intake.new) peer.new max_reads result }
    ensures version { peer.new.version ≡ peer.old.version }
    ensures at_end { EndsInput result (R.remaining reader.new) }
    ensures counts { CountsReads result (R.counts reader.old) (R.counts reader.new) }
    ensures calls { (R.counts reader.new).calls ≤ (R.counts reader.old).calls + max_reads }
    ensures spent { CountsAll result max_reads (R.counts reader.old) (R.counts reader.new) }
    ensures suits { I.suits (I.state intake.new).rings peer.new }
    ensures rings { (I.state intake.new).rings ≡ (I.state intake.old).rings }
{
    read_into(peer, &(), reader, intake, memory, max_reads)
}

/// Reads up to `max_reads` times, at most 4,096 bytes for each, and lets each whole frame arrive.
///
/// After `Fault` and `Violated` the stream is given up: the bytes that follow are lost, every further
/// call answers the same without a read, and the peer may still be taken from. After every other
/// answer a further call goes on with the next byte. A failed read is not tried again.
///
/// The intake keeps what came of a frame, up to 1 MiB of it, since another call may bring it to a
/// peer with larger rings. A [`Link`](crate::Link) keeps no message that is longer than its ring.
pub fn read_in<R: CountedRead>(
    peer: &mut Peer,
    reader: &mut R,
    intake: &mut Intake,
    max_reads: u64,
) -> ReadEnd
    ensures given_up { IfSome intake.old.stop (λ stop. (result ≡ end_of stop) × (peer.new ≡ peer.old) × (reader.new ≡ reader.old) × (intake.new ≡ intake.old)) }
    ensures reads { intake.old.stop ≡ None → Reads (R.remaining reader.old) (R.remaining reader.new) intake.old.held peer.old intake.new peer.new max_reads result }
    ensures version { peer.new.version ≡ peer.old.version }
    ensures at_end { EndsInput result (R.remaining reader.new) }
    ensures counts { CountsReads result (R.counts reader.old) (R.counts reader.new) }
    ensures calls { (R.counts reader.new).calls ≤ (R.counts reader.old).calls + max_reads }
    ensures spent { CountsAll result max_reads (R.counts reader.old) (R.counts reader.new) }
{
    read_by(peer, reader, intake, &mut [0; READ_LEN], max_reads)
}
