//! Writing what waits at a peer.
ghost use Rattle.std.specs.Prelude.{◌≡◌, ℕ, ◌+◌, ◌<◌, ◌≤◌, ◌^◌, [], ◌++◌, length, take, drop, OnOk, IfOk};
ghost use Rattle.std.specs.List.{flat_map};
ghost use Rattle.std.specs.Io.KnownBytes.{Appends};
ghost use Rattle.lc_frame.specs.Encoding.{encoding};
ghost use Rattle.lc_frame.specs.Kind.{max_frame};
ghost use Rattle.lc_driver.specs.Writing.{Writes, CountsWrites, written_in, fault_written, fault_after, IsAhead, LetsGo, text};

use crate::counted::CountedWrite;
use crate::outgo::Outgo;
use lc_peer::Peer;
use thiserror::Error;

/// Why not all was written, and how many bytes were.
#[derive(Clone, Copy, Debug, PartialEq, Eq, Error)]
pub enum WriteFault {
    /// A write failed.
    #[error("a write failed after {written} bytes")]
    Failed { written: u64 },
    /// A write took nothing.
    #[error("a write took nothing after {written} bytes")]
    Zero { written: u64 },
}

impl WriteFault {
    // The same fault, where so many bytes were written before.
    fn after(self, before: u64) -> WriteFault
        requires { before + fault_written self < 2 ^ 64 }
        ensures { result ≡ fault_after self before }
    {
        match self {
            WriteFault::Failed { written } => WriteFault::Failed {
                written: before + written,
            },
            WriteFault::Zero { written } => WriteFault::Zero {
                written: before + written,
            },
        }
    }
}

// How many bytes were written.
fn written_of(wrote: &Result<u64, WriteFault>) -> u64
    ensures { result ≡ written_in wrote.now }
{
    match wrote {
        Ok(written) | Err(WriteFault::Failed { written }) | Err(WriteFault::Zero { written }) =>
            *written,
    }
}

// Encodes frames that wait after what is pending, as long as a whole one has room.
fn join_waiting(peer: &Peer, outgo: &mut Outgo)
    requires { outgo.old.version ≡ peer.now.version }
    ensures version { outgo.new.version ≡ outgo.old.version }
    ensures ahead { IsAhead outgo.old.version (length outgo.old.pending) outgo.new.pending peer.now.waiting }
    ensures begun { take (length outgo.old.pending) outgo.new.pending ≡ outgo.old.pending }
    ensures none { outgo.new.pending ≡ [] → peer.now.waiting ≡ [] }
{
    'frames: for place in 0..peer.waiting() {
        match peer.waiting_frame(place) {
            Some(frame) => {
                if !outgo.append(frame) {
                    return;
                }
            }
            None => unreachable!(),
        }
    }
}

// The writer took so many bytes: they are no longer pending, and the frames whose first byte is
// among them leave the peer. Answers how many bytes are left of the frame that was begun last.
fn note_taken(peer: &mut Peer, outgo: &mut Outgo, begun: usize, taken: usize) -> usize
    requires within { taken ≤ length outgo.old.pending }
    requires version { outgo.old.version ≡ peer.old.version }
    requires small { length outgo.old.pending ≤ max_frame outgo.old.version }
    requires ahead { IsAhead outgo.old.version begun outgo.old.pending peer.old.waiting }
    ensures advanced { outgo.new.pending ≡ drop taken outgo.old.pending }
    ensures version { outgo.new.version ≡ outgo.old.version }
    ensures ahead { IsAhead outgo.old.version result outgo.new.pending peer.new.waiting }
    ensures gone { LetsGo outgo.old.version outgo.old.pending begun taken (taken + result) peer.old peer.new }
{
    let version = outgo.version();
    outgo.advance(taken);
    let mut end = begun;
    'frames: while end < taken {
        match peer.next_out() {
            Some(frame) => end += frame.encoded_len(version),
            None => unreachable!(),
        }
    }
    end - taken
}

/// Writes these bytes, by as many writes as it takes. `Ok` carries how many they are; after a fault
/// the first `written` of them were written. It doesn't flush, and tries no failed write again.
pub fn write_all<W: CountedWrite>(writer: &mut W, bytes: &[u8]) -> Result<u64, WriteFault>
    ensures grown { Appends (W.contents writer.old) (W.contents writer.new) (take (written_in result) bytes.now) }
    ensures within { written_in result ≤ length bytes.now }
    ensures all { IfOk result (λ n. n ≡ length bytes.now) }
    ensures none { bytes.now ≡ [] → writer.new ≡ writer.old }
    ensures counts { CountsWrites result (W.counts writer.old) (W.counts writer.new) }
    ensures calls { (W.counts writer.new).calls ≤ (W.counts writer.old).calls + written_in result + 1 }
{
    let mut done = 0;
    'writes: while done < bytes.len() {
        let written = done as u64;
        match writer.write_counted(bytes.split_at(done).1) {
            Ok(0) => return Err(WriteFault::Zero { written }),
            Ok(taken) => done += taken,
            Err(_) => return Err(WriteFault::Failed { written }),
        }
    }
    Ok(done as u64)
}

// Writes all that is in Outgo: the rest of the greeting or of the frame that was begun, as long as
// is said, and after it frames that wait.
fn write_joined<W: CountedWrite>(
    peer: &mut Peer,
    outgo: &mut Outgo,
    writer: &mut W,
    rest: usize,
) -> Result<u64, WriteFault>
    requires version { outgo.old.version ≡ peer.old.version }
    requires ahead { IsAhead outgo.old.version rest outgo.old.pending peer.old.waiting }
    ensures writes { Writes outgo.old.version (W.contents writer.old) (W.contents writer.new) (take rest outgo.old.pending) peer.old outgo.new.pending peer.new (written_in result) }
    ensures version { outgo.new.version ≡ outgo.old.version }
    ensures all { IfOk result (λ n. (outgo.new.pending ≡ []) × (n ≡ length outgo.old.pending)) }
    ensures counts { CountsWrites result (W.counts writer.old) (W.counts writer.new) }
{
    // What is pending fits a frame.
    let _pending = outgo.pending();
    let result = write_all(writer, outgo.bytes());
    let left = note_taken(peer, outgo, rest, written_of(&result) as usize);
    outgo.cut_back(left);
    result
}

/// Writes the rest of the greeting or of the frame that was begun, and then all frames that wait,
/// several in one write as far as they fit the longest frame. `Ok` carries the number of bytes that
/// were written.
///
/// Outgo has the peer's version: a struct that holds both says so in a ghost field, which every
/// call here keeps. A frame leaves the peer when the writer takes its first byte. After a fault what
/// is left of that frame is pending in Outgo, frames that were not begun wait in the peer, and a
/// further call goes on with the next byte. It doesn't flush, and tries no failed write again.
pub fn write_out<W: CountedWrite>(
    peer: &mut Peer,
    outgo: &mut Outgo,
    writer: &mut W,
) -> Result<u64, WriteFault>
    requires { outgo.old.version ≡ peer.old.version }
    ensures writes { Writes outgo.old.version (W.contents writer.old) (W.contents writer.new) outgo.old.pending peer.old outgo.new.pending peer.new (written_in result) }
    ensures version { outgo.new.version ≡ outgo.old.version }
    ensures all { OnOk result ((outgo.new.pending ≡ []) × (peer.new.waiting ≡ [])) }
    ensures none { outgo.old.pending ≡ [] → peer.old.waiting ≡ [] → writer.new ≡ writer.old }
    ensures counts { CountsWrites result (W.counts writer.old) (W.counts writer.new) }
{
    // All that there is to write fits the count.
    let _pending = outgo.pending();
    let _waiting = peer.waiting();
    let mut written = 0;
    'batches: loop {
        let rest = outgo.pending();
        join_waiting(peer, outgo);
        if outgo.pending() == 0 {
            return Ok(written);
        }
        match write_joined(peer, outgo, writer, rest) {
            Ok(n) => written += n,
            Err(fault) => return Err(fault.after(written)),
        }
    }
}
