//! Bytes in and out of a peer on one thread, over any reader and writer.
//!
//! # Where bytes wait
//!
//! `Outgo` has one buffer of the longest frame's length, and the version of its stream. At first the
//! buffer holds the greeting. During a call of `write_out` it holds the unwritten rest of the greeting or
//! of a frame, followed by copies of the first queued frames. `note_taken` (in `writing.rt`) removes a
//! frame from the peer once a write took the frame's first byte, and a fault cuts the other copies off.
//! Between calls the buffer holds the rest of the greeting or of one frame at most.
//!
//! `Intake` is a `StreamDecoder` and the reason why the stream was given up, if it was. `read_in` reads
//! into 512 bytes of its own, and a `Link` into the 4,096 that it has, and passes them to `deliver_to`.
//! Inside a frame that lacks more than 512 bytes both read up to 4,096 directly behind what the decoder
//! has stored. `RingIntake` (both are an `IntakeFor` a sink) knows the rings of its sink, and stores no
//! message that is longer than its ring, since such a message breaks the rules whatever follows. A `Link`
//! has a `RingIntake`.
//!
//! Each of the three loops is written once, for a peer and for programs that have bytes, or a sink of
//! frames, of their own: `write_all` (in `writing.rt`) writes bytes until all are written, `deliver_to`
//! (in `lc_peer`) has the frames of a chunk arrive, and `read_into` (in `reading.rt`) reads and delivers.
//! The last two are generic over a `FrameSink`, at which frames arrive. A sink says by two relations what
//! an arriving frame leaves, and what a violating one leaves. A peer is a sink that needs no context; a
//! sink whose calls may wait gets its runtime as the context. `Peer::deliver` and `read_in` are one call
//! each of those loops.
#![tactic(auto)]

mod counted;
mod counts;
mod device;
mod link;
mod outgo;
mod reading;
mod uninterrupted;
mod writing;

pub use counted::{Counted, CountedRead, CountedWrite, Failures};
pub use counts::Counts;
pub use device::{ReadDevice, WriteDevice};
pub use lc_peer::Intake;
pub use link::Link;
pub use outgo::Outgo;
pub use reading::{MOST_READ, ReadEnd, read_in, read_into};
pub use uninterrupted::Uninterrupted;
pub use writing::{WriteFault, write_all, write_out};
