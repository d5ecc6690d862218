//! `lcmux frames`: the frames of a stream, one a line.
ghost use Rattle.std.specs.Prelude.{◌≡◌, ◌<◌, ◌≤◌, ◌+◌, [], ◌∷◌, ◌++◌, OnOk, IfOk, IfSome, codes, length, take};
ghost use Rattle.std.specs.Io.KnownBytes.{Appends, Consumes, IsAtEnd};
ghost use Rattle.std.specs.Fmt.{decimal};
ghost use Rattle.hex.specs.Hex.{encode_lower};
ghost use Rattle.lc_frame.specs.Channel.{number_of};
ghost use Rattle.lc_frame.specs.FrameRef.{frame_of};
ghost use Rattle.lc_frame.specs.Stored.{nothing_stored, IsUndecided};
ghost use Rattle.lc_cli.specs.Lines.{frame_line, valued_line};
ghost use Rattle.lc_cli.specs.Listed.{IsStream, Lists, ListsOn};

use crate::fault::{Culprit, Fault, Status};
use crate::input::{MAX_INPUT, PIECE};
use crate::output::{buffered, write_decimal, write_hex_line};
use crate::words::{ABSOLVE, FINISH, ISSUE, LIMIT_RECEIVING, LIMIT_SENDING, PLEAD, SEND};
use lc_frame::{Channel, FrameFault, FrameRef, StreamDecoder};
use std::alloc::{AllocError, Global};
use std::io;
use std::io::{Read, Write};

/// Prints the frames of the stream that the input holds, of either version, to `out`, up to the
/// first fault, whose line goes to `err`, and answers the number of the status. One frame and one
/// piece of the input are held at a time, and each frame's line is written out before a read that may
/// wait.
pub fn frames<R: Read, W: Write, E: Write>(
    alloc: Global,
    input: &mut R,
    out: &mut W,
    err: &mut E,
) -> u8
    ensures { result ≡ 0 → IfSome (R.remaining input.old) IsStream }
{
    match print_frames(alloc, input, out) {
        Ok(()) => Status::Done.code(),
        Err(fault) => fault.report(err),
    }
}

/// Writes the frames of a stream that is at hand, as `frames` does, up to the first fault.
pub fn list_frames<W: Write>(alloc: Global, bytes: &[u8], out: &mut W) -> Result<(), Fault>
    ensures { OnOk result (Lists bytes.now (W.contents out.old) (W.contents out.new)) }
{
    let mut listing = Listing::new(alloc)?;
    listing.take(bytes, out)?;
    listing.end()
}

fn print_frames<R: Read, W: Write>(alloc: Global, input: &mut R, out: &mut W) -> Result<(), Fault>
    ensures { OnOk result (IfSome (R.remaining input.old) IsStream) }
{
    let mut buffered = buffered(alloc, out)?;
    // The frames before a fault are printed, so a failed write is met first.
    let printed = match list(alloc, input, &mut buffered) {
        Err(Fault::WriteFailed) => Err(Fault::WriteFailed),
        Err(Fault::BrokenPipe) => Err(Fault::BrokenPipe),
        read => buffered.flush().map_err(Fault::of_write).and(read),
    };
    // A writer that is dropped would try once more to write what a failed write left.
    let _ = buffered.into_parts();
    printed
}

fn list<R: Read, W: Write>(alloc: Global, input: &mut R, out: &mut W) -> Result<(), Fault>
    ensures { OnOk result (IfSome (R.remaining input.old) IsStream) }
{
    let mut listing = Listing::new(alloc)?;
    listing.read(input, out)?;
    listing.end()
}

// The next bytes of the input, none at its end.
fn read_piece<R: Read>(input: &mut R, piece: &mut [u8]) -> Result<usize, Fault>
    ensures bound { IfOk result (λ n. n ≤ length piece.new) }
    ensures bytes { IfOk result (λ n. Consumes (R.remaining input.old) (R.remaining input.new) (take n piece.new)) }
    ensures end { IfOk result (λ n. n ≡ 0 → 0 < length piece.old → IsAtEnd (R.remaining input.new)) }
{
    input.read(piece).or(Err(Fault::ReadFailed))
}

/// Writes the frame's line, with its line feed. Takes no memory.
pub fn write_frame<W: Write>(frame: &FrameRef<'_>, out: &mut W) -> io::Result<()>
    ensures { OnOk result (Appends (W.contents out.old) (W.contents out.new) (frame_line (frame_of frame.now))) }
{
    let channel = frame.channel();
    let (word, value) = match frame {
        FrameRef::Send { body, .. } => return write_sent(channel, body, out),
        FrameRef::Issue { amount, .. } => (ISSUE, u64::from(*amount)),
        FrameRef::Absolve { amount, .. } => (ABSOLVE, u64::from(*amount)),
        FrameRef::Plead { target, .. } => (PLEAD, u64::from(*target)),
        FrameRef::LimitSending { bound, .. } => (LIMIT_SENDING, *bound),
        FrameRef::LimitReceiving { bound, .. } => (LIMIT_RECEIVING, *bound),
        FrameRef::Finish { .. } => return write_finished(channel, out),
    };
    write_valued(word, channel, value, out)
}

fn print_frame<W: Write>(frame: &FrameRef<'_>, out: &mut W) -> Result<(), Fault>
    ensures { OnOk result (Appends (W.contents out.old) (W.contents out.new) (frame_line (frame_of frame.now))) }
{
    write_frame(frame, out).map_err(Fault::of_write)
}

fn write_sent<W: Write>(channel: Channel, body: &[u8], out: &mut W) -> io::Result<()>
    ensures { OnOk result (Appends (W.contents out.old) (W.contents out.new)
        (codes "send " ++ (decimal (number_of channel) ++ (32 ∷ (encode_lower body.now ++ (10 ∷ [])))))) }
{
    write_head(SEND, channel, out)?;
    out.write_all(b" ")?;
    write_hex_line(body, out)
}

fn write_finished<W: Write>(channel: Channel, out: &mut W) -> io::Result<()>
    ensures { OnOk result (Appends (W.contents out.old) (W.contents out.new)
        (codes "finish " ++ (decimal (number_of channel) ++ (10 ∷ [])))) }
{
    write_head(FINISH, channel, out)?;
    out.write_all(b"\n")
}

// Writes the line of a frame with a number.
fn write_valued<W: Write>(word: &[u8], channel: Channel, value: u64, out: &mut W) -> io::Result<()>
    ensures { OnOk result (Appends (W.contents out.old) (W.contents out.new)
        (valued_line word.now channel value)) }
{
    write_head(word, channel, out)?;
    out.write_all(b" ")?;
    write_decimal(value, out)?;
    out.write_all(b"\n")
}

// Writes the word of a frame and the number of its channel.
fn write_head<W: Write>(word: &[u8], channel: Channel, out: &mut W) -> io::Result<()>
    ensures { OnOk result (Appends (W.contents out.old) (W.contents out.new)
        (word.now ++ (32 ∷ decimal (number_of channel)))) }
{
    out.write_all(word)?;
    out.write_all(b" ")?;
    write_decimal(u64::from(channel.number()), out)
}

// How far a stream has been read.
#[derive(Drop)]
struct Listing {
    decoder: StreamDecoder,
    // The bytes that the decoder took.
    position: usize,
}

impl Listing {
    fn new(alloc: Global) -> Result<Listing, AllocError>
        ensures start { IfOk result (λ listing. listing.position ≡ 0) }
        ensures nothing { IfOk result (λ listing. listing.decoder ≡ nothing_stored) }
        ensures open { IfOk result (λ listing. IsUndecided listing.decoder) }
    {
        Ok(Listing {
            decoder: StreamDecoder::new(alloc)?,
            position: 0,
        })
    }

    // Reads to the end of the input or to a fault, and prints each frame that comes to stand. A
    // read may wait, so what was printed is written out before each.
    fn read<R: Read, W: Write>(&mut self, input: &mut R, out: &mut W) -> Result<(), Fault>
        requires start { self.old.position ≤ MAX_INPUT }
        requires open { IsUndecided self.old.decoder }
        ensures open { OnOk result (IsUndecided self.new.decoder) }
        ensures lists { OnOk result (IfSome (R.remaining input.old) (λ bytes. ListsOn self.old.decoder bytes self.new.decoder (W.contents out.old) (W.contents out.new))) }
    {
        let _stored = self.decoder.stored();
        let mut piece = [0u8; PIECE];
        loop {
            out.flush().map_err(Fault::of_write)?;
            let count = read_piece(input, &mut piece)?;
            if count == 0 {
                return Ok(());
            }
            self.take(&piece[..count], out)?;
        }
    }

    // Takes the next piece of the input, as far as that is not too long, and prints each frame that comes
    // to stand.
    fn take<W: Write>(&mut self, piece: &[u8], out: &mut W) -> Result<(), Fault>
        requires start { self.old.position ≤ MAX_INPUT }
        requires open { IsUndecided self.old.decoder }
        ensures position { OnOk result (self.new.position ≡ self.old.position + length piece.now) }
        ensures within { OnOk result (self.new.position ≤ MAX_INPUT) }
        ensures open { OnOk result (IsUndecided self.new.decoder) }
        ensures lists { OnOk result (ListsOn self.old.decoder piece.now self.new.decoder (W.contents out.old) (W.contents out.new)) }
    {
        let within = piece.len().min(MAX_INPUT - self.position);
        self.feed(&piece[..within], out)?;
        if within < piece.len() {
            return Err(Fault::InputTooLong);
        }
        Ok(())
    }

    // What it means that the input ends here.
    fn end(&self) -> Result<(), Fault>
        requires { IsUndecided self.now.decoder }
        ensures { OnOk result (self.now.decoder.bytes ≡ []) }
    {
        match self.decoder.end() {
            Ok(()) => Ok(()),
            Err(fault) => Err(self.fault(fault)),
        }
    }

    // Feeds the piece to the decoder, and prints each frame that comes to stand.
    fn feed<W: Write>(&mut self, piece: &[u8], out: &mut W) -> Result<(), Fault>
        requires within { self.old.position + length piece.now ≤ MAX_INPUT }
        requires open { IsUndecided self.old.decoder }
        ensures all { OnOk result (self.new.position ≡ self.old.position + length piece.now) }
        ensures open { OnOk result (IsUndecided self.new.decoder) }
        ensures lists { OnOk result (ListsOn self.old.decoder piece.now self.new.decoder (W.contents out.old) (W.contents out.new)) }
    {
        let _stored = self.decoder.stored();
        let mut rest = piece;
        while !rest.is_empty() {
            let taken = self.step(rest, out)?;
            rest = rest.split_at(taken).1;
        }
        Ok(())
    }

    // Feeds the piece up to the end of a frame, prints the frame, and answers how many bytes that
    // took.
    fn step<W: Write>(&mut self, piece: &[u8], out: &mut W) -> Result<usize, Fault>
        requires within { self.old.position + length piece.now ≤ MAX_INPUT }
        requires open { IsUndecided self.old.decoder }
        ensures count { IfOk result (λ n. n ≤ length piece.now) }
        ensures progress { IfOk result (λ n. 0 < length piece.now → 0 < n) }
        ensures position { IfOk result (λ n. self.new.position ≡ self.old.position + n) }
        ensures lists { IfOk result (λ n. ListsOn self.old.decoder (take n piece.now) self.new.decoder (W.contents out.old) (W.contents out.new)) }
        ensures open { OnOk result (IsUndecided self.new.decoder) }
    {
        let _stored = self.decoder.stored();
        let taken = self.decoder.feed(piece);
        self.position += taken;
        if let Some(fault) = self.decoder.fault() {
            return Err(self.fault(fault));
        }
        if let Some(frame) = self.decoder.frame() {
            print_frame(&frame, out)?;
        }
        self.decoder.clear();
        Ok(taken)
    }

    // The fault in the frame at hand, or in the greeting, whose bytes are held.
    fn fault(&self, fault: FrameFault) -> Fault {
        Fault::BadFrame {
            number: fault.number(),
            offset: self.position.saturating_sub(self.decoder.stored()),
            culprit: self.culprit(),
        }
    }

    // What is at fault. Of a bad tag that is the byte that was taken last.
    fn culprit(&self) -> Culprit {
        if let Some(number) = self.decoder.out_of_range() {
            return Culprit::Number(number);
        }
        match (self.decoder.fault(), self.decoder.bytes()) {
            (Some(_), [.., byte]) => Culprit::Byte(*byte),
            _ => Culprit::Unnamed,
        }
    }
}
