//! The bytes of the outbound stream.
ghost use Rattle.std.specs.Prelude.{◌≡◌, ◌<◌, ◌≤◌, ◌++◌, [], length, take, drop, is_some, true, false};
ghost use Rattle.lc_mux.specs.Mux.{text, text_of, IsBegun};
ghost use Rattle.lc_mux.specs.Ends.{over};
ghost use Rattle.lc_mux.specs.Flushing.{SettlesAndPuts};
ghost use Rattle.lc_mux.specs.Writing.{TakesFrame, Gives};
ghost use Rattle.lc_lines.specs.Scheduler.{write};
ghost use Rattle.lc_lines.specs.Lines.{with_scheduler};
ghost use Rattle.lc_lines.specs.Closing.{IsClosed};
ghost use Rattle.lc_owed.specs.Flush.{IsFlushed};
ghost use Rattle.lc_peer.specs.Calls.{next};

use super::Mux;
use crate::flushing::{flush_unless, put_unless};
use crate::pending::Pending;
use lc_frame::Frame;
use lc_lines::Lines;
use lc_owed::Owed;

// The first frame leaves the outbound queue, if there is one. Its slot lets what is due be put; where the session closes,
// it lets one more channel be finished.
fn take_frame(closing: bool, owed: &mut Owed, lines: &mut Lines) -> Option<Frame>
    ensures value { result ≡ next lines.old.scheduler.peer }
    ensures takes { TakesFrame closing owed.old lines.old owed.new lines.new }
    ensures flushed { closing ≡ false → IsFlushed owed.new lines.new.scheduler }
    ensures closed { closing ≡ true → IsClosed lines.new.scheduler }
{
    let frame = lines.next_out();
    if closing {
        lines.close();
    } else {
        owed.put_all(lines);
    }
    frame
}

// Of the message that left the outbound queue last so many bytes are unwritten.
fn note_written(closing: bool, owed: &mut Owed, lines: &mut Lines, left: usize)
    ensures writes { SettlesAndPuts closing owed.old (with_scheduler lines.old (write lines.old.scheduler left)) owed.new lines.new }
    ensures flushed { closing ≡ false → IsFlushed owed.new lines.new.scheduler }
    ensures closed { closing ≡ true → IsClosed lines.old.scheduler → IsClosed lines.new.scheduler }
{
    lines.note_written(left);
    put_unless(closing, owed, lines);
}

// Where nothing is left of a frame or of the greeting, the first frame that is queued is begun, if there is one.
fn begin_next(closing: bool, owed: &mut Owed, lines: &mut Lines, pending: &mut Pending)
    ensures gives { Gives closing [] owed.old lines.old pending.old owed.new lines.new pending.new }
    ensures begun { IsBegun lines.old.scheduler pending.old → IsBegun lines.new.scheduler pending.new }
    ensures flushed { closing ≡ false → IsFlushed owed.old lines.old.scheduler → IsFlushed owed.new lines.new.scheduler }
    ensures closed { closing ≡ true → IsClosed lines.old.scheduler → IsClosed lines.new.scheduler }
    ensures ready { pending.new ≡ [] → text_of lines.new pending.new ≡ [] }
{
    let peer = lines.peer();
    let version = peer.version();
    if pending.len() > 0 {
        return;
    }
    if peer.waiting() == 0 {
        return;
    }
    match take_frame(closing, owed, lines) {
        Some(frame) => pending.begin(version, &frame),
        None => unreachable!(),
    }
}

// What is left of the greeting or of the frame that was begun, which may be the next one, as far as there is room.
fn give_begun(
    closing: bool,
    owed: &mut Owed,
    lines: &mut Lines,
    pending: &mut Pending,
    out: &mut [u8],
) -> usize
    requires { 0 < length out.old }
    ensures count { result ≤ length out.old }
    ensures behind { drop result out.new ≡ drop result out.old }
    ensures gives { Gives closing (take result out.new) owed.old lines.old pending.old owed.new lines.new pending.new }
    ensures begun { IsBegun lines.old.scheduler pending.old → IsBegun lines.new.scheduler pending.new }
    ensures flushed { closing ≡ false → IsFlushed owed.old lines.old.scheduler → IsFlushed owed.new lines.new.scheduler }
    ensures closed { closing ≡ true → IsClosed lines.old.scheduler → IsClosed lines.new.scheduler }
    ensures none { result ≡ 0 → text_of lines.new pending.new ≡ [] }
{
    begin_next(closing, owed, lines, pending);
    let count = pending.give(out);
    if count == 0 {
        return 0;
    }
    note_written(closing, owed, lines, pending.len());
    count
}

// The next frame, whole, where nothing is left of one before it and it has room, else nothing. It is encoded where it
// goes, without a copy in between.
fn give_whole(
    closing: bool,
    owed: &mut Owed,
    lines: &mut Lines,
    pending: &Pending,
    out: &mut [u8],
) -> usize
    ensures count { result ≤ length out.old }
    ensures behind { drop result out.new ≡ drop result out.old }
    ensures gives { Gives closing (take result out.new) owed.old lines.old pending.now owed.new lines.new pending.now }
    ensures begun { IsBegun lines.old.scheduler pending.now → IsBegun lines.new.scheduler pending.now }
    ensures flushed { closing ≡ false → IsFlushed owed.old lines.old.scheduler → IsFlushed owed.new lines.new.scheduler }
    ensures closed { closing ≡ true → IsClosed lines.old.scheduler → IsClosed lines.new.scheduler }
{
    let peer = lines.peer();
    if pending.len() > 0 {
        return 0;
    }
    let count = match peer.waiting_frame(0) {
        Some(frame) => match frame.encode_to_slice(peer.version(), out) {
            Ok(count) => count,
            Err(_) => return 0,
        },
        None => return 0,
    };
    let _gone = take_frame(closing, owed, lines);
    note_written(closing, owed, lines, 0);
    count
}

// The next frame whole, or what is left of one and of the greeting, as far as there is room.
fn give_next(
    closing: bool,
    owed: &mut Owed,
    lines: &mut Lines,
    pending: &mut Pending,
    out: &mut [u8],
) -> usize
    requires { 0 < length out.old }
    ensures count { result ≤ length out.old }
    ensures behind { drop result out.new ≡ drop result out.old }
    ensures gives { Gives closing (take result out.new) owed.old lines.old pending.old owed.new lines.new pending.new }
    ensures begun { IsBegun lines.old.scheduler pending.old → IsBegun lines.new.scheduler pending.new }
    ensures flushed { closing ≡ false → IsFlushed owed.old lines.old.scheduler → IsFlushed owed.new lines.new.scheduler }
    ensures closed { closing ≡ true → IsClosed lines.old.scheduler → IsClosed lines.new.scheduler }
    ensures none { result ≡ 0 → text_of lines.new pending.new ≡ [] }
{
    let count = give_whole(closing, owed, lines, pending, out);
    if count > 0 {
        return count;
    }
    give_begun(closing, owed, lines, pending, out)
}

// As many bytes as there are and have room.
fn give(
    closing: bool,
    owed: &mut Owed,
    lines: &mut Lines,
    pending: &mut Pending,
    out: &mut [u8],
) -> usize
    ensures count { result ≤ length out.old }
    ensures behind { drop result out.new ≡ drop result out.old }
    ensures gives { Gives closing (take result out.new) owed.old lines.old pending.old owed.new lines.new pending.new }
    ensures begun { IsBegun lines.old.scheduler pending.old → IsBegun lines.new.scheduler pending.new }
    ensures flushed { closing ≡ false → IsFlushed owed.old lines.old.scheduler → IsFlushed owed.new lines.new.scheduler }
    ensures closed { closing ≡ true → IsClosed lines.old.scheduler → IsClosed lines.new.scheduler }
    ensures all { result < length out.old → text_of lines.new pending.new ≡ [] }
{
    let mut done = 0;
    'frames: while done < out.len() {
        let (_, room) = out.split_at_mut(done);
        let count = give_next(closing, owed, lines, pending, room);
        if count == 0 {
            return done;
        }
        done += count;
    }
    done
}

impl Mux {
    /// Writes the next bytes of the outbound stream to the front of a buffer, as many as there are and have room, once the
    /// policies made their calls and what is due was put. Behind each frame that leaves the outbound queue each call
    /// proceeds that can, and then what is due is put. The answer is how many. A message that is partly written counts as
    /// unwritten for the bound on queued bytes. Where the session is over nothing is written, and nothing changes.
    pub fn write(&mut self, out: &mut [u8]) -> usize
        ensures over { is_some (over self.old) ≡ true → (result ≡ 0) × (self.new ≡ self.old) }
        ensures count { result ≤ length out.old }
        ensures behind { drop result out.new ≡ drop result out.old }
        ensures gives { Gives self.old.closing (take result out.new) self.old.owed self.old.lines self.old.pending self.new.owed self.new.lines self.new.pending }
        ensures closed { self.new.closing ≡ true → IsClosed self.new.lines.scheduler }
        ensures unwritten { IsBegun self.new.lines.scheduler self.new.pending }
        ensures all { is_some (over self.old) ≡ false → result < length out.old → text self.new ≡ [] }
        ensures rest { self.new ≡ record self.old { lines = self.new.lines; owed = self.new.owed; pending = self.new.pending } }
    {
        if self.over().is_some() {
            return 0;
        }
        flush_unless(self.closing, &mut self.owed, &mut self.lines);
        give(
            self.closing,
            &mut self.owed,
            &mut self.lines,
            &mut self.pending,
            out,
        )
    }
}
