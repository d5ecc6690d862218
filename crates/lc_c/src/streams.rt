//! The two streams of a side.
ghost use Rattle.std.specs.Prelude.{◌≡◌, ◌<◌, ◌≤◌, ◌++◌, [], min, length, take, drop};
ghost use Rattle.lc_c.specs.Streams.{text, Begins, GivesOut};

use crate::c_peer::CPeer;

// Where nothing is left of a frame or of the greeting, the next frame is begun.
fn begin_next(side: &mut CPeer)
    ensures { Begins side.old side.new }
{
    if side.pending.len() > 0 {
        return;
    }
    let version = side.peer.version();
    match side.peer.next_out() {
        Some(frame) => side.pending.begin(version, &frame),
        None => {}
    }
}

// The next frame, whole, where nothing is left of one before it and it has room, else nothing. It is
// written where it goes, without a copy in the side.
fn give_whole(side: &mut CPeer, out: &mut [u8]) -> usize
    ensures count { result ≤ length out.old }
    ensures written { out.new ≡ take result (text side.old) ++ drop result out.old }
    ensures gives { GivesOut result side.old side.new }
    ensures none { result ≡ 0 → side.new ≡ side.old }
    ensures none_out { result ≡ 0 → out.new ≡ out.old }
{
    if side.pending.len() > 0 {
        return 0;
    }
    let version = side.peer.version();
    let count = match side.peer.waiting_frame(0) {
        Some(frame) => match frame.encode_to_slice(version, out) {
            Ok(count) => count,
            Err(_) => return 0,
        },
        None => return 0,
    };
    let _gone = side.peer.next_out();
    count
}

// What is left of the greeting or of the frame that was begun, which may be the next one, as far as
// there is room.
fn give_begun(side: &mut CPeer, out: &mut [u8]) -> usize
    requires { 0 < length out.old }
    ensures count { result ≤ length out.old }
    ensures written { out.new ≡ take result (text side.old) ++ drop result out.old }
    ensures gives { GivesOut result side.old side.new }
    ensures none { result ≡ 0 → text side.new ≡ [] }
{
    begin_next(side);
    side.pending.give(out)
}

// The next frame whole, or what is left of one and of the greeting, as far as there is room.
fn give_next(side: &mut CPeer, out: &mut [u8]) -> usize
    requires { 0 < length out.old }
    ensures count { result ≤ length out.old }
    ensures written { out.new ≡ take result (text side.old) ++ drop result out.old }
    ensures gives { GivesOut result side.old side.new }
    ensures none { result ≡ 0 → text side.new ≡ [] }
{
    let count = give_whole(side, out);
    if count > 0 {
        return count;
    }
    give_begun(side, out)
}

/// As many of the bytes that are to go out as there is room for.
pub(crate) fn give(side: &mut CPeer, out: &mut [u8]) -> usize
    ensures count { result ≡ min (length (text side.old)) (length out.old) }
    ensures written { out.new ≡ take result (text side.old) ++ drop result out.old }
    ensures gives { GivesOut result side.old side.new }
{
    let mut done = 0;
    'frames: while done < out.len() {
        let (_, room) = out.split_at_mut(done);
        let count = give_next(side, room);
        if count == 0 {
            return done;
        }
        done += count;
    }
    done
}

/// How many bytes are to go out.
pub(crate) fn count(side: &CPeer) -> usize
    ensures { result ≡ length (text side.now) }
{
    let version = side.peer.version();
    let mut count = side.pending.len();
    'frames: for place in 0..side.peer.waiting() {
        match side.peer.waiting_frame(place) {
            Some(frame) => count += frame.encoded_len(version),
            None => unreachable!(),
        }
    }
    count
}
