//! Calls on receiving rings, a call and its answer on each line, with bytes in hexadecimal. `front`
//! shows the first message's length and its two slices, `take` has the bytes of its buffer and shows
//! them after the call, `show` formats the ring, `lengths` the lengths alone, and `turn` pushes a
//! message and takes it. `long` pushes a message of so many bytes; `fill` and `drain` push and pop
//! messages of one byte.
use super::{Subject, answers, same, text};
use lc_frame::MAX_BODY;
use lc_ring::{Full, NewFault, RecvRing};
use std::alloc::Global;
use std::process::Abort;
use std::test::Fail;

fn push(alloc: Global, ring: &mut RecvRing, digits: &str) -> Option<String> {
    let message = hex::decode(alloc, digits).ok()?;
    if message.is_empty() || message.len() > MAX_BODY {
        return None;
    }
    text(alloc, &ring.push(message.as_slice()))
}

fn push_long(alloc: Global, ring: &mut RecvRing, len: &str) -> Option<String> {
    let message = vec![in alloc; 0x5a_u8; len.parse::<usize>().ok()?].ok()?;
    if message.is_empty() || message.len() > MAX_BODY {
        return None;
    }
    text(alloc, &ring.push(message.as_slice()))
}

fn lengths(alloc: Global, ring: &RecvRing) -> Option<String> {
    let shown = text(alloc, ring)?;
    let (_, lengths) = shown.split_once("lengths: ")?;
    format!(in alloc; "{lengths}").ok()
}

fn front(alloc: Global, ring: &RecvRing) -> Option<String> {
    let len = ring.front_len();
    let Some((near, far)) = ring.front() else {
        return text(alloc, &len);
    };
    let near = hex::encode(alloc, near).ok()?;
    let far = hex::encode(alloc, far).ok()?;
    format!(in alloc; "{len:?} {near}|{far}").ok()
}

fn take(alloc: Global, ring: &mut RecvRing, digits: &str) -> Option<String> {
    let mut buffer = hex::decode(alloc, digits).ok()?;
    let taken = ring.take_into(&mut buffer);
    let buffer = hex::encode(alloc, buffer).ok()?;
    format!(in alloc; "{taken:?} [{buffer}]").ok()
}

fn turn(alloc: Global, ring: &mut RecvRing, digits: &str) -> Option<String> {
    push(alloc, ring, digits)?;
    let front = front(alloc, ring)?;
    let taken = take(alloc, ring, "eeeeeeeeeeeeeeee")?;
    format!(in alloc; "{front} {taken}").ok()
}

// Pushes the bytes 0, 1 and so on: the first that is refused, and why.
fn fill(ring: &mut RecvRing) -> Option<(u8, Full)> {
    for byte in 0..=u8::MAX {
        if let Err(full) = ring.push(&[byte]) {
            return Some((byte, full));
        }
    }
    None
}

// Whether this byte is the first message, which is popped then.
fn is_first(ring: &mut RecvRing, byte: u8) -> bool {
    ring.front() == Some((&[byte], &[])) && ring.pop() == Some(1)
}

// Pops the bytes 0, 1 and so on: the first that does not come.
fn drain(ring: &mut RecvRing) -> Option<u8> {
    for byte in 0..=u8::MAX {
        if !is_first(ring, byte) {
            return Some(byte);
        }
    }
    None
}

impl Subject for RecvRing {
    fn answer(&mut self, alloc: Global, call: &str) -> Option<String> {
        let (verb, word) = call.split_once(' ').unwrap_or((call, ""));
        match verb {
            "push" => push(alloc, self, word),
            "front" => front(alloc, self),
            "take" => take(alloc, self, word),
            "turn" => turn(alloc, self, word),
            "pop" => text(alloc, &self.pop()),
            "fill" => text(alloc, &fill(self)),
            "drain" => text(alloc, &drain(self)),
            "show" => text(alloc, self),
            "lengths" => lengths(alloc, self),
            "long" => push_long(alloc, self, word),
            _ => text(alloc, &(self.bytes(), self.free(), self.capacity())),
        }
    }
}

const FOUR_BYTES: &str = "push 010203 => Ok(())
push 0405 => Err(Full { free: 1 })
push 04 => Ok(())
sizes => (4, 0, 4)
front => Some(3) 010203|
take eeeeeeeeeeeeeeee => Ok(Some(3)) [010203eeeeeeeeee]
front => Some(1) 04|
take eeeeeeeeeeeeeeee => Ok(Some(1)) [04eeeeeeeeeeeeee]
front => None
take => Ok(None) []
sizes => (0, 4, 4)
";

#[test]
fn messages_come_out_in_order(rt: HostRuntime) -> Result<(), Fail> {
    let mut ring = RecvRing::new(rt.alloc(), 4)?;
    answers(&rt, rt.alloc(), &mut ring, FOUR_BYTES);
    Ok(())
}

// A push, one that is refused, and a take.
fn called(ring: &mut RecvRing) -> Result<(), Fail> {
    ring.push(b"\x01\x02\x03")?;
    if ring.push(b"\x04\x05").is_ok() {
        return Err(Fail::new("a ring of more than four bytes"));
    }
    ring.take_into(&mut [0; 4])?;
    Ok(())
}

// A bad capacity is named before memory is asked for.
fn is_bad(rt: &impl Abort, alloc: Global) {
    let faults = (
        RecvRing::new(alloc, 0).err(),
        RecvRing::new(alloc, u32::MAX).err(),
    );
    let bad = Some(NewFault::BadCapacity);
    assert_eq!(rt; faults, (bad, bad));
}

// Every request for memory can be refused here in turn: after the ring's the last is the test's
// own.
#[test]
fn a_ring_of_four_bytes(rt: HostRuntime) -> Result<(), Fail> {
    is_bad(&rt, rt.alloc());
    let mut ring = RecvRing::new(rt.alloc(), 4)?;
    called(&mut ring)?;
    let _: Vec<u8> = Vec::with_capacity(rt.alloc(), 1)?;
    Ok(())
}

const SHORT: &str = "push 68656c6c6f => Ok(())
take 07070707 => Err(BufferTooSmall { need: 5 }) [07070707]
front => Some(5) 68656c6c6f|
take eeeeeeeeeeeeeeee => Ok(Some(5)) [68656c6c6feeeeee]
";

#[test]
fn a_short_buffer_changes_nothing(rt: HostRuntime) -> Result<(), Fail> {
    let mut ring = RecvRing::new(rt.alloc(), 8)?;
    answers(&rt, rt.alloc(), &mut ring, SHORT);
    Ok(())
}

// The ring counts the bytes that are pushed, and shows in two slices a message that goes on behind a
// seventh one, wherever its bytes lie.
const TURNS: &str = "turn 61 => Some(1) 61| Ok(Some(1)) [61eeeeeeeeeeeeee]
turn 6263 => Some(2) 6263| Ok(Some(2)) [6263eeeeeeeeeeee]
turn 636465 => Some(3) 636465| Ok(Some(3)) [636465eeeeeeeeee]
turn 64656667 => Some(4) 64|656667 Ok(Some(4)) [64656667eeeeeeee]
turn 6162636465 => Some(5) 61626364|65 Ok(Some(5)) [6162636465eeeeee]
turn 62 => Some(1) 62| Ok(Some(1)) [62eeeeeeeeeeeeee]
turn 6364 => Some(2) 6364| Ok(Some(2)) [6364eeeeeeeeeeee]
turn 646566 => Some(3) 646566| Ok(Some(3)) [646566eeeeeeeeee]
turn 61626364 => Some(4) 61626364| Ok(Some(4)) [61626364eeeeeeee]
turn 6263646566 => Some(5) 626364|6566 Ok(Some(5)) [6263646566eeeeee]
turn 63 => Some(1) 63| Ok(Some(1)) [63eeeeeeeeeeeeee]
turn 6465 => Some(2) 6465| Ok(Some(2)) [6465eeeeeeeeeeee]
turn 616263 => Some(3) 6162|63 Ok(Some(3)) [616263eeeeeeeeee]
turn 62636465 => Some(4) 62636465| Ok(Some(4)) [62636465eeeeeeee]
turn 6364656667 => Some(5) 6364|656667 Ok(Some(5)) [6364656667eeeeee]
turn 64 => Some(1) 64| Ok(Some(1)) [64eeeeeeeeeeeeee]
turn 6162 => Some(2) 6162| Ok(Some(2)) [6162eeeeeeeeeeee]
turn 626364 => Some(3) 62|6364 Ok(Some(3)) [626364eeeeeeeeee]
turn 63646566 => Some(4) 63646566| Ok(Some(4)) [63646566eeeeeeee]
turn 6465666768 => Some(5) 64|65666768 Ok(Some(5)) [6465666768eeeeee]
turn 61 => Some(1) 61| Ok(Some(1)) [61eeeeeeeeeeeeee]
turn 6263 => Some(2) 6263| Ok(Some(2)) [6263eeeeeeeeeeee]
turn 636465 => Some(3) 636465| Ok(Some(3)) [636465eeeeeeeeee]
turn 64656667 => Some(4) 64656667| Ok(Some(4)) [64656667eeeeeeee]
turn 6162636465 => Some(5) 6162636465| Ok(Some(5)) [6162636465eeeeee]
turn 62 => Some(1) 62| Ok(Some(1)) [62eeeeeeeeeeeeee]
turn 6364 => Some(2) 63|64 Ok(Some(2)) [6364eeeeeeeeeeee]
turn 646566 => Some(3) 646566| Ok(Some(3)) [646566eeeeeeeeee]
turn 61626364 => Some(4) 616263|64 Ok(Some(4)) [61626364eeeeeeee]
turn 6263646566 => Some(5) 6263646566| Ok(Some(5)) [6263646566eeeeee]
turn 63 => Some(1) 63| Ok(Some(1)) [63eeeeeeeeeeeeee]
turn 6465 => Some(2) 6465| Ok(Some(2)) [6465eeeeeeeeeeee]
turn 616263 => Some(3) 616263| Ok(Some(3)) [616263eeeeeeeeee]
turn 62636465 => Some(4) 6263|6465 Ok(Some(4)) [62636465eeeeeeee]
turn 6364656667 => Some(5) 6364656667| Ok(Some(5)) [6364656667eeeeee]
turn 64 => Some(1) 64| Ok(Some(1)) [64eeeeeeeeeeeeee]
turn 6162 => Some(2) 6162| Ok(Some(2)) [6162eeeeeeeeeeee]
turn 626364 => Some(3) 626364| Ok(Some(3)) [626364eeeeeeeeee]
turn 63646566 => Some(4) 63|646566 Ok(Some(4)) [63646566eeeeeeee]
turn 6465666768 => Some(5) 64656667|68 Ok(Some(5)) [6465666768eeeeee]
";

#[test]
fn messages_go_round_the_end(rt: HostRuntime) -> Result<(), Fail> {
    let mut ring = RecvRing::new(rt.alloc(), 7)?;
    answers(&rt, rt.alloc(), &mut ring, TURNS);
    Ok(())
}

// The fifth byte that is pushed is the first of the third message, which is shown in two slices.
const SHOWN: &str = "show => RecvRing { bytes: [], lengths: [] }
push 010203 => Ok(())
push 04 => Ok(())
show => RecvRing { bytes: [1, 2, 3, 4], lengths: [3, 1] }
pop => Some(3)
push 050607 => Ok(())
show => RecvRing { bytes: [4, 5, 6, 7], lengths: [1, 3] }
push 08 => Ok(())
front => Some(1) 04|
pop => Some(1)
front => Some(3) 05|0607
show => RecvRing { bytes: [5, 6, 7, 8], lengths: [3, 1] }
";

#[test]
fn a_ring_shows_what_waits(rt: HostRuntime) -> Result<(), Fail> {
    let mut ring = RecvRing::new(rt.alloc(), 5)?;
    answers(&rt, rt.alloc(), &mut ring, SHOWN);
    Ok(())
}

const ONES: &str = "fill => Some((200, Full { free: 0 }))
push 00 => Err(Full { free: 0 })
drain => Some(200)
pop => None
front => None
";

#[test]
fn a_full_ring_of_messages_of_one_byte(rt: HostRuntime) -> Result<(), Fail> {
    let mut ring = RecvRing::new(rt.alloc(), 200)?;
    answers(&rt, rt.alloc(), &mut ring, ONES);
    Ok(())
}

// Messages around 256 bytes, from which on a length takes four bytes, and the longest that fits. The
// ring goes on behind a full lap.
const LENGTHS: &str = "long 255 => Ok(())
long 256 => Ok(())
long 1 => Ok(())
long 257 => Ok(())
long 1231 => Ok(())
lengths => [255, 256, 1, 257, 1231] }
long 1 => Err(Full { free: 0 })
pop => Some(255)
long 254 => Ok(())
pop => Some(256)
long 257 => Ok(())
lengths => [1, 257, 1231, 254, 257] }
pop => Some(1)
pop => Some(257)
pop => Some(1231)
pop => Some(254)
pop => Some(257)
pop => None
lengths => [] }
long 2000 => Ok(())
pop => Some(2000)
";

#[test]
fn lengths_come_out_in_order(rt: HostRuntime) -> Result<(), Fail> {
    let mut ring = RecvRing::new(rt.alloc(), 2_000)?;
    answers(&rt, rt.alloc(), &mut ring, LENGTHS);
    Ok(())
}

// Capacities, and what there is of a ring: what a push of the longest message answers, how long the
// slices of the first are then, what a take answers, and whether it takes the same.
const CAPACITIES: &str = "0 => BadCapacity
1 => (Err(Full { free: 1 }), None, Ok(None), false)
1048575 => (Err(Full { free: 1048575 }), None, Ok(None), false)
1048576 => (Ok(()), Some((1048576, 0)), Ok(Some(1048576)), true)
16777216 => (Ok(()), Some((1048576, 0)), Ok(Some(1048576)), true)
16777217 => BadCapacity
4294967295 => BadCapacity
";

fn longest(alloc: Global, ring: &mut RecvRing) -> Option<String> {
    let mut bytes = vec![in alloc; 0x5a_u8; MAX_BODY].ok()?;
    let pushed = ring.push(bytes.as_slice());
    bytes.fill(0);
    let lengths = ring.front().map(|(near, far)| (near.len(), far.len()));
    let taken = ring.take_into(&mut bytes);
    let is_same = bytes.iter().all(|byte| *byte == 0x5a);
    text(alloc, &(pushed, lengths, taken, is_same))
}

#[derive(Drop)]
struct Capacities;

impl Subject for Capacities {
    fn answer(&mut self, alloc: Global, capacity: &str) -> Option<String> {
        match RecvRing::new(alloc, capacity.parse::<u32>().ok()?) {
            Ok(mut ring) => longest(alloc, &mut ring),
            Err(fault) => text(alloc, &fault),
        }
    }
}

#[test]
fn a_ring_has_1_to_2_to_the_24_bytes(rt: HostRuntime) {
    answers(&rt, rt.alloc(), &mut Capacities, CAPACITIES);
}

#[test]
fn errors_have_texts(rt: HostRuntime) {
    let full = Full { free: 16_777_216 };
    let (bad, memory) = (NewFault::BadCapacity, NewFault::OutOfMemory);
    let found = format!(in rt.alloc(); "{full}, {bad}, {memory}").ok();
    let wanted =
        "the ring has room for 16777216 bytes, the capacity is not 1 to 2^24, out of memory";
    same(&rt, "errors", found, wanted);
}
