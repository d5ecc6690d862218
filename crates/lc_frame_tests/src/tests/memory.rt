//! Want of memory. Each request of these tests can be refused in turn; where a call is refused one, it is
//! made once more, and the test then fails by saying so.
use lc_frame::{Channel, FrameRef, StreamDecoder, Version};
use std::alloc::{AllocError, Global};
use std::process::Abort;
use std::test::Fail;

const CHANNEL: Channel = Channel::Data;

const SEND: FrameRef<'static> = FrameRef::Send {
    channel: CHANNEL,
    body: b"hi",
};

const ISSUE: FrameRef<'static> = FrameRef::Issue {
    channel: CHANNEL,
    amount: 5,
};

const LIMIT: FrameRef<'static> = FrameRef::LimitReceiving {
    channel: Channel::Reconciliation,
    bound: 10,
};

const FINISH: FrameRef<'static> = FrameRef::Finish { channel: CHANNEL };

// The frames behind a byte that stands before them.
const APPENDED: [(Version, FrameRef<'static>, &[u8]); 5] = [
    (Version::One, SEND, b"\xaa\x11\x00\x02hi"),
    (Version::One, ISSUE, b"\xaa\x21\x00\x00\x00\x05"),
    (
        Version::One,
        LIMIT,
        b"\xaa\x60\x00\x00\x00\x00\x00\x00\x00\x0a",
    ),
    (Version::Two, SEND, b"\xaa\x11\x00\x00\x00\x02hi"),
    (Version::Two, FINISH, b"\xaa\x71"),
];

// A vector of one byte, with no room for more.
fn full(alloc: Global) -> Result<Vec<u8>, AllocError> {
    let mut out = Vec::with_capacity(alloc, 1)?;
    out.push(0xaa)?;
    Ok(out)
}

// Whether the frame is appended at once. Where there is no memory for it, the vector keeps its byte, and
// the frame is appended then.
fn appends(
    rt: &impl Abort,
    out: &mut Vec<u8>,
    version: Version,
    frame: FrameRef<'_>,
    wanted: &[u8],
) -> bool {
    assert!(rt; frame.is_valid(version));
    let at_once = frame.encode_into(version, out).is_ok();
    if !at_once {
        assert!(rt; out.as_slice() == b"\xaa".as_slice());
        assert!(rt; frame.encode_into(version, out).is_ok());
    }
    assert!(rt; out.as_slice() == wanted);
    at_once
}

#[test]
fn a_vector_that_cannot_grow_keeps_its_bytes(rt: HostRuntime) -> Result<(), Fail> {
    for (version, frame, wanted) in &APPENDED {
        let mut out = full(rt.alloc())?;
        if !appends(&rt, &mut out, *version, *frame, wanted) {
            return Err("a vector kept its bytes")?;
        }
    }
    Ok(())
}

// Two frames, cut behind the first byte of the second, are fed to a decoder.
fn feeds(rt: &impl Abort, decoder: &mut StreamDecoder) {
    let taken = decoder.feed(b"\x11\x00\x02hi\x21");
    assert!(rt; taken == 5 && decoder.frame() == Some(SEND));
    decoder.clear();
    let taken = decoder.feed(b"\x21\x00\x00\x00\x05");
    assert!(rt; taken == 5 && decoder.frame() == Some(ISSUE));
}

// Whether there is memory for a copy of the frame, which is then the same frame.
fn copies(rt: &impl Abort, alloc: Global, frame: FrameRef<'_>) -> bool {
    let Ok(copy) = frame.to_frame(alloc) else {
        return false;
    };
    assert!(rt; copy.view() == frame);
    true
}

// The last request is the test's own.
#[test]
fn a_decoder_and_a_copy_of_a_message_ask_for_memory(rt: HostRuntime) -> Result<(), Fail> {
    let mut decoder = StreamDecoder::new(rt.alloc())?;
    feeds(&rt, &mut decoder);
    let first = copies(&rt, rt.alloc(), SEND);
    let second = copies(&rt, rt.alloc(), SEND);
    assert!(rt; copies(&rt, rt.alloc(), ISSUE) && (first || second));
    if !(first && second) {
        return Err("a message was not copied")?;
    }
    let _: Vec<u8> = Vec::with_capacity(rt.alloc(), 1)?;
    Ok(())
}
