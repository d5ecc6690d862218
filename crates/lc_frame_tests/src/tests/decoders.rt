//! Streams that are fed in pieces.
use super::frames::{bytes_of, frame_in};
use super::{Subject, answers, same, text};
use lc_frame::{Channel, Decoded, FrameRef, StreamDecoder, Version};
use std::alloc::{AllocError, Global};
use std::test::Fail;

// Streams, each with its frames, how it ends, and its version.
const STREAMS: &str = " => Ok(()) None
11 00 02 68 69 21 00 00 00 05 60 00 00 00 00 00 00 00 0a => Send { channel: Data, body: [104, 105] }, Issue { channel: Data, amount: 5 }, LimitReceiving { channel: Reconciliation, bound: 10 }, Ok(()) Some(One)
11 00 02 61 62 11 00 => Send { channel: Data, body: [97, 98] }, Err(Truncated) Some(One)
36 00 00 00 03 46 00 00 00 03 50 00 00 00 00 00 00 00 03 => Absolve { channel: StaticToken, amount: 3 }, Plead { channel: StaticToken, target: 3 }, LimitSending { channel: Reconciliation, bound: 3 }, Ok(()) Some(One)
11 => Err(Truncated) Some(One)
11 00 02 68 => Err(Truncated) Some(One)
21 02 => Err(Truncated) Some(One)
11 00 00 => Err(ZeroLength) Some(One)
17 => Err(BadTag) Some(One)
77 => Err(BadTag) Some(One)
01 => Err(BadTag) Some(One)
70 => Err(BadTag) Some(One)
71 => Err(BadTag) Some(One)
21 00 00 00 05 76 => Issue { channel: Data, amount: 5 }, Err(BadTag) Some(One)
21 01 00 00 01 => Err(BadNumber) Some(One)
21 00 00 00 00 => Err(BadNumber) Some(One)
41 01 00 00 01 => Err(BadNumber) Some(One)
60 40 00 00 00 00 00 00 01 => Err(BadNumber) Some(One)
21 00 00 00 05 17 21 00 00 00 05 => Issue { channel: Data, amount: 5 }, Err(BadTag) Some(One)
11 00 01 61 11 00 00 11 00 01 61 => Send { channel: Data, body: [97] }, Err(ZeroLength) Some(One)
11 00 00 00 02 68 69 => Err(ZeroLength) Some(One)
11 00 01 61 4c 43 4d 02 => Send { channel: Data, body: [97] }, Err(BadTag) Some(One)
4c => Err(Truncated) None
4c 43 4d => Err(Truncated) None
4c 43 4d 02 => Ok(()) Some(Two)
4c 43 4d 03 => Err(BadTag) None
4c 44 => Err(BadTag) None
4c 43 02 => Err(BadTag) None
4c 43 4d 02 4c 43 4d 02 => Err(BadTag) Some(Two)
4c 43 4d 02 11 00 00 00 02 68 69 => Send { channel: Data, body: [104, 105] }, Ok(()) Some(Two)
4c 43 4d 02 11 00 00 00 00 => Err(ZeroLength) Some(Two)
4c 43 4d 02 11 00 10 00 01 => Err(BadNumber) Some(Two)
4c 43 4d 02 11 00 00 00 02 61 62 => Send { channel: Data, body: [97, 98] }, Ok(()) Some(Two)
4c 43 4d 02 51 00 00 00 00 00 00 00 01 11 00 00 00 02 61 62 => LimitSending { channel: Data, bound: 1 }, Send { channel: Data, body: [97, 98] }, Ok(()) Some(Two)
4c 43 4d 02 21 00 00 00 05 77 => Issue { channel: Data, amount: 5 }, Err(BadTag) Some(Two)
4c 43 4d 02 60 40 00 00 00 00 00 00 01 => Err(BadNumber) Some(Two)
4c 43 4d 02 71 => Finish { channel: Data }, Ok(()) Some(Two)
4c 43 4d 02 71 71 => Finish { channel: Data }, Finish { channel: Data }, Ok(()) Some(Two)
4c 43 4d 02 71 11 00 00 00 01 61 => Finish { channel: Data }, Send { channel: Data, body: [97] }, Ok(()) Some(Two)
4c 43 4d 02 21 00 00 00 05 76 11 00 => Issue { channel: Data, amount: 5 }, Finish { channel: StaticToken }, Err(Truncated) Some(Two)
4c 43 4d 02 70 77 => Finish { channel: Reconciliation }, Err(BadTag) Some(Two)
4c 43 4d 02 11 00 00 00 02 61 62 11 00 => Send { channel: Data, body: [97, 98] }, Err(Truncated) Some(Two)
";

// Writes a frame down, unless its owned form is another.
fn show(alloc: Global, frame: FrameRef<'_>, seen: &mut String) -> Option<()> {
    let owned = frame.to_frame(alloc).ok()?;
    if owned.view() != frame {
        return None;
    }
    write!(seen, "{frame:?}, ").ok()
}

// Feeds a piece, writes each of its frames down, and drops it.
fn drain(
    alloc: Global,
    decoder: &mut StreamDecoder,
    piece: &[u8],
    seen: &mut String,
) -> Option<()> {
    let mut rest = piece;
    for _ in 0..=piece.len() {
        let taken = decoder.feed(rest);
        rest = &rest[taken..];
        let Some(frame) = decoder.frame() else {
            break;
        };
        show(alloc, frame, seen)?;
        decoder.clear();
    }
    Some(())
}

// Decoders that are fed each stream in two pieces, of which the first has so many bytes.
#[derive(Drop)]
struct Cut(usize);

impl Subject for Cut {
    fn answer(&mut self, alloc: Global, digits: &str) -> Option<String> {
        let bytes = bytes_of(alloc, digits)?;
        let (first, second) = bytes.split_at(self.0.min(bytes.len()));
        let mut decoder = StreamDecoder::new(alloc).ok()?;
        let mut seen = String::new(alloc);
        drain(alloc, &mut decoder, first, &mut seen)?;
        drain(alloc, &mut decoder, second, &mut seen)?;
        write!(seen, "{:?} {:?}", decoder.end(), decoder.version()).ok()?;
        Some(seen)
    }
}

// The longest of the streams has 20 bytes.
#[test]
fn streams_are_read_however_they_are_cut(rt: HostRuntime) {
    for len in 0..21 {
        answers(&rt, rt.alloc(), &mut Cut(len), STREAMS);
    }
}

// Streams with frames of about as many bytes as are copied before they are known to be the frame's.
const LONGER: &str =
    "11 00 0c 61 62 63 64 65 66 67 68 69 6a 6b 6c 21 00 00 00 05 => Send { channel: Data, body: [97, 98, 99, 100, 101, 102, 103, 104, 105, 106, 107, 108] }, Issue { channel: Data, amount: 5 }, Ok(()) Some(One)
11 00 0d 61 62 63 64 65 66 67 68 69 6a 6b 6c 6d 17 => Send { channel: Data, body: [97, 98, 99, 100, 101, 102, 103, 104, 105, 106, 107, 108, 109] }, Err(BadTag) Some(One)
11 00 0e 61 62 63 64 65 66 67 68 69 6a 6b 6c 6d 6e 11 00 00 => Send { channel: Data, body: [97, 98, 99, 100, 101, 102, 103, 104, 105, 106, 107, 108, 109, 110] }, Err(ZeroLength) Some(One)
11 00 0f 61 62 63 64 65 66 67 68 69 6a 6b 6c 6d 6e 6f 11 00 02 70 => Send { channel: Data, body: [97, 98, 99, 100, 101, 102, 103, 104, 105, 106, 107, 108, 109, 110, 111] }, Err(Truncated) Some(One)
60 00 00 00 00 00 00 00 0a 11 00 01 61 21 00 00 00 05 60 40 00 00 00 00 00 00 01 => LimitReceiving { channel: Reconciliation, bound: 10 }, Send { channel: Data, body: [97] }, Issue { channel: Data, amount: 5 }, Err(BadNumber) Some(One)
4c 43 4d 02 11 00 00 00 0b 61 62 63 64 65 66 67 68 69 6a 6b 71 21 00 00 00 05 70 => Send { channel: Data, body: [97, 98, 99, 100, 101, 102, 103, 104, 105, 106, 107] }, Finish { channel: Data }, Issue { channel: Data, amount: 5 }, Finish { channel: Reconciliation }, Ok(()) Some(Two)
4c 43 4d 02 11 00 00 00 0c 61 62 63 64 65 66 67 68 69 6a 6b 6c 11 00 10 00 01 => Send { channel: Data, body: [97, 98, 99, 100, 101, 102, 103, 104, 105, 106, 107, 108] }, Err(BadNumber) Some(Two)
";

// The longest of these streams has so many bytes.
const LONGEST: usize = 27;

#[test]
fn longer_streams_are_read_however_they_are_cut(rt: HostRuntime) {
    for len in 0..LONGEST + 1 {
        answers(&rt, rt.alloc(), &mut Cut(len), LONGER);
    }
}

// Decoders that are fed each stream in pieces, of which each has so many bytes.
#[derive(Drop)]
struct Chunks(usize);

impl Subject for Chunks {
    fn answer(&mut self, alloc: Global, digits: &str) -> Option<String> {
        let bytes = bytes_of(alloc, digits)?;
        let mut decoder = StreamDecoder::new(alloc).ok()?;
        let mut seen = String::new(alloc);
        for piece in bytes.chunks(self.0.max(1)) {
            drain(alloc, &mut decoder, piece, &mut seen)?;
        }
        write!(seen, "{:?} {:?}", decoder.end(), decoder.version()).ok()?;
        Some(seen)
    }
}

#[test]
fn streams_are_read_in_pieces_of_each_size(rt: HostRuntime) {
    for len in 1..LONGEST + 1 {
        answers(&rt, rt.alloc(), &mut Chunks(len), STREAMS);
        answers(&rt, rt.alloc(), &mut Chunks(len), LONGER);
    }
}

// The same by the calls that spare a feed where they can: in pieces of so many bytes, of frames of at most
// so many.
#[derive(Drop)]
struct Spared {
    len: usize,
    most: usize,
}

// Takes bytes of which the last make more known. How many.
fn take_spared(
    alloc: Global,
    decoder: &mut StreamDecoder,
    most: usize,
    piece: &[u8],
    seen: &mut String,
) -> Option<usize> {
    let Some(version) = decoder.version() else {
        return Some(decoder.feed(piece));
    };
    if decoder.stored() > 0 {
        return Some(match decoder.feed_few(piece, most) {
            Some(used) => used,
            None => decoder.feed(piece),
        });
    }
    match decoder.decode_or_take(version, piece, most) {
        Some(Decoded::Whole { frame, used }) => {
            show(alloc, frame, seen)?;
            Some(used)
        }
        Some(Decoded::More) => Some(piece.len()),
        Some(Decoded::Fault(_)) => Some(decoder.feed(piece)),
        None => Some(decoder.feed(piece)),
    }
}

// Writes down the frames of a piece, which are decoded in it where nothing is held, and drops each.
fn drain_spared(
    alloc: Global,
    decoder: &mut StreamDecoder,
    most: usize,
    piece: &[u8],
    seen: &mut String,
) -> Option<()> {
    let mut rest = piece;
    for _ in 0..=piece.len() {
        if decoder.take_part(rest) {
            return Some(());
        }
        let used = take_spared(alloc, decoder, most, rest, seen)?;
        rest = rest.get(used..)?;
        if let Some(frame) = decoder.frame() {
            show(alloc, frame, seen)?;
            decoder.clear();
        }
    }
    Some(())
}

impl Subject for Spared {
    fn answer(&mut self, alloc: Global, digits: &str) -> Option<String> {
        let bytes = bytes_of(alloc, digits)?;
        let mut decoder = StreamDecoder::new(alloc).ok()?;
        let mut seen = String::new(alloc);
        for piece in bytes.chunks(self.len.max(1)) {
            drain_spared(alloc, &mut decoder, self.most, piece, &mut seen)?;
        }
        write!(seen, "{:?} {:?}", decoder.end(), decoder.version()).ok()?;
        Some(seen)
    }
}

#[test]
fn spared_feeds_read_the_same(rt: HostRuntime) {
    for len in 1..LONGEST + 1 {
        for most in [4, 9, usize::MAX] {
            answers(&rt, rt.alloc(), &mut Spared { len, most }, STREAMS);
            answers(&rt, rt.alloc(), &mut Spared { len, most }, LONGER);
        }
    }
}

// Calls of one decoder: it takes nothing while a frame stands, and nothing ever again after a fault.
const STOPS: &str = "feed 21 00 00 00 05 17 => 5
feed 17 => 0
fault => None
clear => ()
feed 17 => 1
fault => Some(BadTag)
feed 21 => 0
clear => ()
feed 21 => 0
fault => Some(BadTag)
";

impl Subject for StreamDecoder {
    fn answer(&mut self, alloc: Global, call: &str) -> Option<String> {
        let (verb, digits) = call.split_once(' ').unwrap_or((call, ""));
        match verb {
            "feed" => text(alloc, &self.feed(&bytes_of(alloc, digits)?)),
            "clear" => text(alloc, &self.clear()),
            _ => text(alloc, &self.fault()),
        }
    }
}

#[test]
fn what_stands_stops_the_feed(rt: HostRuntime) -> Result<(), Fail> {
    let mut decoder = StreamDecoder::new(rt.alloc())?;
    answers(&rt, rt.alloc(), &mut decoder, STOPS);
    Ok(())
}

// The bytes of the longest message of a version, behind its tag and its length.
fn longest(alloc: Global, version: Version) -> Result<Vec<u8>, AllocError> {
    let header = match version {
        Version::One => &b"\x11\xff\xff"[..],
        Version::Two => &b"\x11\x00\x10\x00\x00"[..],
    };
    let mut bytes = Vec::from_slice(alloc, header)?;
    for place in 0..version.max_body() {
        bytes.push((place % 251) as u8)?;
    }
    Ok(bytes)
}

// A decoder that was fed these bytes in pieces, behind a greeting where the version has one.
fn fed(alloc: Global, version: Version, bytes: &[u8]) -> Result<StreamDecoder, AllocError> {
    let mut decoder = StreamDecoder::new(alloc)?;
    decoder.feed(version.greeting());
    for piece in bytes.chunks(512) {
        decoder.feed(piece);
    }
    Ok(decoder)
}

fn message_of(version: Version, bytes: &[u8]) -> Option<FrameRef<'_>> {
    let start = bytes.len().checked_sub(version.max_body())?;
    Some(FrameRef::Send {
        channel: Channel::Data,
        body: bytes.get(start..)?,
    })
}

// What is written of the owned form of the decoder's frame.
fn encoded(alloc: Global, version: Version, decoder: &StreamDecoder) -> Option<Vec<u8>> {
    let frame = decoder.frame()?.to_frame(alloc).ok()?;
    if !frame.is_valid(version) {
        return None;
    }
    let mut out = Vec::new(alloc);
    frame.encode_into(version, &mut out).ok()?;
    Some(out)
}

// Whether the decoder's frame is this message, and is written with the same bytes.
fn compared(
    alloc: Global,
    version: Version,
    decoder: &StreamDecoder,
    bytes: &[u8],
) -> Option<String> {
    let out = encoded(alloc, version, decoder)?;
    let is_whole = decoder.frame() == message_of(version, bytes);
    let is_written = out.as_slice() == bytes;
    text(alloc, &(is_whole, is_written, out.len()))
}

#[test]
fn the_longest_frame_comes_in_pieces(rt: HostRuntime) -> Result<(), Fail> {
    for (version, wanted) in [
        (Version::One, "(true, true, 65538)"),
        (Version::Two, "(true, true, 1048581)"),
    ] {
        let bytes = longest(rt.alloc(), version)?;
        let decoder = fed(rt.alloc(), version, bytes.as_slice())?;
        let found = compared(rt.alloc(), version, &decoder, bytes.as_slice());
        same(&rt, "the longest frame", found, wanted);
    }
    Ok(())
}

// A decoder is written as what it holds, whatever it held before.
#[test]
fn a_decoder_shows_what_is_held(rt: HostRuntime) -> Result<(), Fail> {
    let mut decoder = StreamDecoder::new(rt.alloc())?;
    let _whole = decoder.feed(b"\x11\x00\x02hi");
    decoder.clear();
    let _open = decoder.feed(b"\x21\x00");
    let wanted = "StreamDecoder { version: Some(One), held: [33, 0] }";
    same(&rt, "a decoder", text(rt.alloc(), &decoder), wanted);
    Ok(())
}

// A buffer, to which each frame is appended.
const APPENDED: &str = "11 00 02 68 69 => [7, 17, 0, 2, 104, 105]
21 00 00 00 05 => [7, 17, 0, 2, 104, 105, 33, 0, 0, 0, 5]
";

#[derive(Drop)]
struct Buffer(Vec<u8>);

impl Subject for Buffer {
    fn answer(&mut self, alloc: Global, digits: &str) -> Option<String> {
        let bytes = bytes_of(alloc, digits)?;
        let frame = frame_in(Version::One, bytes.as_slice())?;
        if !frame.is_valid(Version::One) {
            return None;
        }
        frame.encode_into(Version::One, &mut self.0).ok()?;
        text(alloc, &self.0)
    }
}

#[test]
fn frames_are_appended(rt: HostRuntime) -> Result<(), Fail> {
    let mut buffer = Buffer(Vec::from_slice(rt.alloc(), &[7])?);
    answers(&rt, rt.alloc(), &mut buffer, APPENDED);
    Ok(())
}
