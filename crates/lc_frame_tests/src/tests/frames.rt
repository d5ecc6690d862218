//! Frames and their bytes, both ways, owned and borrowed.
use super::{Subject, answers, text};
use lc_frame::{Channel, Decoded, Frame, FrameRef, Version, decode};
use std::alloc::Global;

// The bytes of a frame, and what it is.
const FRAMES: &str =
    "11 00 02 68 69 => lane 1, Data, 5 bytes, Send { channel: Data, body: [104, 105] }
11 00 02 61 62 => lane 1, Data, 5 bytes, Send { channel: Data, body: [97, 98] }
11 00 01 61 => lane 1, Data, 4 bytes, Send { channel: Data, body: [97] }
10 00 03 00 ff 80 => lane 0, Reconciliation, 6 bytes, Send { channel: Reconciliation, body: [0, 255, 128] }
16 00 01 21 => lane 6, StaticToken, 4 bytes, Send { channel: StaticToken, body: [33] }
21 00 00 00 05 => lane 8, Data, 5 bytes, Issue { channel: Data, amount: 5 }
21 00 00 00 01 => lane 8, Data, 5 bytes, Issue { channel: Data, amount: 1 }
21 01 00 00 00 => lane 8, Data, 5 bytes, Issue { channel: Data, amount: 16777216 }
22 00 00 00 03 => lane 9, Overlap, 5 bytes, Issue { channel: Overlap, amount: 3 }
23 00 12 d6 87 => lane 10, Capability, 5 bytes, Issue { channel: Capability, amount: 1234567 }
31 00 00 00 05 => lane 1, Data, 5 bytes, Absolve { channel: Data, amount: 5 }
34 01 00 00 00 => lane 4, AreaOfInterest, 5 bytes, Absolve { channel: AreaOfInterest, amount: 16777216 }
41 00 00 00 00 => lane 8, Data, 5 bytes, Plead { channel: Data, target: 0 }
46 00 00 00 03 => lane 13, StaticToken, 5 bytes, Plead { channel: StaticToken, target: 3 }
45 01 00 00 00 => lane 12, PayloadRequest, 5 bytes, Plead { channel: PayloadRequest, target: 16777216 }
51 00 00 00 00 00 00 00 01 => lane 1, Data, 9 bytes, LimitSending { channel: Data, bound: 1 }
50 00 00 00 00 00 00 00 09 => lane 0, Reconciliation, 9 bytes, LimitSending { channel: Reconciliation, bound: 9 }
52 40 00 00 00 00 00 00 00 => lane 2, Overlap, 9 bytes, LimitSending { channel: Overlap, bound: 4611686018427387904 }
60 00 00 00 00 00 00 00 0a => lane 7, Reconciliation, 9 bytes, LimitReceiving { channel: Reconciliation, bound: 10 }
61 00 00 00 00 00 00 00 00 => lane 8, Data, 9 bytes, LimitReceiving { channel: Data, bound: 0 }
60 40 00 00 00 00 00 00 00 => lane 7, Reconciliation, 9 bytes, LimitReceiving { channel: Reconciliation, bound: 4611686018427387904 }
63 00 00 00 01 00 00 00 02 => lane 10, Capability, 9 bytes, LimitReceiving { channel: Capability, bound: 4294967298 }
";

// What begins no frame.
const FAULTS: &str = "11 00 00 => Fault(ZeroLength)
17 => Fault(BadTag)
77 => Fault(BadTag)
01 => Fault(BadTag)
70 => Fault(BadTag)
76 => Fault(BadTag)
ff => Fault(BadTag)
21 01 00 00 01 => Fault(BadNumber)
21 00 00 00 00 => Fault(BadNumber)
36 00 00 00 00 => Fault(BadNumber)
30 01 00 00 01 => Fault(BadNumber)
41 01 00 00 01 => Fault(BadNumber)
50 40 00 00 00 00 00 00 01 => Fault(BadNumber)
60 40 00 00 00 00 00 00 01 => Fault(BadNumber)
 => More
11 => More
11 00 02 68 => More
21 02 => More
21 00 00 00 => More
51 00 00 00 00 00 00 00 => More
";

// The same of version Two.
const FRAMES_IN_TWO: &str =
    "11 00 00 00 02 68 69 => lane 1, Data, 7 bytes, Send { channel: Data, body: [104, 105] }
16 00 00 00 01 21 => lane 6, StaticToken, 6 bytes, Send { channel: StaticToken, body: [33] }
21 00 00 00 05 => lane 8, Data, 5 bytes, Issue { channel: Data, amount: 5 }
60 40 00 00 00 00 00 00 00 => lane 7, Reconciliation, 9 bytes, LimitReceiving { channel: Reconciliation, bound: 4611686018427387904 }
70 => lane 0, Reconciliation, 1 bytes, Finish { channel: Reconciliation }
71 => lane 1, Data, 1 bytes, Finish { channel: Data }
76 => lane 6, StaticToken, 1 bytes, Finish { channel: StaticToken }
";

const FAULTS_IN_TWO: &str = "11 00 00 00 00 => Fault(ZeroLength)
11 00 10 00 01 => Fault(BadNumber)
11 ff ff ff ff => Fault(BadNumber)
4c 43 4d 02 => Fault(BadTag)
77 => Fault(BadTag)
81 => Fault(BadTag)
21 01 00 00 01 => Fault(BadNumber)
11 00 00 => More
11 00 00 00 => More
11 00 10 00 00 => More
11 00 00 00 02 68 => More
";

/// The bytes that a text writes in hexadecimal, with spaces between them.
pub fn bytes_of(alloc: Global, text: &str) -> Option<Vec<u8>> {
    let mut bytes = Vec::new(alloc);
    for digits in text.split(' ') {
        let byte = hex::decode(alloc, digits).ok()?;
        bytes.extend_from_slice(byte.as_slice()).ok()?;
    }
    Some(bytes)
}

/// The frame that these bytes are, and no more.
pub fn frame_in(version: Version, bytes: &[u8]) -> Option<FrameRef<'_>> {
    match decode(version, bytes) {
        Decoded::Whole { frame, used } if used == bytes.len() => Some(frame),
        _ => None,
    }
}

// Whether these bytes are at the front of a slice, behind which nothing was changed.
fn is_front(bytes: &[u8], slice: &[u8]) -> bool {
    slice.starts_with(bytes) && slice.iter().skip(bytes.len()).all(|byte| *byte == 0xaa)
}

// Whether a frame is written with these bytes, to the end of a buffer and to the front of a slice.
fn is_written(alloc: Global, version: Version, frame: FrameRef<'_>, bytes: &[u8]) -> Option<bool> {
    if !frame.is_valid(version) {
        return None;
    }
    let mut out = Vec::new(alloc);
    frame.encode_into(version, &mut out).ok()?;
    let mut slice = [0xaa; 12];
    let used = frame.encode_to_slice(version, &mut slice).ok()?;
    Some(out.as_slice() == bytes && used == bytes.len() && is_front(bytes, &slice))
}

fn owned_is_written(alloc: Global, version: Version, frame: &Frame, bytes: &[u8]) -> Option<bool> {
    if !frame.is_valid(version) {
        return None;
    }
    let mut out = Vec::new(alloc);
    frame.encode_into(version, &mut out).ok()?;
    let mut slice = [0xaa; 12];
    let used = frame.encode_to_slice(version, &mut slice).ok()?;
    Some(out.as_slice() == bytes && used == bytes.len() && is_front(bytes, &slice))
}

fn other_bytes(alloc: Global) -> Option<String> {
    format!(in alloc; "it is written with other bytes").ok()
}

// What both forms of a frame answer.
fn shown(
    alloc: Global,
    lane: u8,
    channel: Channel,
    len: usize,
    frame: FrameRef<'_>,
) -> Option<String> {
    format!(in alloc; "lane {lane}, {channel:?}, {len} bytes, {frame:?}").ok()
}

// Frames that are read, and written with the same bytes.
#[derive(Drop)]
struct Borrowed(Version);

impl Subject for Borrowed {
    fn answer(&mut self, alloc: Global, digits: &str) -> Option<String> {
        let version = self.0;
        let bytes = bytes_of(alloc, digits)?;
        let frame = frame_in(version, bytes.as_slice())?;
        if !is_written(alloc, version, frame, bytes.as_slice())? {
            return other_bytes(alloc);
        }
        let (lane, channel, len) = (frame.lane(), frame.channel(), frame.encoded_len(version));
        shown(alloc, lane, channel, len, frame)
    }
}

// The same of their owned forms.
#[derive(Drop)]
struct Owned(Version);

impl Subject for Owned {
    fn answer(&mut self, alloc: Global, digits: &str) -> Option<String> {
        let version = self.0;
        let bytes = bytes_of(alloc, digits)?;
        let frame = frame_in(version, bytes.as_slice())?.to_frame(alloc).ok()?;
        if !owned_is_written(alloc, version, &frame, bytes.as_slice())? {
            return other_bytes(alloc);
        }
        let (lane, channel, len) = (frame.lane(), frame.channel(), frame.encoded_len(version));
        shown(alloc, lane, channel, len, frame.view())
    }
}

// What begins no frame.
#[derive(Drop)]
struct Faults(Version);

impl Subject for Faults {
    fn answer(&mut self, alloc: Global, digits: &str) -> Option<String> {
        let bytes = bytes_of(alloc, digits)?;
        text(alloc, &decode(self.0, bytes.as_slice()))
    }
}

#[test]
fn frames_are_read_and_written(rt: HostRuntime) {
    for (version, frames, faults) in [
        (Version::One, FRAMES, FAULTS),
        (Version::Two, FRAMES_IN_TWO, FAULTS_IN_TWO),
    ] {
        answers(&rt, rt.alloc(), &mut Borrowed(version), frames);
        answers(&rt, rt.alloc(), &mut Owned(version), frames);
        answers(&rt, rt.alloc(), &mut Faults(version), faults);
    }
}
