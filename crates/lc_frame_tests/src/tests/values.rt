//! Channels, bodies, frames that are not valid, and slices with and without room.
use super::{same, text};
use lc_frame::{
    Body, Channel, Frame, FrameRef, MAX_AMOUNT, MAX_BODY, MAX_FRAME, MAX_TOTAL, Version,
};
use std::alloc::{AllocError, Global};
use std::process::Abort;
use std::test::Fail;

// Each channel by its number, and the lanes of a client's frames on it and of a server's.
const CHANNELS: &str = "0: Reconciliation 0 (0, 0, 0, 7)
1: Data 1 (1, 1, 1, 8)
2: Overlap 2 (2, 2, 2, 9)
3: Capability 3 (3, 3, 3, 10)
4: AreaOfInterest 4 (4, 4, 4, 11)
5: PayloadRequest 5 (5, 5, 5, 12)
6: StaticToken 6 (6, 6, 6, 13)
";

fn shown(alloc: Global, channel: Channel) -> Result<String, AllocError> {
    let number = channel.number();
    let send = FrameRef::Send {
        channel,
        body: b"a",
    };
    let absolve = Frame::Absolve { channel, amount: 1 };
    let finish = FrameRef::Finish { channel };
    let plead = FrameRef::Plead { channel, target: 0 };
    let lanes = (send.lane(), absolve.lane(), finish.lane(), plead.lane());
    format!(in alloc; "{channel:?} {number} {lanes:?}")
}

#[test]
fn channels_have_numbers_and_lanes(rt: HostRuntime) -> Result<(), Fail> {
    let mut found = String::new(rt.alloc());
    for number in 0..=u8::MAX {
        if let Some(channel) = Channel::from_number(number) {
            writeln!(found, "{number}: {}", shown(rt.alloc(), channel)?)?;
        }
    }
    same(&rt, "channels", Some(found), CHANNELS);
    Ok(())
}

#[test]
fn all_channels_stand_by_their_numbers(rt: HostRuntime) -> Result<(), Fail> {
    let mut found = String::new(rt.alloc());
    for (place, &channel) in Channel::ALL.iter().enumerate() {
        writeln!(found, "{place}: {}", shown(rt.alloc(), channel)?)?;
    }
    same(&rt, "channels", Some(found), CHANNELS);
    Ok(())
}

// Whether the frame is valid, borrowed and owned.
fn validity(alloc: Global, frame: FrameRef<'_>) -> Option<String> {
    let owned = frame.to_frame(alloc).ok()?;
    text(
        alloc,
        &(frame.is_valid(Version::One), owned.is_valid(Version::One)),
    )
}

fn is_not_valid(rt: &impl Abort, alloc: Global, what: &str, frame: FrameRef<'_>) {
    same(rt, what, validity(alloc, frame), "(false, false)");
}

#[test]
fn other_frames_are_not_valid_in_version_one(rt: HostRuntime) {
    let channel = Channel::Data;
    let (target, bound) = (16_777_217, 4_611_686_018_427_387_905);
    for frame in &[
        FrameRef::Send { channel, body: b"" },
        FrameRef::Plead { channel, target },
        FrameRef::LimitSending { channel, bound },
        FrameRef::LimitReceiving { channel, bound },
        FrameRef::Finish { channel },
    ] {
        is_not_valid(&rt, rt.alloc(), "a frame", *frame);
    }
}

#[test]
fn amounts_out_of_range_are_not_valid(rt: HostRuntime) {
    let channel = Channel::Data;
    for &amount in &[0, 16_777_217, u32::MAX] {
        let (issue, absolve) = (
            FrameRef::Issue { channel, amount },
            FrameRef::Absolve { channel, amount },
        );
        is_not_valid(&rt, rt.alloc(), "an issue", issue);
        is_not_valid(&rt, rt.alloc(), "an absolve", absolve);
    }
}

fn body(alloc: Global, bytes: &[u8]) -> Result<Body, AllocError> {
    Ok(Body::from_vec(Vec::from_slice(alloc, bytes)?))
}

#[test]
fn bodies_are_their_bytes(rt: HostRuntime) -> Result<(), Fail> {
    let body = body(rt.alloc(), &[1, 2, 4])?;
    let found = text(rt.alloc(), &body.as_slice());
    same(&rt, "bytes", found, "[1, 2, 4]");
    let found = text(rt.alloc(), &body.into_vec());
    same(&rt, "bytes", found, "[1, 2, 4]");
    Ok(())
}

#[test]
fn a_slice_takes_a_frame_only_where_there_is_room(rt: HostRuntime) {
    let frame = FrameRef::Issue {
        channel: Channel::Data,
        amount: 5,
    };
    let (mut short, mut long) = ([0xaa_u8; 4], [0xaa_u8; 6]);
    let answers = (
        frame.encode_to_slice(Version::One, &mut short),
        frame.encode_to_slice(Version::One, &mut long),
    );
    let found = text(rt.alloc(), &(answers, short, long));
    let wanted =
        "((Err(BufferTooSmall { need: 5 }), Ok(5)), [170, 170, 170, 170], [33, 0, 0, 0, 5, 170])";
    same(&rt, "slices", found, wanted);
}

#[test]
fn the_limits_are_those_of_the_format(rt: HostRuntime) {
    let found = text(rt.alloc(), &(MAX_BODY, MAX_AMOUNT, MAX_TOTAL, MAX_FRAME));
    let wanted = "(1048576, 16777216, 4611686018427387904, 1048581)";
    same(&rt, "limits", found, wanted);
}
