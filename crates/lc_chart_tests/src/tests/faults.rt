//! What stands in place of a picture, and what a picture leaves out.
use super::{end, has_lines, same, shown, with_status};
use lc_chart::{ChartFault, Command, chart};
use lc_frame::Version;
use std::alloc::{AllocError, AllocFailed, Global};
use std::io;
use std::io::ErrorKind;
use std::test::Fail;

const USAGE: &str = "lcmux_chart: usage: lcmux_chart CAPACITY [2], lcmux_chart frames\n= 2\n";

const NO_COMMANDS: &str = "lcmux_chart
lcmux_chart 0
lcmux_chart 08
lcmux_chart 16777217
lcmux_chart 4294967304
lcmux_chart eight
lcmux_chart 8 1
lcmux_chart 8 02
lcmux_chart 8 two
lcmux_chart 8 2 2
lcmux_chart 2 8
lcmux_chart 0 2
lcmux_chart frames 2
lcmux_chart frames 8
lcmux_chart Frames";

#[test]
fn what_names_no_command_is_answered_by_the_usage(rt: HostRuntime) {
    for command in NO_COMMANDS.split('\n') {
        same(
            &rt,
            command,
            shown(rt.alloc(), command, b"A arrive\n"),
            USAGE,
        );
    }
}

// How a run ends whose arguments could not be read.
fn without_arguments(alloc: Global, kind: ErrorKind) -> Option<String> {
    let mut out = Vec::new(alloc);
    let arguments = Err(io::Error::from(kind));
    end(alloc, arguments, &mut b"A arrive\n".as_slice(), &mut out)
}

// How a session ends whose receiving rings have so many bytes.
fn with_rings_of(alloc: Global, capacity: u32) -> Option<String> {
    let (mut out, mut err) = (Vec::new(alloc), Vec::new(alloc));
    let version = Version::One;
    let command = Command::Session { capacity, version };
    let status = chart(
        alloc,
        command,
        &mut b"A arrive\n".as_slice(),
        &mut out,
        &mut err,
    );
    with_status(err, status)
}

#[test]
fn a_run_that_cannot_begin_is_answered_by_the_usage(rt: HostRuntime) {
    let found = without_arguments(rt.alloc(), ErrorKind::InvalidData);
    same(&rt, "no text", found, USAGE);
    for &capacity in &[0, 16_777_217, u32::MAX] {
        same(&rt, "no rings", with_rings_of(rt.alloc(), capacity), USAGE);
    }
}

const OUT_OF_MEMORY: &str = "lcmux_chart: out of memory\n= 1\n";

fn reported(alloc: Global, fault: ChartFault) -> Option<String> {
    let mut err = Vec::new(alloc);
    let status = fault.report(&mut err);
    with_status(err, status)
}

#[test]
fn want_of_memory_is_named(rt: HostRuntime) {
    let found = without_arguments(rt.alloc(), ErrorKind::OutOfMemory);
    same(&rt, "arguments", found, OUT_OF_MEMORY);
    let found = reported(rt.alloc(), ChartFault::from(AllocError));
    same(&rt, "a growth", found, OUT_OF_MEMORY);
    let refused = AllocFailed { value: 1u8 };
    let found = reported(rt.alloc(), ChartFault::from(refused));
    same(&rt, "a push", found, OUT_OF_MEMORY);
}

#[test]
fn a_bad_script_is_named_and_none_of_it_is_shown(rt: HostRuntime) {
    for &(script, wanted) in &[
        (
            "# <&\nA send 1 <x>\n",
            "lcmux_chart: line 2: bad script line\n= 2\n",
        ),
        (
            "A arrive\n</svg>\n",
            "lcmux_chart: line 2: bad script line\n= 2\n",
        ),
    ] {
        let found = shown(rt.alloc(), "lcmux_chart 8", script.as_bytes());
        same(&rt, script, found, wanted);
    }
}

// What the command shows of so many of these pieces.
fn shown_of(alloc: Global, command: &str, piece: &str, count: usize) -> Option<String> {
    let input = piece.repeat(alloc, count).ok()?;
    shown(alloc, command, input.as_bytes())
}

// What is drawn 2000 times, with the last of it in the description.
const MOST: [(&str, &str, &str); 3] = [
    (
        "lcmux_chart 8",
        "A arrive\n",
        "2000. A: arrive: nothing in flight.",
    ),
    (
        "lcmux_chart 8",
        "A limit-sending 0 5\n",
        "The frame of event 2000 is in flight at the end.",
    ),
    (
        "lcmux_chart frames",
        "\x21\0\0\0\x05",
        "2000. At byte 9995: issue 5 on channel 1.",
    ),
];

// One more is too much, unless another fault comes before it.
const TOO_MANY: [(&str, &str, &str); 3] = [
    (
        "lcmux_chart 8",
        "A arrive\n",
        "lcmux_chart: more than 2000 events\n= 2\n",
    ),
    (
        "lcmux_chart frames",
        "\x21\0\0\0\x05",
        "lcmux_chart: more than 2000 events\n= 2\n",
    ),
    (
        "lcmux_chart 8",
        "A arrive\nA leave\n",
        "lcmux_chart: line 2: bad script line\n= 2\n",
    ),
];

#[test]
fn a_picture_has_a_most_of_events(rt: HostRuntime) -> Result<(), Fail> {
    for &(command, piece, last) in &MOST {
        let most = shown_of(rt.alloc(), command, piece, 2000).ok_or("no picture")?;
        has_lines(&rt, most.as_str(), last);
        has_lines(&rt, most.as_str(), "</svg>\n= 0");
    }
    for &(command, piece, wanted) in &TOO_MANY {
        let found = shown_of(rt.alloc(), command, piece, 2001);
        same(&rt, command, found, wanted);
    }
    Ok(())
}

// Each byte is a line that is none, and the tag of no frame: the input is read whole before that is seen.
#[test]
fn too_long_an_input_is_named_first(rt: HostRuntime) -> Result<(), Fail> {
    let input = vec![in rt.alloc(); b'w'; 16_777_217]?;
    for command in ["lcmux_chart 8", "lcmux_chart frames"] {
        let found = shown(rt.alloc(), command, input.as_slice());
        same(&rt, command, found, "lcmux_chart: input too long\n= 2\n");
    }
    Ok(())
}

// Of a script the first delivery brings what is in flight before any frame: in version Two a greeting.
const OPENINGS: [(&str, &str); 2] = [
    ("lcmux_chart 8", "1. A: deliver 4 bytes: nothing in flight."),
    (
        "lcmux_chart 8 2",
        "1. A: deliver 4 bytes: 4 bytes came, whole frames: 0.",
    ),
];

#[test]
fn a_session_has_its_version(rt: HostRuntime) -> Result<(), Fail> {
    for &(command, line) in &OPENINGS {
        let picture = shown(rt.alloc(), command, b"A deliver 4\n").ok_or("no picture")?;
        has_lines(&rt, picture.as_str(), line);
    }
    Ok(())
}

// Streams, with lines of their pictures and how the runs end.
const STREAMS: [(&str, &str); 8] = [
    (
        "\x21\0\0\0\x05\x11\0",
        "1. At byte 0: issue 5 on channel 1.
<text class=\"bad\" x=\"158\" y=\"152\">F4 in the frame at byte 5</text>
</svg>
lcmux_chart: F4 in the frame at byte 5
= 2",
    ),
    (
        "LCM\x02\x11\0\0\0\x02hi",
        "1. At byte 4: send 2 bytes on channel 1.
</svg>
= 0",
    ),
    (
        "LCM\x02\x21\0\0\0\x05\x11\0",
        "1. At byte 4: issue 5 on channel 1.
</svg>
lcmux_chart: F4 in the frame at byte 9
= 2",
    ),
    (
        "LCM\x02\x71\x11\0\0\0\x02hi",
        "1. At byte 4: finish on channel 1.
2. At byte 5: send 2 bytes on channel 1.
<text class=\"asked c1\" x=\"158\" y=\"96\">finish</text>
</svg>
= 0",
    ),
    (
        "\x21\0\0\0\x05\x71",
        "1. At byte 0: issue 5 on channel 1.
</svg>
lcmux_chart: F1 in the frame at byte 5: 0x71
= 2",
    ),
    (
        "LCM\x02",
        "</svg>
= 0",
    ),
    (
        "LCM\x03",
        "</svg>
lcmux_chart: F1 in the frame at byte 0: 0x03
= 2",
    ),
    (
        "LCM",
        "</svg>
lcmux_chart: F4 in the frame at byte 0
= 2",
    ),
];

#[test]
fn a_fault_of_a_stream_stands_behind_its_frames(rt: HostRuntime) -> Result<(), Fail> {
    for &(stream, lines) in &STREAMS {
        let picture = shown(rt.alloc(), "lcmux_chart frames", stream.as_bytes()).ok_or("no run")?;
        has_lines(&rt, picture.as_str(), lines);
    }
    Ok(())
}

// Of a comment and of a message nothing is drawn that a browser would read.
#[test]
fn no_text_of_the_input_is_drawn(rt: HostRuntime) -> Result<(), Fail> {
    for &(command, input) in &[
        ("lcmux_chart 8", "# <script>&\nA send 1 3c7363726970743e\n"),
        ("lcmux_chart frames", "\x11\0\x09<script>&"),
    ] {
        let picture = shown(rt.alloc(), command, input.as_bytes()).ok_or("no picture")?;
        has_lines(&rt, picture.as_str(), "</svg>\n= 0");
        let drawn = picture.as_str().contains("<script") || picture.as_str().contains("&");
        assert!(rt; !drawn, "{picture}");
    }
    Ok(())
}
