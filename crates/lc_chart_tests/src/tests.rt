//! What a run shows, and the scripts and the stream that are drawn.
mod devices;
mod faults;
mod layout;
mod shapes;
mod told;

use lc_chart::run;
use std::alloc::Global;
use std::env::Args;
use std::io;
use std::io::{Read, Write};
use std::process::Abort;

/// What a command line shows on an input: standard output, behind it standard error, and the status.
fn shown(alloc: Global, command: &str, mut input: &[u8]) -> Option<String> {
    let mut out = Vec::new(alloc);
    let end = end(alloc, Ok(arguments(alloc, command)?), &mut input, &mut out)?;
    out.extend_from_slice(end.as_bytes()).ok()?;
    String::from_utf8(out).ok()
}

/// How a run with these arguments ends: standard error, and the status.
fn end<R: Read, W: Write>(
    alloc: Global,
    arguments: io::Result<Args>,
    input: &mut R,
    out: &mut W,
) -> Option<String> {
    let mut err = Vec::new(alloc);
    let status = run(alloc, arguments, input, out, &mut err, false);
    with_status(err, status)
}

/// What was written to standard error, and the status.
fn with_status(err: Vec<u8>, status: u8) -> Option<String> {
    let mut end = String::from_utf8(err).ok()?;
    writeln!(end, "= {status}").ok()?;
    Some(end)
}

/// Fails where there is no text, or not the one that is wanted, and names what was compared.
fn same(rt: &impl Abort, what: &str, found: Option<String>, wanted: &str) {
    let found = found.as_deref().unwrap_or("nothing");
    assert!(rt; found == wanted, "{what}: {found}, not {wanted}");
}

// The arguments of a command line.
fn arguments(alloc: Global, command: &str) -> Option<Args> {
    let mut words = Vec::new(alloc);
    for word in command.split(' ') {
        words.push(String::from_str(alloc, word).ok()?).ok()?;
    }
    Some(words.into_iter())
}

/// Fails where a line of `wanted` is none of what is shown.
fn has_lines(rt: &impl Abort, shown: &str, wanted: &str) {
    for line in wanted.lines() {
        assert!(rt; has_line(shown, line), "no line {line}");
    }
}

fn has_line(shown: &str, wanted: &str) -> bool {
    shown.split('\n').any(|line| line == wanted)
}

/// A refusal, an issue, a message taken, a plead and what it absolves, a limit and an end.
const IDEAS: &str = "A send 1 6869
B issue 1 8
A arrive
A send 1 6869
B arrive
B take 1
B plead 1 2
A arrive
A honour 1
B arrive
A limit-sending 1 0
B arrive
B take 1
";

/// Frames that arrive in pieces, and one that is in flight at the end.
const CUT: &str = "B issue 1 5
A deliver 2
A send 1 61
A deliver 9
A deliver 1
A send 1 6869
A send 1 61
B deliver 6
B take 1
B arrive
B issue 1 1
";

/// A channel that A finishes, in version Two: a message, what A still held, and an end. The greeting,
/// the message and the Finish are delivered together.
const FINISHED: &str = "B issue 1 8
A arrive
A send 1 6869
A finish 1
A honour 1
B deliver 12
B take 1
B take 1
";

/// The largest ring, full of promises and then of a message and promises.
const FULL: &str = "B issue 1 16777216
A arrive
A send 1 61626364
B arrive
B issue 1 1
A absolve 1 16777212
B arrive
";

/// All channels, the longest numbers and words, and frames in flight at the end.
const WIDE: &str = "A issue 0 3
A issue 1 16777216
A issue 2 9
A limit-receiving 3 18446744073709551615
A limit-receiving 4 4611686018427387904
A limit-receiving 4 4611686018427387905
B deliver 7
B send 5 61
B send 6 61
B limit-sending 5 4611686018427387904
B limit-sending 5 4611686018427387903
B limit-sending 5 4611686018427387904
B issue 0 9
A take 1
B take 2
A honour 3
B issue 3 9
B plead 4 0
B take 5
B take 6
";

/// The longest words that a picture with one channel has.
const LONGEST: &str = "A limit-sending 1 4611686018427387903
A limit-sending 1 4611686018427387904
B limit-receiving 1 4611686018427387903
B limit-receiving 1 4611686018427387904
";

/// The least ring, full, and rings that are a quarter and three quarters full of promises.
const LEAST: &str = "A issue 6 1\n";

const QUARTER: &str = "A issue 4 16384\n";

const THREE_QUARTERS: &str = "B issue 0 12582912\nA arrive\n";

/// A LimitReceiving of 2^62 on channel 4, a Send of a byte on channel 5, and a tag that is none.
const STREAM: &str = "\x64\x40\0\0\0\0\0\0\0\x15\0\x01a\0";
