//! Streams of a hostile peer through the reading pump, whole and cut in two after each byte.
use crate::tests::desk::run;
use crate::tests::ran;
use std::alloc::Global;
use std::process::Abort;
use std::sync::Wait;
use test_devices::{FINISHED, HOSTILE, Hostile, text};

// What a further run answers that may make no read.
fn without_reads(end: &str) -> &str {
    if end.starts_with("Violated") || end.starts_with("Fault") {
        return end;
    }
    "TurnsSpent"
}

// What a take answers once all messages of a stream with a Finish were taken: the Finish is on the
// channel that is looked at, but in the stream that begins with another channel's.
fn after_finish(stream: &Hostile) -> &'static str {
    if stream.in_two.starts_with("4c434d0272") {
        return "Ok(Empty)";
    }
    "Ok(Ended)"
}

// The calls by which a stream comes, of which the first read gives so many bytes.
fn reads_of(alloc: Global, stream: &Hostile, cut: usize) -> Option<String> {
    let cut = text(alloc, &cut)?;
    [
        stream.own,
        "read 10 all ",
        cut.as_str(),
        " 1 => ",
        stream.end,
    ]
    .concat(alloc)
    .ok()
}

// What the books say then, and what is taken: no more than one message.
fn takes_of(alloc: Global, stream: &Hostile, untaken: &str) -> Option<String> {
    let (at, held) = (stream.channel, stream.held);
    let (server, taken) = (stream.server, stream.taken);
    format!(in alloc;
        "server {at} => {server}
        held {at} => {held}
        take {at} => {taken}
        take {at} => {untaken}"
    )
    .ok()
}

fn script_of(alloc: Global, stream: &Hostile, untaken: &str, cut: usize) -> Option<String> {
    let (reads, takes) = (
        reads_of(alloc, stream, cut)?,
        takes_of(alloc, stream, untaken)?,
    );
    let last = without_reads(stream.end);
    [
        reads.as_str(),
        "\n",
        takes.as_str(),
        "\nread 10 all => ",
        stream.end,
        "\nread 0 all => ",
        last,
    ]
    .concat(alloc)
    .ok()
}

fn report_of(alloc: Global, stream: &Hostile) -> Option<String> {
    let at = stream.channel;
    let balance = (stream.held, stream.held, 0, 0, 0);
    format!(in alloc; "client {at} => {balance:?}").ok()
}

// A stream comes to a new session, cut in two behind so many bytes.
fn cut_at<R: Wait + Abort>(
    rt: &R,
    alloc: Global,
    stream: &Hostile,
    untaken: &str,
    cut: usize,
) -> Option<()> {
    let script = script_of(alloc, stream, untaken, cut)?;
    let report = report_of(alloc, stream)?;
    run(rt, alloc, 4, stream.bytes, script.as_str(), report.as_str())
}

fn cut_anywhere<R: Wait + Abort>(rt: &R, alloc: Global, stream: &Hostile, untaken: &str) {
    for before in 0..stream.bytes.len() / 2 {
        ran(rt, cut_at(rt, alloc, stream, untaken, before + 1));
    }
}

#[test]
fn streams_cut_anywhere(rt: HostRuntime) {
    for stream in &HOSTILE {
        cut_anywhere(&rt, rt.alloc(), stream, "Ok(Empty)");
    }
}

// The same stream in version Two.
fn in_two(stream: &Hostile) -> Hostile {
    let bytes = stream.in_two;
    Hostile { bytes, ..*stream }
}

#[test]
fn streams_of_version_two_cut_anywhere(rt: HostRuntime) {
    for stream in &HOSTILE {
        cut_anywhere(&rt, rt.alloc(), &in_two(stream), "Ok(Empty)");
    }
}

#[test]
fn streams_with_a_finish_cut_anywhere(rt: HostRuntime) {
    for stream in &FINISHED {
        cut_anywhere(&rt, rt.alloc(), &in_two(stream), after_finish(stream));
    }
}
