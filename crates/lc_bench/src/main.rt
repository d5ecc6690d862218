//! Measures the codec, the stream decoder, the receiving ring, the peer, the queue, the credit, the
//! shared inbox and two sessions.
//!
//! Prints a line `name value unit` for each figure, or with the argument `list` the names alone. Any
//! other argument is a prefix of the names of the figures to measure. The environment variable
//! BENCH_REPS is the number of repetitions of each figure, of which the median is printed. With
//! BENCH_FIXED=TURNS nothing is timed: each figure runs that many turns, and the line says how many
//! frames, messages or calls a turn has.
#![tactic(auto)]

mod credit;
mod figures;
mod frames;
mod inbox;
mod operation;
mod peer;
mod plan;
mod queue;
mod receiver;
mod ring;
mod session;

use credit::measure_credits;
use inbox::measure_inboxes;
use lc_frame::{Body, Channel, Frame, Version};
use operation::{Operation, measure};
use peer::measure_peers;
use plan::Plan;
use queue::measure_queues;
use ring::measure_rings;
use session::measure_sessions;
use std::io;

/// The frames that are measured: a name, and the length of the body in bytes; an Issue has none.
const FRAMES: [(&str, usize); 4] = [
    ("issue5", 0),
    ("send16", 16),
    ("send1k", 1_024),
    ("send64k", 65_535),
];

const OPERATIONS: [Operation; 6] = [
    Operation::EncodeInto,
    Operation::EncodeToSlice,
    Operation::Decode,
    Operation::DecodeOwned,
    Operation::Stream512,
    Operation::Deliver512,
];

fn frame_of(rt: &HostRuntime, len: usize) -> io::Result<Frame> {
    let channel = Channel::Data;
    if len == 0 {
        return Ok(Frame::Issue { channel, amount: 5 });
    }
    let body = Body::from_vec(vec![in rt.alloc(); 0x5a_u8; len]?);
    Ok(Frame::Send { channel, body })
}

fn measure_frame(rt: &HostRuntime, plan: &Plan, name: &str, frame: &Frame) -> io::Result<()> {
    for operation in &OPERATIONS {
        measure(rt, plan, *operation, Version::One, name, frame)?;
        measure(rt, plan, *operation, Version::Two, name, frame)?;
    }
    Ok(())
}

fn measure_frames(rt: &HostRuntime, plan: &Plan) -> io::Result<()> {
    for (name, len) in &FRAMES {
        let frame = frame_of(rt, *len)?;
        measure_frame(rt, plan, name, &frame)?;
    }
    Ok(())
}

fn main(rt: HostRuntime) -> io::Result<()> {
    let plan = Plan::from_environment(&rt)?;
    measure_frames(&rt, &plan)?;
    measure_rings(&rt, &plan)?;
    measure_peers(&rt, &plan)?;
    measure_queues(rt, &rt, &plan)?;
    measure_credits(&rt, &plan)?;
    measure_inboxes(rt, &rt, &plan)?;
    measure_sessions(rt, &rt, &plan)
}
