//! One side of two sessions: all its ends and pumps, each in a thread of its own.
use crate::tests::ends::{RING, use_sender, use_taker};
use crate::tests::stage::Stage;
use crate::tests::way::{LAST, Place, Side, Way};
use lc_book::Refusal;
use lc_driver::Counted;
use lc_frame::{CHANNELS, Lane, Version};
use lc_peer::Config;
use lc_session::{Parts, ReadPump, RecvEnd, SendEnd, Session, WritePump};
use std::alloc::Global;
use std::io::{Read, Write};
use std::process::Abort;
use std::sync::Wait;
use std::thread;
use std::thread::{Threads, join};
use std::time::Clock;

/// More than all messages of a channel, as a limit that limits nothing.
const ENOUGH: u64 = 1 << 40;

/// A side's ends and pumps.
#[derive(Drop)]
pub struct Half {
    side: Side,
    sending: [SendEnd; CHANNELS],
    receiving: [RecvEnd; CHANNELS],
    reading: ReadPump,
    writing: WritePump,
}

impl Half {
    /// A side of a new session, by which it can be stopped besides.
    pub fn new(alloc: Global, side: Side, slots: u32) -> Option<(Half, Session)> {
        let config = Config {
            version: Version::One,
            capacities: [RING; CHANNELS],
            slots,
        };
        let Parts {
            session,
            send_ends,
            recv_ends,
            read_pump,
            write_pump,
        } = Session::new(alloc, config).ok()?;
        let half = Half {
            side,
            sending: send_ends,
            receiving: recv_ends,
            reading: read_pump,
            writing: write_pump,
        };
        Some((half, session))
    }

    /// All slots are taken, and each end that will be held has met that: it has its lane's own place.
    pub fn fill<R: Wait + Abort>(&mut self, rt: &R, way: Way) {
        for _ in 0..=way.slots {
            assert_eq!(rt; self.sending[LAST.index()].limit(rt, ENOUGH), Ok(()));
        }
        for end in &mut self.sending {
            if way.held.has(self.side, Lane::Client(end.channel())) {
                assert_eq!(rt; end.limit(rt, ENOUGH), Ok(()));
                assert_eq!(rt; end.limit(rt, ENOUGH), Err(Refusal::QueueFull));
            }
        }
        for end in &mut self.receiving {
            if way.held.has(self.side, Lane::Server(end.channel())) {
                assert_eq!(rt; end.limit(rt, ENOUGH), Ok(()));
                assert_eq!(rt; end.limit(rt, ENOUGH), Err(Refusal::QueueFull));
            }
        }
    }
}

// Each sending end in a thread of its own.
fn use_senders<R>(stage: &Stage<'_, R>, side: Side, ends: [SendEnd; CHANNELS])
where
    R: Threads + Wait + Clock + Abort + Sync,
{
    let mut ends = ends.map(|end| Some(end));
    thread::for_each_mut(
        stage.rt,
        &mut ends,
        CHANNELS,
        &|_, end| {
            if let Some(end) = end.take() {
                use_sender(stage, side, end);
            }
        },
    );
}

fn use_takers<R>(stage: &Stage<'_, R>, side: Side, ends: [RecvEnd; CHANNELS])
where
    R: Threads + Wait + Clock + Abort + Sync,
{
    let mut ends = ends.map(|end| Some(end));
    thread::for_each_mut(
        stage.rt,
        &mut ends,
        CHANNELS,
        &|_, end| {
            if let Some(end) = end.take() {
                use_taker(stage, side, end);
            }
        },
    );
}

// Writes until the session is stopped. The writer goes then, which ends the stream.
fn write<R, W>(stage: &Stage<'_, R>, mut pump: WritePump, writer: W)
where
    R: Wait + Clock,
    W: Write + Drop,
{
    let _end = pump.run(stage.rt, &mut Counted::new(writer));
    stage.is_through();
}

fn read<R, D>(stage: &Stage<'_, R>, mut pump: ReadPump, reader: D)
where
    R: Wait + Clock,
    D: Read + Drop,
{
    let _end = pump.run(stage.rt, &mut Counted::new(reader), u64::MAX);
    stage.is_through();
}

// Where ends are to meet a full queue the pumps run once they have.
fn use_pumps<R, W, D>(
    stage: &Stage<'_, R>,
    reading: ReadPump,
    writing: WritePump,
    writer: W,
    reader: D,
)
where
    R: Threads + Wait + Clock + Sync,
    W: Write + Drop + Send,
    D: Read + Drop + Send,
{
    if stage.way.place != Place::Between {
        stage.await_begun();
    }
    join(
        stage.rt,
        || write(stage, writing, writer),
        || read(stage, reading, reader),
    );
}

/// All of a side at work, over a wire's writer and reader.
pub fn use_half<R, W, D>(stage: &Stage<'_, R>, half: Half, writer: W, reader: D)
where
    R: Threads + Wait + Clock + Abort + Sync,
    W: Write + Drop + Send,
    D: Read + Drop + Send,
{
    let Half {
        side,
        sending,
        receiving,
        reading,
        writing,
    } = half;
    join(
        stage.rt,
        || {
            join(
                stage.rt,
                || use_senders(stage, side, sending),
                || use_takers(stage, side, receiving),
            );
        },
        || use_pumps(stage, reading, writing, writer, reader),
    );
}
