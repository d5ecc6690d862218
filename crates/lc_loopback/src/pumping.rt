//! What the pumps do.
ghost use Rattle.std.specs.Prelude.{◌≡◌};
ghost use Rattle.lc_session.specs.Pumping.{IsSamePump};
ghost use Rattle.lc_session.specs.Heard.{HearsMore};

use crate::connection::{Wire, Wires};
use crate::hold::Hold;
use crate::taken::Taken;
use crate::worker::{Done, Outcome, Part, Work, Worker, join, join_outcome, start};
use lc_driver::{Counted, ReadEnd, Uninterrupted};
use lc_loopback_report::LoopFault;
use lc_session::{ReadPump, WriteEnd, WritePump};
use std::io::{Read, Write};
use std::sync::Wait;
use std::thread::Threads;

impl Part for ReadPump {
    ghost same = { HearsMore };

    ghost gives = { λ _ _ _. Unit {0} };
}

impl Part for WritePump {
    ghost same = { IsSamePump };

    ghost gives = { λ _ _ _. Unit {0} };
}

// Reads until the stream ends. Its reader goes then, so that the other side's writes fail where it
// writes on.
impl<S: Read + Drop> Worker<S> for ReadPump {
    fn work<R: Wait>(&mut self, rt: &R, _hold: &Hold, stream: S) -> Outcome {
        let mut reader = Counted::new(Uninterrupted::new(stream));
        match self.run(rt, &mut reader, u64::MAX) {
            ReadEnd::Clean => Ok(Taken::NOTHING),
            ReadEnd::ReadFailed => Err(LoopFault::Device),
            _ => Err(LoopFault::BadMessage),
        }
    }
}

// Writes until the session is stopped. Its writer goes then, which ends the stream.
impl<S: Write + Drop> Worker<S> for WritePump {
    fn work<R: Wait>(&mut self, rt: &R, _hold: &Hold, stream: S) -> Outcome {
        let mut writer = Counted::new(Uninterrupted::new(stream));
        match self.run(rt, &mut writer) {
            WriteEnd::Stopped => Ok(Taken::NOTHING),
            WriteEnd::Failed | WriteEnd::Zero => Err(LoopFault::Device),
        }
    }
}

/// Both pumps of a side at work.
#[derive(Drop)]
pub(crate) struct Pumping {
    reading: Work<ReadPump>,
    writing: Work<WritePump>,
}

/// Starts the pumps of both sides. The writing pumps come first: where a reading pump gets no
/// thread, it reads here until the other side's stream ends.
pub(crate) fn start_pumps<R, O, I>(
    rt: R,
    hold: &Hold,
    a: (ReadPump, WritePump),
    b: (ReadPump, WritePump),
    wires: Wires<O, I>,
) -> (Pumping, Pumping)
where
    R: Threads + Wait + Copy + Send + 'static,
    O: Write + Send + Drop + 'static,
    I: Read + Send + Drop + 'static,
    ensures a { result.0 ≡ record { reading = a.0; writing = a.1 } }
    ensures b { result.1 ≡ record { reading = b.0; writing = b.1 } }
{
    let Wires { a_to_b, b_to_a } = wires;
    let Wire {
        writer: a_writer,
        reader: b_reader,
    } = a_to_b;
    let Wire {
        writer: b_writer,
        reader: a_reader,
    } = b_to_a;
    let (a_read_pump, a_write_pump) = a;
    let (b_read_pump, b_write_pump) = b;
    let a_writing = start(rt, hold, a_write_pump, a_writer);
    let b_writing = start(rt, hold, b_write_pump, b_writer);
    let a = Pumping {
        reading: start(rt, hold, a_read_pump, a_reader),
        writing: a_writing,
    };
    let b = Pumping {
        reading: start(rt, hold, b_read_pump, b_reader),
        writing: b_writing,
    };
    (a, b)
}

/// Waits for both pumps of a side.
pub(crate) fn join_pumps<R: Threads>(rt: &R, pumping: Pumping) -> (Done<ReadPump>, Done<WritePump>)
    ensures reading { HearsMore pumping.reading result.0.worker }
    ensures writing { IsSamePump pumping.writing result.1.worker }
{
    let writing = join(rt, pumping.writing);
    let reading = join(rt, pumping.reading);
    (reading, writing)
}

/// Waits for both pumps of a side, and lets them go: what their work came to.
pub(crate) fn join_pump_outcomes<R: Threads>(rt: &R, pumping: Pumping) -> [Outcome; 2] {
    let Pumping { reading, writing } = pumping;
    let wrote = join_outcome(rt, writing);
    let read = join_outcome(rt, reading);
    [read, wrote]
}
