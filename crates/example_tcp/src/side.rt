//! One side of a sync: a session over a socket, whose parts six threads have.
ghost use Rattle.std.specs.List.{AllZip};
ghost use Rattle.lc_inbox.specs.Sides.{IsSameSide};
ghost use Rattle.lc_outbox.specs.Outbox.{IsSameOutbox};
ghost use Rattle.lc_session.specs.Reading.{IsSameReading};
ghost use Rattle.lc_session.specs.Pumping.{IsSamePump};
ghost use Rattle.lc_session.specs.Parts.{state_of};
ghost use Rattle.lc_session.specs.Report.{AreOfOneSession};

use crate::fault::{Fault, both};
use crate::patience::{Deadline, Patient};
use crate::tasks::{RING, ask, collect, offer, serve};
use lc_driver::{Counted, ReadEnd, Uninterrupted};
use lc_frame::{CHANNELS, Version};
use lc_inbox::apart;
use lc_peer::Config;
use lc_session::{Parts, ReadPump, RecvEnd, SendEnd, Session, WriteEnd, WritePump, finish};
use std::alloc::Global;
use std::io::BufReader;
use std::net::{Shutdown, TcpStream};
use std::sync::Wait;
use std::thread::{Threads, join, join_mut};
use std::time::Clock;

/// How many frames may wait to go out.
const SLOTS: u32 = 16;

/// How many bytes a read of the socket brings at most, where the pump asks for few.
const READ_AHEAD: usize = 65_536;

/// What a sync came to.
#[derive(Drop)]
pub struct Synced {
    /// The items that this side lacked, a line each.
    pub lacked: Result<String, Fault>,
    /// How many frames never went out.
    pub left: u64,
    /// How many bytes never went out of a frame that was begun.
    pub partly: u64,
}

// What any thread can end the session by: a hold of it, and the socket of its pumps.
#[derive(Drop)]
struct Hold {
    session: Session,
    socket: TcpStream,
    deadline: Deadline,
}

impl Hold {
    // A task that fails ends the session, or the others would wait for it. `stop` ends a writing
    // pump that has nothing left to write. The socket frees one that waits in a write, and the
    // reading pump, which waits in a read: for that one `Shutdown::Read` is enough.
    fn give_up_at<T>(&self, answer: Result<T, Fault>) -> Result<T, Fault> {
        if answer.is_err() {
            self.session.stop();
            let _ = self.socket.shutdown(Shutdown::Both);
        }
        answer
    }

    // The socket, as long as patience lasts.
    fn patient<'a, R>(&'a self, rt: &'a R) -> Patient<'a, R> {
        Patient {
            rt,
            socket: &self.socket,
            deadline: self.deadline,
        }
    }
}

// Reads up to the end of what the other side writes. A transport that fails and a frame that breaks
// the rules are answered by the pump; all waits for guarantees and messages are over from then on, so
// that the tasks end.
fn read<R: Wait + Clock>(
    rt: &R,
    alloc: Global,
    hold: &Hold,
    pump: &mut ReadPump,
) -> Result<(), Fault>
    ensures { IsSameReading pump.old.side pump.new.side }
{
    let Ok(socket) = BufReader::with_capacity(alloc, READ_AHEAD, hold.patient(rt)) else {
        return Err(Fault::OutOfMemory);
    };
    let end = pump.run(rt, &mut Counted::new(Uninterrupted::new(socket)), u64::MAX);
    match end {
        ReadEnd::Clean => Ok(()),
        _ => Err(Fault::Over),
    }
}

// Writes until the session is stopped, and then ends this side's half of the connection. Where that
// fails nothing that the tasks put goes out, and their waits for what the other side answers go on.
fn write<R: Wait + Clock>(rt: &R, hold: &Hold, pump: &mut WritePump) -> Result<(), Fault>
    ensures { IsSamePump pump.old pump.new }
{
    let socket = Uninterrupted::new(hold.patient(rt));
    let end = pump.run(rt, &mut Counted::new(socket));
    match end {
        WriteEnd::Stopped => {
            // It fails where the other side has gone, as the reading pump says.
            let _ = hold.socket.shutdown(Shutdown::Write);
            Ok(())
        }
        WriteEnd::Failed | WriteEnd::Zero => Err(Fault::Over),
    }
}

// Sends the names of this side's items, and each item that is asked for.
fn give<'a, R: Threads + Wait + Sync>(
    rt: &'a R,
    hold: &'a Hold,
    names: &mut SendEnd,
    requests: &mut RecvEnd,
    answers: &mut SendEnd,
    items: &'a str,
) -> Result<(), Fault>
    ensures names { IsSameOutbox names.old names.new }
    ensures requests { IsSameSide requests.old requests.new }
    ensures answers { IsSameOutbox answers.old answers.new }
{
    let (offered, served) = join_mut(
        rt,
        &mut || hold.give_up_at(offer(rt, names, items)),
        &mut || hold.give_up_at(serve(rt, requests, answers, items)),
    );
    both(offered, served)
}

// Asks for the items that this side lacks, and answers them.
fn gain<'a, R: Threads + Wait + Sync>(
    rt: &'a R,
    alloc: Global,
    hold: &'a Hold,
    names: &mut RecvEnd,
    requests: &mut SendEnd,
    answers: &mut RecvEnd,
    items: &'a str,
) -> Result<String, Fault>
    ensures names { IsSameSide names.old names.new }
    ensures requests { IsSameOutbox requests.old requests.new }
    ensures answers { IsSameSide answers.old answers.new }
{
    let (asked, collected) = join_mut(
        rt,
        &mut || hold.give_up_at(ask(rt, names, requests, items)),
        &mut || hold.give_up_at(collect(rt, alloc, answers, items)),
    );
    both(asked, collected)
}

// All tasks, each with ends of its own. When they are done the session is stopped: what is queued is
// still written, and then the writing pump ends.
fn work<'a, R: Threads + Wait + Sync>(
    rt: &'a R,
    alloc: Global,
    hold: &'a Hold,
    send_ends: [SendEnd; CHANNELS],
    recv_ends: [RecvEnd; CHANNELS],
    items: &'a str,
) -> (
    Result<String, Fault>,
    [SendEnd; CHANNELS],
    [RecvEnd; CHANNELS],
)
    ensures sending { AllZip IsSameOutbox send_ends result.1 }
    ensures receiving { AllZip IsSameSide recv_ends result.2 }
{
    let (mut names, mut answers, a, b, c, mut requests, d) = apart(send_ends);
    let (mut their_names, mut their_answers, e, f, g, mut their_requests, h) = apart(recv_ends);
    let (gave, gained) = join_mut(
        rt,
        &mut || give(
            rt,
            hold,
            &mut names,
            &mut their_requests,
            &mut answers,
            items,
        ),
        &mut || gain(
            rt,
            alloc,
            hold,
            &mut their_names,
            &mut requests,
            &mut their_answers,
            items,
        ),
    );
    hold.session.stop();
    let send_ends = [names, answers, a, b, c, requests, d];
    let recv_ends = [their_names, their_answers, e, f, g, their_requests, h];
    (both(gave, gained), send_ends, recv_ends)
}

// Both pumps, until the session is stopped and the other side's stream has ended.
fn pump<'a, R: Threads + Wait + Clock + Sync>(
    rt: &'a R,
    alloc: Global,
    hold: &'a Hold,
    mut reading: ReadPump,
    mut writing: WritePump,
) -> (Result<(), Fault>, ReadPump, WritePump)
    ensures reading { IsSameReading reading.side result.1.side }
    ensures writing { IsSamePump writing result.2 }
{
    let (wrote, heard) = join_mut(
        rt,
        &mut || hold.give_up_at(write(rt, hold, &mut writing)),
        &mut || hold.give_up_at(read(rt, alloc, hold, &mut reading)),
    );
    (both(wrote, heard), reading, writing)
}

// All parts of a session at work, until both sides are done: the items that this one lacked, and the
// parts, back from their threads.
fn exchange<'a, R: Threads + Wait + Clock + Sync>(
    rt: &'a R,
    alloc: Global,
    parts: Parts,
    socket: TcpStream,
    deadline: Deadline,
    items: &'a str,
) -> (Result<String, Fault>, Parts)
    requires { AreOfOneSession (state_of parts) }
    ensures { AreOfOneSession (state_of result.1) }
{
    let Parts {
        session,
        send_ends,
        recv_ends,
        read_pump,
        write_pump,
    } = parts;
    let hold = Hold {
        session,
        socket,
        deadline,
    };
    // Where no thread can be made, `join` runs the first after the second. No wait may come before
    // the pumps, so they are second: they end by patience then.
    let ((worked, send_ends, recv_ends), (pumped, read_pump, write_pump)) = join(
        rt,
        || -> (
            Result<String, Fault>,
            [SendEnd; CHANNELS],
            [RecvEnd; CHANNELS],
        )
            ensures { AllZip IsSameOutbox send_ends result.1 × AllZip IsSameSide recv_ends result.2 }
        { work(rt, alloc, &hold, send_ends, recv_ends, items) },
        || -> (Result<(), Fault>, ReadPump, WritePump)
            ensures { IsSameReading read_pump.side result.1.side × IsSamePump write_pump result.2 }
        { pump(rt, alloc, &hold, read_pump, write_pump) },
    );
    let parts = Parts {
        session: hold.session,
        send_ends,
        recv_ends,
        read_pump,
        write_pump,
    };
    (both(pumped, worked), parts)
}

/// Makes the lists of both sides equal, and finishes the session.
pub fn sync<'a, R: Threads + Wait + Clock + Sync>(
    rt: &'a R,
    alloc: Global,
    socket: TcpStream,
    items: &'a str,
) -> Result<Synced, Fault> {
    let deadline = Deadline::new(rt)?;
    socket.set_nodelay(true)?;
    let config = Config {
        version: Version::One,
        capacities: [RING; CHANNELS],
        slots: SLOTS,
    };
    let Ok(parts) = Session::new(alloc, config) else {
        return Err(Fault::OutOfMemory);
    };
    let (lacked, parts) = exchange(rt, alloc, parts, socket, deadline, items);
    let report = finish(rt, parts);
    Ok(Synced {
        lacked,
        left: report.left,
        partly: report.partly,
    })
}
