//! Queues: an Issue in, and out again, in one thread; and Issues of four threads, which a fifth
//! takes out.
use crate::figures::{Due, Figure, Turns, middle, nanoseconds};
use crate::frames::{Inlet, Outlet, new_lanes, new_shared};
use crate::plan::Plan;
use std::alloc::Global;
use std::sync::Wait;
use std::thread::{JoinHandle, Threads};
use std::time::{Clock, Instant};
use std::{io, thread};

/// The frames that each of four threads puts where time is taken.
const TURNS: u64 = 50_000;

// A way through a queue in one thread.
#[derive(Drop)]
struct Passing<I, O, R: Wait + Copy> {
    inlet: I,
    outlet: O,
    rt: R,
}

impl<I: Inlet, O: Outlet, R: Wait + Copy> Turns for Passing<I, O, R> {
    fn run(&mut self, turns: u64, sum: &mut u64) -> io::Result<()> {
        for _ in 0..turns {
            if !self.inlet.put(&self.rt) || !self.outlet.take(&self.rt) {
                return Err(io::Error::other("a frame did not pass"));
            }
            *sum = sum.wrapping_add(1);
        }
        Ok(())
    }
}

// Puts a frame, and yields the processor while there is no room.
fn put_one<R: Wait, I: Inlet>(rt: &R, inlet: &mut I) {
    for _ in rt.forever() {
        if inlet.put(rt) {
            return;
        }
        thread::yield_now();
    }
}

fn put_all<R: Wait, I: Inlet>(rt: &R, mut inlet: I, count: u64) -> I {
    for _ in 0..count {
        put_one(rt, &mut inlet);
    }
    inlet
}

// Takes a frame out, and yields the processor while there is none.
fn take_one<R: Wait, O: Outlet>(rt: &R, outlet: &mut O) {
    for _ in rt.forever() {
        if outlet.take(rt) {
            return;
        }
        thread::yield_now();
    }
}

fn take_all<R: Wait, O: Outlet>(rt: &R, outlet: &mut O, count: u64) {
    for _ in 0..count {
        take_one(rt, outlet);
    }
}

// A thread for each inlet puts so many frames, and this one takes them out. The inlets come back.
fn cross<R, I, O>(
    rt: R,
    alloc: Global,
    inlets: Vec<I>,
    outlet: &mut O,
    turns: u64,
) -> io::Result<Vec<I>>
where
    R: Threads + Wait + Copy + Send + 'static,
    I: Inlet + Drop + Send + 'static,
    O: Outlet,
{
    let count = turns.saturating_mul(inlets.len() as u64);
    let mut threads: Vec<JoinHandle<I>> = Vec::new(alloc);
    for inlet in inlets {
        threads.push(thread::spawn(&rt, move || put_all(&rt, inlet, turns))?)?;
    }
    take_all(&rt, outlet, count);
    let mut back = Vec::new(alloc);
    for thread in threads {
        back.push(thread.join(&rt))?;
    }
    Ok(back)
}

// The seconds of one frame of each inlet: the middle of all repetitions.
fn seconds<R, I, O>(
    rt: R,
    alloc: Global,
    plan: &Plan,
    inlets: Vec<I>,
    outlet: &mut O,
) -> io::Result<f64>
where
    R: Threads + Wait + Clock + Copy + Send + 'static,
    I: Inlet + Drop + Send + 'static,
    O: Outlet,
{
    let mut inlets = inlets;
    let mut taken = Vec::new(alloc);
    for _ in 0..plan.reps {
        let start = Instant::now(&rt)?;
        inlets = cross(rt, alloc, inlets, outlet, TURNS)?;
        taken.push(nanoseconds(start.elapsed(&rt)?))?;
    }
    middle(taken, TURNS)
}

// Takes the figure of a queue in one thread.
fn measure_alone<R, I, O>(
    rt: R,
    host: &HostRuntime,
    plan: &Plan,
    name: &str,
    (mut inlets, outlet): (Vec<I>, O),
) -> io::Result<()>
where
    R: Wait + Copy,
    I: Inlet + Drop,
    O: Outlet + Drop,
{
    let Some(inlet) = inlets.pop() else {
        return Ok(());
    };
    let figure = Figure {
        name,
        things: "frames",
        count: 1,
        bytes: None,
    };
    figure.take(host, plan, &mut Passing { inlet, outlet, rt })
}

// Takes the figure of a queue in threads, one for each inlet.
fn measure_threads<R, I, O>(
    rt: R,
    host: &HostRuntime,
    plan: &Plan,
    name: &str,
    (inlets, mut outlet): (Vec<I>, O),
) -> io::Result<()>
where
    R: Threads + Wait + Clock + Copy + Send + 'static,
    I: Inlet + Drop + Send + 'static,
    O: Outlet + Drop,
{
    let figure = Figure {
        name,
        things: "frames",
        count: inlets.len(),
        bytes: None,
    };
    match figure.begin(host, plan)? {
        Due::Nothing => Ok(()),
        Due::Turns(turns) => {
            cross(rt, host.alloc(), inlets, &mut outlet, turns)?;
            Ok(())
        }
        Due::Seconds => {
            let turn = seconds(rt, host.alloc(), plan, inlets, &mut outlet)?;
            figure.print(host, turn)
        }
    }
}

/// Takes the figures of both queues.
pub fn measure_queues<R>(rt: R, host: &HostRuntime, plan: &Plan) -> io::Result<()>
where
    R: Threads + Wait + Clock + Copy + Send + 'static,
{
    let alloc = host.alloc();
    measure_alone(rt, host, plan, "queue.push_pop", new_lanes(alloc, 1)?)?;
    measure_alone(
        rt,
        host,
        plan,
        "array_queue.push_pop",
        new_shared(alloc, 1)?,
    )?;
    measure_threads(rt, host, plan, "queue.4to1", new_lanes(alloc, 4)?)?;
    measure_threads(rt, host, plan, "array_queue.4to1", new_shared(alloc, 4)?)
}
