//! A thread for each lane pushes, and one drains.
ghost use Rattle.std.specs.Prelude.{◌≡◌, [], ◌∷◌, ◌++◌, IfOk};
ghost use Rattle.std.specs.List.{All};
ghost use Rattle.lc_frame.specs.Frame.{lane_of, IsValid};
ghost use Rattle.lc_queue.specs.Parts.{IsSame, IsSameEnd};

use crate::frames::{number_of, numbered};
use lc_frame::{Frame, LANES, Version};
use lc_queue::{Drain, LaneEnd, LanesFault, lanes};
use std::alloc::{AllocError, Global};
use std::snapshot::Snapshot;
use std::sync::Wait;
use std::thread;
use std::thread::{Promise, PromisedHandle, Threads};

/// What comes back is the end of the same lane of the same queue.
#[derive(Drop)]
struct SameEnd(Snapshot<LaneEnd>);

impl Promise<LaneEnd> for SameEnd {
    ghost use Rattle.lc_queue.specs.Parts.{IsSameEnd};

    ghost kept_by = { λ p r. IsSameEnd p.0.value r };
}

type Pushing = PromisedHandle<LaneEnd, SameEnd>;

// Pushes a frame, and yields the processor as long as the queue is full.
fn push<R: Wait>(rt: &R, end: &mut LaneEnd, frame: Frame)
    requires valid { IsValid end.old.version frame }
    requires lane { lane_of frame ≡ end.old.lane }
    ensures { IsSameEnd end.old end.new }
{
    let mut frame = frame;
    for _ in rt.forever() {
        match end.push(rt, frame) {
            Ok(()) => return,
            Err(back) => frame = back,
        }
        thread::yield_now();
    }
    unreachable!()
}

// Pushes the frames 1 to `count` of the end's lane.
fn push_all<R: Wait>(rt: &R, mut end: LaneEnd, count: u32) -> LaneEnd
    ensures { IsSameEnd end result }
{
    for number in 1..=count {
        if let Some(frame) = numbered(end.version(), end.lane(), number) {
            push(rt, &mut end, frame);
        }
    }
    end
}

fn start<R>(rt: R, end: LaneEnd, count: u32) -> Result<Pushing, AllocError>
where
    R: Threads + Wait + Copy + Send + 'static,
    ensures { IfOk result (λ pushing. pushing.promise.0.value ≡ end) }
{
    let promise = SameEnd(Snapshot::of(&end));
    let pushing = thread::spawn_with(&rt, promise, move || push_all(&rt, end, count))?;
    Ok(pushing)
}

// A thread for each end.
fn start_all<R>(
    rt: R,
    alloc: Global,
    drain: &Drain,
    ends: [LaneEnd; LANES],
    count: u32,
) -> Result<Vec<Pushing>, AllocError>
where
    R: Threads + Wait + Copy + Send + 'static,
    requires { All (λ end. IsSame drain.now.queue end.queue) ends }
    ensures { IfOk result (λ all. All (λ pushing. IsSame drain.now.queue pushing.promise.0.value.queue) all.items) }
{
    let mut all = Vec::new(alloc);
    for end in ends {
        all.push(start(rt, end, count)?)?;
    }
    Ok(all)
}

// Pops so many frames, and yields the processor as long as the queue is empty. Whether each lane's
// frames came in order.
fn pop_all<R: Wait>(rt: &R, drain: &mut Drain, count: u64) -> bool
    ensures { IsSame drain.new.queue drain.old.queue }
{
    let mut last = [0u32; LANES];
    let mut in_order = true;
    let mut popped = 0u64;
    for _ in rt.forever() {
        if popped >= count {
            break;
        }
        match drain.pop(rt) {
            None => thread::yield_now(),
            Some(frame) => {
                let lane = usize::from(frame.lane());
                in_order &= number_of(&frame) == last[lane].wrapping_add(1);
                last[lane] = number_of(&frame);
                popped += 1;
            }
        }
    }
    in_order
}

// Ends each lane as its thread ends.
fn join_all<R: Threads>(rt: &R, drain: &mut Drain, all: Vec<Pushing>)
    requires { All (λ pushing. IsSame drain.old.queue pushing.promise.0.value.queue) all.items }
{
    for pushing in all {
        drain.join(pushing.join(rt));
    }
}

/// A thread for each lane pushes the frames 1 to `count`, through so many slots, and this
/// one pops them. Whether each lane's frames came whole and in order, and nothing else came.
pub fn keeps_order<R>(rt: R, alloc: Global, slots: u32, count: u32) -> Result<bool, LanesFault>
where
    R: Threads + Wait + Copy + Send + 'static,
{
    let parts = lanes(alloc, slots, Version::One)?;
    let mut drain = parts.drain;
    let all = start_all(rt, alloc, &drain, parts.ends, count)?;
    let in_order = pop_all(&rt, &mut drain, LANES as u64 * u64::from(count));
    join_all(&rt, &mut drain, all);
    Ok(in_order && drain.pop(&rt).is_none())
}
