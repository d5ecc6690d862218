//! A part of a session at work in a thread of its own.
ghost use Rattle.std.specs.Prelude.{◌≡◌, Err, IfOk};
ghost use Rattle.lc_loopback_report.specs.declared.fault.LoopFault.TheVariants.{OutOfMemory as NoMemory};
ghost use Rattle.lc_loopback.specs.declared.taken.Taken.{Taken as Count};

use crate::hold::Hold;
use crate::taken::Taken;
use lc_loopback_report::LoopFault;
use std::marker::Model;
use std::snapshot::Snapshot;
use std::sync::Wait;
use std::thread;
use std::thread::{Promise, PromisedHandle, Threads};

/// A part that a thread takes and gives back.
pub(crate) trait Part: Drop + 'static {
    // That it is still the same part of the same session.
    ghost same: { Self → Self → Type 0 };
    // What it did, where its work came to so much.
    ghost gives: { Self → Count → Self → Type 0 };
}

/// What a thread's work comes to: what it took.
pub(crate) type Outcome = Result<Taken, LoopFault>;

/// A part that does a job.
pub(crate) trait Worker<J>: Part + Send {
    fn work<R: Wait>(&mut self, rt: &R, hold: &Hold, job: J) -> Outcome
        ensures same { Self.same self.old self.new }
        ensures gives { IfOk result (λ n. Self.gives self.old n self.new) };
}

/// What a thread gives back.
#[derive(Drop)]
pub(crate) struct Done<W> {
    pub(crate) worker: W,
    pub(crate) outcome: Outcome,
}

/// The part that comes back is the one that went.
#[derive(Drop)]
pub(crate) struct Same<W>(Snapshot<W>);

impl<W: Part> Promise<Done<W>> for Same<W> {
    ghost use Rattle.std.specs.Prelude.{IfOk};

    ghost kept_by = { λ p r. W.same p.0.value r.worker × IfOk r.outcome (λ n. W.gives p.0.value n r.worker) };
}

/// A part at work. Contracts see the part as it went.
#[derive(Drop)]
pub(crate) struct Work<W: Part> {
    // The thread; or the part, back already, where none could be made.
    place: Result<PromisedHandle<Done<W>, Same<W>>, Done<W>>,
    given: Snapshot<W>,
}

impl<W: Part> Model for Work<W> {
    ghost use Rattle.std.specs.Prelude.{◌≡◌, IfOk, IfErr};

    ghost Value = { W };

    ghost view = { λ w. w.given.value };

    ghost invariant = { λ w. IfOk w.place (λ handle. handle.promise.0.value ≡ w.given.value) × IfErr w.place (λ done. W.same w.given.value done.worker × IfOk done.outcome (λ n. W.gives w.given.value n done.worker)) };
}

// Does the work. A worker that fails stops both sessions, or others would wait for it.
fn run<R: Wait, J, W: Worker<J>>(rt: &R, hold: &Hold, worker: W, job: J) -> Done<W>
    ensures same { W.same worker result.worker }
    ensures gives { IfOk result.outcome (λ n. W.gives worker n result.worker) }
{
    let mut worker = worker;
    let outcome = worker.work(rt, hold, job);
    if outcome.is_err() {
        hold.stop();
    }
    Done { worker, outcome }
}

// The same in a thread, which has a hold of its own.
fn run_there<R: Wait + Copy, J, W: Worker<J>>(rt: R, hold: Hold, worker: W, job: J) -> Done<W>
    ensures same { W.same worker result.worker }
    ensures gives { IfOk result.outcome (λ n. W.gives worker n result.worker) }
{
    run(&rt, &hold, worker, job)
}

// There was no thread for this work.
fn refused<W: Part>(done: Done<W>) -> Done<W>
    ensures { result ≡ record { worker = done.worker; outcome = Err NoMemory } }
{
    Done {
        worker: done.worker,
        outcome: Err(LoopFault::OutOfMemory),
    }
}

/// Starts the work in a thread. Where none can be made, both sessions are stopped, and the part does
/// here what it still can, which ends, since both writing pumps end.
pub(crate) fn start<R, J, W>(rt: R, hold: &Hold, worker: W, job: J) -> Work<W>
where
    R: Threads + Wait + Copy + Send + 'static,
    J: Send + Drop + 'static,
    W: Worker<J>,
    ensures { result ≡ worker }
{
    let given = Snapshot::of(&worker);
    let same = Same(Snapshot::of(&worker));
    let Ok(own) = hold.try_clone() else {
        hold.stop();
        let place = Err(refused(run(&rt, hold, worker, job)));
        return Work { place, given };
    };
    let place = match thread::spawn_with(&rt, same, move || run_there(rt, own, worker, job)) {
        Ok(handle) => Ok(handle),
        Err(error) => {
            hold.stop();
            Err(refused((error.value)()))
        }
    };
    Work { place, given }
}

/// Waits until the part is back.
pub(crate) fn join<R: Threads, W: Part>(rt: &R, work: Work<W>) -> Done<W>
    ensures same { W.same work result.worker }
    ensures gives { IfOk result.outcome (λ n. W.gives work n result.worker) }
{
    let Work { place, given: _ } = work;
    match place {
        Ok(handle) => handle.join(rt),
        Err(done) => done,
    }
}

/// Waits until the part is back, and lets it go: what its work came to.
pub(crate) fn join_outcome<R: Threads, W: Part>(rt: &R, work: Work<W>) -> Outcome {
    join(rt, work).outcome
}
