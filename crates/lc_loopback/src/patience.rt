//! How an end passes the time while there is nothing for it to do.
ghost use Rattle.std.specs.Prelude.{◌≡◌};

use crate::hold::Hold;
use lc_loopback_report::LoopFault;
use lc_session::{RecvEnd, SendEnd};
use lc_wake::Wake;
use std::sync::Wait;
use std::thread;

/// An end that can sleep until something comes.
pub(crate) trait Sleeper {
    fn sleep<R: Wait>(&mut self, rt: &R) -> Wake
        ensures same { self.new ≡ self.old };
}

impl Sleeper for SendEnd {
    fn sleep<R: Wait>(&mut self, rt: &R) -> Wake {
        self.wait(rt)
    }
}

impl Sleeper for RecvEnd {
    fn sleep<R: Wait>(&mut self, rt: &R) -> Wake {
        self.wait(rt)
    }
}

/// How an end passes the time.
#[derive(Clone, Copy)]
pub(crate) enum Patience<'a> {
    /// It sleeps until something comes.
    Sleeps,
    /// It yields the processor and looks again, so many times in all, or until a thread has failed.
    Polls { turns: u32, hold: &'a Hold },
}

impl Patience<'_> {
    /// Passes the time once. The fault is that nothing more comes.
    pub(crate) fn pause<R: Wait, E: Sleeper>(
        &mut self,
        rt: &R,
        end: &mut E,
    ) -> Result<(), LoopFault>
        ensures same { end.new ≡ end.old }
    {
        match self {
            Patience::Sleeps if end.sleep(rt) == Wake::Over => Err(LoopFault::Over),
            Patience::Sleeps => Ok(()),
            Patience::Polls { hold, .. } if hold.is_stopped() => Err(LoopFault::Over),
            Patience::Polls { turns, .. } => {
                *turns = turns.checked_sub(1).ok_or(LoopFault::TurnsSpent)?;
                thread::yield_now();
                Ok(())
            }
        }
    }
}
