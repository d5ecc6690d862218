//! The credit of a channel in one thread, and beside it a bare step on an atomic word.
ghost use Rattle.std.specs.Prelude.{◌<◌, ◌≤◌};
ghost use Rattle.lc_frame.specs.Kind.{max_amount};

use crate::figures::{Figure, Turns};
use crate::plan::Plan;
use lc_credit::{CreditIn, CreditOut, CreditParts, credits};
use lc_frame::Channel;
use std::io;
use std::sync::atomic::{AtomicU64, Ordering};

/// The calls of a turn.
const CALLS: u32 = 1_000;

/// What one call adds or spends.
const AMOUNT: u32 = 16;

const CHANNEL: Channel = Channel::Data;

// Which of both sides a turn is made of. The other makes one call for all of them.
#[derive(Clone, Copy)]
enum CreditSide {
    Spends,
    Adds,
}

// A credit, one side of which is measured.
#[derive(Drop)]
struct Crediting {
    parts: CreditParts,
    side: CreditSide,
}

impl Turns for Crediting {
    fn run(&mut self, turns: u64, sum: &mut u64) -> io::Result<()> {
        let side = self.side;
        for _ in 0..turns {
            let went_well = match side {
                CreditSide::Spends => spending_turn(&mut self.parts),
                CreditSide::Adds => adding_turn(&mut self.parts),
            };
            if !went_well {
                return Err(io::Error::other("a call was refused"));
            }
            *sum = sum.wrapping_add(1);
        }
        Ok(())
    }
}

fn spending_turn(parts: &mut CreditParts) -> bool {
    if !add_each(&mut parts.incoming, 1, AMOUNT * CALLS) {
        return false;
    }
    spend_each(&mut parts.outgoing[CHANNEL.index()], CALLS, AMOUNT)
}

fn adding_turn(parts: &mut CreditParts) -> bool {
    if !add_each(&mut parts.incoming, CALLS, AMOUNT) {
        return false;
    }
    spend_each(&mut parts.outgoing[CHANNEL.index()], 1, AMOUNT * CALLS)
}

// Adds an amount so many times, and says whether it came to that.
#[inline(never)]
fn add_each(incoming: &mut CreditIn, calls: u32, amount: u32) -> bool
    requires { amount ≤ max_amount }
{
    for _ in 0..calls {
        if let Err(_) = incoming.add(CHANNEL, amount) {
            return false;
        }
    }
    true
}

// Spends an amount so many times, and says whether it came to that.
#[inline(never)]
fn spend_each(end: &mut CreditOut, calls: u32, amount: u32) -> bool
    requires { 0 < amount }
{
    for _ in 0..calls {
        if !spend(end, amount) {
            return false;
        }
    }
    true
}

#[inline]
fn spend(end: &mut CreditOut, amount: u32) -> bool
    requires { 0 < amount }
{
    if end.pending().is_some() || end.is_finished() {
        return false;
    }
    match end.spend(amount) {
        Ok(()) => {
            end.confirm();
            true
        }
        Err(_) => false,
    }
}

// A word that steps are made on.
#[derive(Drop)]
struct Word {
    word: AtomicU64,
}

impl Turns for Word {
    fn run(&mut self, turns: u64, sum: &mut u64) -> io::Result<()> {
        for _ in 0..turns {
            for _ in 0..CALLS {
                *sum = self.word.fetch_sub(1, Ordering::SeqCst);
            }
        }
        Ok(())
    }
}

fn measure<T: Turns>(rt: &HostRuntime, plan: &Plan, name: &str, subject: &mut T) -> io::Result<()> {
    let figure = Figure {
        name,
        things: "calls",
        count: CALLS as usize,
        bytes: None,
    };
    figure.take(rt, plan, subject)
}

/// Takes the figures of a credit.
pub fn measure_credits(rt: &HostRuntime, plan: &Plan) -> io::Result<()> {
    let mut crediting = Crediting {
        parts: credits(rt.alloc())?,
        side: CreditSide::Spends,
    };
    measure(rt, plan, "credit.spend_confirm", &mut crediting)?;
    crediting.side = CreditSide::Adds;
    measure(rt, plan, "credit.add", &mut crediting)?;
    let mut word = Word {
        word: AtomicU64::new(0),
    };
    measure(rt, plan, "word.fetch_sub", &mut word)
}
