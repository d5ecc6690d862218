//! Threads that share the credits of all channels.
ghost use Rattle.std.specs.Prelude.{◌≡◌, ℕ, ◌<◌, map, length, slice_index_or, All};
ghost use Rattle.lc_credit.specs.Sides.{Outgoing, IsIdle, IsUnfinished};
ghost use Rattle.lc_credit.specs.Channels.{credit_out, AreMatched, SameCredit, SameCredits};

use lc_credit::{Balance, CreditIn, CreditOut, CreditParts, credits, settle};
use lc_frame::{CHANNELS, Channel};
use std::alloc::{AllocError, Global};
use std::thread;
use std::thread::{Threads, join};

// The guarantees of a round on each channel: the end spends some and absolves the rest.
const SPENT: u32 = 2;

const ABSOLVED: u32 = 1;

// How often an end tries in vain before it gives up.
const PATIENCE: u64 = 1 << 32;

/// Whether the balances of all channels agree with so many rounds: one thread receives on all
/// channels, and pleads with the round's number, while for each channel one uses up what
/// comes, until nothing is left and the last target was taken.
pub fn balances_agree<R: Threads + Sync>(
    rt: &R,
    alloc: Global,
    rounds: u32,
) -> Result<bool, AllocError> {
    let parts = meanwhile(rt, credits(alloc)?, rounds);
    let rounds = u64::from(rounds);
    let want = Balance {
        received: rounds * u64::from(SPENT + ABSOLVED),
        held: 0,
        spent: rounds * u64::from(SPENT),
        absolved: rounds * u64::from(ABSOLVED),
        waived: 0,
    };
    let balances = settle(parts);
    Ok(balances.iter().all(|balance| *balance == want))
}

// Both sides at work, in threads of their own.
fn meanwhile<R: Threads + Sync>(rt: &R, parts: CreditParts, rounds: u32) -> CreditParts
    requires matched { AreMatched parts.incoming parts.outgoing }
    requires idle { All IsIdle parts.outgoing }
    requires unfinished { All IsUnfinished parts.outgoing }
    ensures matched { AreMatched result.incoming result.outgoing }
    ensures idle { All IsIdle result.outgoing }
{
    let CreditParts { incoming, outgoing } = parts;
    let (incoming, outgoing) = join(
        rt,
        || -> CreditIn
            ensures { SameCredits incoming result }
        { receive_all(incoming, rounds) },
        || -> [CreditOut; CHANNELS]
            requires { All IsIdle outgoing × All IsUnfinished outgoing }
            ensures { (map credit_out result ≡ map credit_out outgoing) × All IsIdle result }
        { use_all(rt, outgoing, rounds) },
    );
    CreditParts { incoming, outgoing }
}

fn receive_all(mut incoming: CreditIn, rounds: u32) -> CreditIn
    ensures { SameCredits incoming result }
{
    for round in 0..rounds {
        receive_round(&mut incoming, round);
    }
    incoming
}

fn receive_round(incoming: &mut CreditIn, round: u32)
    ensures { SameCredits incoming.old incoming.new }
{
    for channel in Channel::ALL {
        receive(incoming, channel, round);
    }
}

// What is refused is missing from the balance.
fn receive(incoming: &mut CreditIn, channel: Channel, round: u32)
    ensures { SameCredits incoming.old incoming.new }
{
    let _added = incoming.add(channel, SPENT + ABSOLVED);
    incoming.ask(channel, round & 0xff_ffff);
}

fn use_all<R: Threads + Sync>(
    rt: &R,
    mut outgoing: [CreditOut; CHANNELS],
    rounds: u32,
) -> [CreditOut; CHANNELS]
    requires idle { All IsIdle outgoing }
    requires unfinished { All IsUnfinished outgoing }
    ensures same { map credit_out result ≡ map credit_out outgoing }
    ensures idle { All IsIdle result }
{
    use_each(rt, &mut outgoing, rounds);
    outgoing
}

// Each end in a thread of its own.
fn use_each<R: Threads + Sync>(rt: &R, ends: &mut [CreditOut; CHANNELS], rounds: u32)
    requires idle { All IsIdle ends.old }
    requires unfinished { All IsUnfinished ends.old }
    ensures len { length ends.new ≡ length ends.old }
    ensures same { (k : ℕ) (d : Outgoing) → k < length ends.old → SameCredit (slice_index_or ends.old k d) (slice_index_or ends.new k d) }
    ensures idle { All IsIdle ends.new }
{
    thread::for_each_mut(rt, ends, CHANNELS, &|_, end| use_up(end, rounds));
}

// Uses up what comes in so many rounds, and takes targets up to the last. Gives up on a target that
// is not above the one before it.
fn use_up(end: &mut CreditOut, rounds: u32)
    requires idle { IsIdle end.old }
    requires unfinished { IsUnfinished end.old }
    ensures same { SameCredit end.old end.new }
    ensures idle { IsIdle end.new }
{
    let mut to_spend = rounds;
    let mut to_absolve = rounds;
    let mut last = None;
    'turns: for _ in 0..PATIENCE {
        let target = end.take_asked();
        if target.is_some() {
            if target <= last {
                return;
            }
            last = target;
        }
        if to_spend > 0 && spend(end) {
            to_spend -= 1;
        } else if to_absolve > 0 && absolve(end) {
            to_absolve -= 1;
        } else if to_spend == 0 && to_absolve == 0 && last == rounds.checked_sub(1) {
            break;
        } else {
            thread::yield_now();
        }
    }
}

// Spends what was given back once.
fn spend(end: &mut CreditOut) -> bool
    requires idle { IsIdle end.old }
    requires unfinished { IsUnfinished end.old }
    ensures same { SameCredit end.old end.new }
    ensures idle { IsIdle end.new }
    ensures unfinished { IsUnfinished end.new }
{
    if let Err(_) = end.spend(SPENT) {
        return false;
    }
    end.give_back();
    if let Err(_) = end.spend(SPENT) {
        return false;
    }
    end.confirm();
    true
}

fn absolve(end: &mut CreditOut) -> bool
    requires idle { IsIdle end.old }
    requires unfinished { IsUnfinished end.old }
    ensures same { SameCredit end.old end.new }
    ensures idle { IsIdle end.new }
    ensures unfinished { IsUnfinished end.new }
{
    if let Err(_) = end.absolve(ABSOLVED) {
        return false;
    }
    end.confirm();
    true
}
