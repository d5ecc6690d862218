//! Permits: what they hold, whom they hold up, and who takes nothing of it.
use super::answers;
use super::plays::session;
use std::test::Fail;

// A permit holds its guarantees and a slot until it is used or given back: 16 slots, of which 2 are shared.
const PERMITS: &str = "issued 1 100 => arrived
issued 2 100 => arrived
reserve 1 1 60 => granted
aside 1 => 1 60 40
send 1 2 41 => waits
try 1 1 => lacks a slot
reserve 2 3 10 => granted
reserve 2 4 10 => granted
tryreserve 2 10 => granted
tryreserve 2 10 => lacks a slot
aside 2 => 3 30 70
reserve 2 5 70 => waits
absolve 2 71 => refused 6 70
absolve 2 101 => refused 6 100
use 1 60 61 => refused 4 60
use 1 61 1 => refused 4 0
use 1 60 0 => refused 1
use 2 10 10 => sent
notice => nothing
out => 2 10
notice => 2 5 completed
aside 2 => 3 90 0
use 1 60 20 => sent
aside 1 => 0 0 80
notice => nothing
back 1 60 => was not out
use 1 60 20 => refused 4 0
out => 1 20
notice => 1 2 completed
back 2 10 => was out
notice => nothing
aside 2 => 2 80 10
back 2 70 => was out
use 2 10 10 => sent
aside 2 => 0 0 80
absolve 2 81 => refused 6 80
absolve 2 80 => put
out => 1 41
out => 2 10
out => control
out => nothing
";

// A channel's permit leaves its own slot, and the channels' own slots are not taken: 14 slots, of which none is shared.
const OWN: &str = "issued 1 100 => arrived
issued 2 100 => arrived
reserve 1 1 5 => granted
reserve 1 2 5 => waits
send 2 3 5 => proceeded
send 2 4 5 => waits
use 1 5 5 => sent
notice => nothing
out => 2 5
notice => 2 4 completed
out => 1 5
notice => 1 2 completed
cancel 1 2 => did not wait
send 1 5 5 => waits
cancel 1 5 => waited
reserve 1 6 5 => waits
cancel 1 6 => waited
back 1 5 => was out
notice => nothing
send 1 7 5 => proceeded
";

// The message of a permit enters whatever is queued, and its bytes count then. A permit that is out counts none.
const EXEMPT: &str = "issued 1 200000 => arrived
issued 2 200000 => arrived
reserve 1 1 60000 => granted
send 2 2 65536 => proceeded
reserve 1 3 1 => waits
use 1 60000 60000 => sent
notice => nothing
send 2 4 5536 => waits
out => 2 65536
left 5536 => noted
notice => nothing
left 5535 => noted
notice => 1 3 completed
notice => nothing
left 1 => noted
notice => nothing
left 0 => noted
notice => 2 4 completed
out => 1 60000
out => 2 5536
out => nothing
";

// Calls that ask for permits and for messages take turns, and those of a channel keep their order. A message by a permit
// takes no turn.
const TURNS: &str = "reserve 1 1 10 => waits
send 1 2 10 => waits
offer 1 3 10 => waits
reserve 1 4 5 => waits
issued 1 19 => arrived
notice => 1 1 completed
notice => nothing
issued 1 11 => arrived
notice => 1 2 completed
notice => 1 3 notified
complete 1 3 10 => proceeded
notice => nothing
issued 1 5 => arrived
notice => 1 4 completed
out => 1 10
out => 1 10
use 1 5 5 => sent
use 1 10 10 => sent
out => 1 5
out => 1 10
";

// Control frames leave the slots of permits and the channels' own: 14 slots, of which none is shared.
const CONTROLS: &str = "issued 1 100 => arrived
issued 2 100 => arrived
reserve 1 1 5 => granted
receiving 0 7 => put
receiving 0 6 => put
receiving 0 5 => put
receiving 0 4 => put
receiving 0 3 => put
receiving 0 2 => put
receiving 0 1 => put
receiving 0 0 => refused 13
absolve 1 96 => refused 6 95
absolve 1 95 => refused 13
pleaded 1 94 => arrived
honour 1 => refused 13
use 1 5 5 => sent
receiving 0 0 => refused 13
send 2 2 5 => proceeded
receiving 0 0 => refused 13
out => control
receiving 0 0 => put
";

// An honour takes nothing that permits set aside, and keeps the plead where it would.
const HONOURS: &str = "issued 1 100 => arrived
honour 1 => absolved nothing
pleaded 1 20 => arrived
reserve 1 1 30 => granted
honour 1 => refused 6 70
use 1 30 5 => sent
honour 1 => absolved 75
aside 1 => 0 0 20
honour 1 => absolved nothing
out => 1 5
out => control
out => nothing
reserve 1 2 20 => granted
pleaded 1 10 => arrived
honour 1 => refused 6 0
back 1 20 => was out
honour 1 => absolved 10
out => control
reserve 1 3 10 => granted
pleaded 1 10 => arrived
honour 1 => absolved nothing
finish 1 4 => waits
honour 1 => absolved nothing
back 1 10 => was out
notice => 1 4 completed
honour 1 => refused 15
";

#[test]
fn a_permit_holds_guarantees_and_a_slot(rt: HostRuntime) -> Result<(), Fail> {
    let alloc = rt.alloc();
    answers(&rt, alloc, &mut session(alloc, 16)?, PERMITS);
    Ok(())
}

#[test]
fn a_permit_takes_its_channels_own_slot(rt: HostRuntime) -> Result<(), Fail> {
    let alloc = rt.alloc();
    answers(&rt, alloc, &mut session(alloc, 14)?, OWN);
    Ok(())
}

#[test]
fn a_permit_is_used_whatever_is_queued(rt: HostRuntime) -> Result<(), Fail> {
    let alloc = rt.alloc();
    answers(&rt, alloc, &mut session(alloc, 64)?, EXEMPT);
    Ok(())
}

#[test]
fn permits_are_granted_in_line(rt: HostRuntime) -> Result<(), Fail> {
    let alloc = rt.alloc();
    answers(&rt, alloc, &mut session(alloc, 64)?, TURNS);
    Ok(())
}

#[test]
fn control_frames_leave_slots_to_permits(rt: HostRuntime) -> Result<(), Fail> {
    let alloc = rt.alloc();
    answers(&rt, alloc, &mut session(alloc, 14)?, CONTROLS);
    Ok(())
}

#[test]
fn an_honour_spares_permits(rt: HostRuntime) -> Result<(), Fail> {
    let alloc = rt.alloc();
    answers(&rt, alloc, &mut session(alloc, 14)?, HONOURS);
    Ok(())
}
