//! Limits on sending and finishes: what they wait for, and what waits for them.
use super::answers;
use super::plays::{session, session_as};
use lc_frame::Version;
use std::test::Fail;

// A bound waits until no permit of its channel is out, and holds up its own channel alone.
const LIMITS: &str = "issued 1 100 => arrived
limit 1 1 50 => proceeded
reserve 1 2 30 => granted
aside 1 => 1 30 20
try 1 21 => lacks 1
try 1 51 => refused 3
try 1 20 => sent
aside 1 => 1 30 0
send 1 3 30 => waits
use 1 30 29 => sent
notice => 1 3 hopeless
tryreserve 1 1 => granted
limit 1 4 0 => waits
finish 1 5 => waits
notice => nothing
issued 2 9 => arrived
reserve 2 6 9 => granted
finish 2 7 => waits
send 2 8 1 => waits
try 2 1 => lacks 1
use 1 1 1 => sent
notice => 1 4 completed
notice => 1 5 completed
notice => nothing
use 2 9 4 => sent
notice => 2 7 completed
notice => 2 8 hopeless
aside 2 => 0 0 0
reserve 2 9 9 => refused 15
use 2 9 9 => refused 15
finish 2 9 => refused 15
limit 2 9 0 => refused 15
out => limit 1 50
out => 1 20
out => 1 29
out => 1 1
out => limit 1 0
out => finish 1
out => 2 4
out => finish 2
out => nothing
tryreserve 3 0 => refused 1
reserve 3 5 1048577 => refused 2
tryreserve 3 7 => lacks 7
";

// A bound waits behind the calls that were there before it, and those behind it wait for the bound: 16 slots.
const BOUNDS: &str = "send 1 1 5 => waits
limit 1 2 3 => waits
send 1 3 3 => waits
send 1 4 1 => waits
notice => nothing
issued 1 4 => arrived
notice => nothing
issued 1 1 => arrived
notice => 1 1 completed
notice => 1 2 completed
notice => nothing
issued 1 3 => arrived
notice => 1 3 completed
notice => 1 4 hopeless
notice => nothing
out => 1 5
out => limit 1 3
out => 1 3
out => nothing
issued 2 10 => arrived
offer 2 5 3 => waits
notice => 2 5 notified
finish 2 6 => waits
offer 2 7 1 => waits
notice => nothing
complete 2 5 2 => proceeded
notice => 2 6 completed
notice => 2 7 hopeless
out => 2 2
out => finish 2
out => nothing
issued 3 1 => arrived
offer 3 8 1 => waits
notice => 3 8 notified
limit 3 9 0 => waits
cancel 3 8 => waited
notice => 3 9 completed
out => limit 3 0
";

// A bound that its book refuses is refused at once, and else once it is the first of its channel.
const RAISED: &str = "limit 1 1 4611686018427387905 => refused 7
limit 1 2 4611686018427387904 => proceeded
limit 1 3 20 => proceeded
limit 1 4 21 => refused 8
issued 1 10 => arrived
reserve 1 5 2 => granted
limit 1 6 5 => waits
limit 1 7 6 => waits
limit 1 8 4 => waits
finish 1 9 => waits
finish 1 10 => waits
limit 1 11 0 => waits
cancel 1 8 => waited
notice => nothing
back 1 2 => was out
notice => 1 6 completed
notice => 1 7 hopeless
notice => 1 9 completed
notice => 1 10 hopeless
notice => 1 11 hopeless
notice => nothing
out => limit 1 4611686018427387904
out => limit 1 20
out => limit 1 5
out => finish 1
out => nothing
";

// What waits in front of a limit may use up what an earlier one leaves: 20, of which 15 are sent first.
const USED_UP: &str = "limit 1 1 20 => proceeded
send 1 2 15 => waits
limit 1 3 6 => waits
limit 1 4 5 => waits
issued 1 15 => arrived
notice => 1 2 completed
notice => 1 3 hopeless
notice => 1 4 completed
out => limit 1 20
out => 1 15
out => limit 1 5
out => nothing
";

// A bound waits for a slot for a control frame, and takes it where it becomes free: 14 slots, of which none is shared.
const ENDS: &str = "issued 1 5 => arrived
receiving 0 7 => put
receiving 0 6 => put
receiving 0 5 => put
receiving 0 4 => put
receiving 0 3 => put
receiving 0 2 => put
receiving 0 1 => put
receiving 0 0 => refused 13
limit 1 1 9 => waits
finish 2 2 => waits
send 1 3 5 => waits
notice => nothing
out => control
notice => 1 1 completed
notice => 1 3 completed
notice => nothing
receiving 0 0 => refused 13
out => control
notice => 2 2 completed
receiving 0 0 => refused 13
out => control
receiving 0 0 => put
";

// A bound that waits takes no turn from another channel.
const PATIENT: &str = "issued 1 100 => arrived
issued 2 100 => arrived
reserve 1 1 5 => granted
send 2 2 3 => proceeded
finish 1 3 => waits
send 2 4 3 => proceeded
notice => nothing
back 1 5 => was out
notice => 1 3 completed
out => 2 3
out => 2 3
out => finish 1
out => nothing
";

// A bound that is put counts as no turn: Data sent less recently than Overlap, and is first.
const TURNLESS: &str = "issued 1 200000 => arrived
issued 2 200000 => arrived
issued 3 200000 => arrived
send 1 1 1 => proceeded
send 2 2 1 => proceeded
send 3 3 65534 => proceeded
limit 1 4 100000 => proceeded
send 2 5 1 => waits
send 1 6 1 => waits
out => 1 1
notice => nothing
left 0 => noted
notice => 1 6 completed
notice => nothing
out => 2 1
left 0 => noted
notice => 2 5 completed
out => 3 65534
out => limit 1 100000
out => 1 1
out => 2 1
out => nothing
";

// A stream of version One has no Finish, and its limits wait as those of version Two.
const ONE: &str = "finish 1 1 => refused 17
send 1 2 4 => waits
finish 1 3 => refused 17
limit 1 4 0 => waits
issued 1 4 => arrived
notice => 1 2 completed
notice => 1 4 completed
send 1 5 1 => refused 3
out => 1 4
out => limit 1 0
";

#[test]
fn a_bound_waits_for_permits(rt: HostRuntime) -> Result<(), Fail> {
    let alloc = rt.alloc();
    answers(&rt, alloc, &mut session(alloc, 64)?, LIMITS);
    Ok(())
}

#[test]
fn a_bound_waits_in_line(rt: HostRuntime) -> Result<(), Fail> {
    let alloc = rt.alloc();
    answers(&rt, alloc, &mut session(alloc, 16)?, BOUNDS);
    Ok(())
}

#[test]
fn a_bound_that_its_book_refuses_is_given_up(rt: HostRuntime) -> Result<(), Fail> {
    let alloc = rt.alloc();
    answers(&rt, alloc, &mut session(alloc, 64)?, RAISED);
    answers(&rt, alloc, &mut session(alloc, 64)?, USED_UP);
    Ok(())
}

#[test]
fn a_bound_waits_for_a_slot(rt: HostRuntime) -> Result<(), Fail> {
    let alloc = rt.alloc();
    answers(&rt, alloc, &mut session(alloc, 14)?, ENDS);
    Ok(())
}

#[test]
fn a_bound_takes_no_turn(rt: HostRuntime) -> Result<(), Fail> {
    let alloc = rt.alloc();
    answers(&rt, alloc, &mut session(alloc, 64)?, PATIENT);
    answers(&rt, alloc, &mut session(alloc, 64)?, TURNLESS);
    Ok(())
}

#[test]
fn a_stream_of_version_one_has_limits_alone(rt: HostRuntime) -> Result<(), Fail> {
    let alloc = rt.alloc();
    answers(&rt, alloc, &mut session_as(alloc, Version::One, 14)?, ONE);
    Ok(())
}
