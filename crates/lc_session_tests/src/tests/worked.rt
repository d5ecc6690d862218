//! Worked sequences of calls, all in one thread.
use crate::tests::desk::{run, run_as};
use crate::tests::ran;
use lc_frame::Version;
use std::alloc::Global;
use std::process::Abort;
use std::sync::Wait;

/// Of each: the slots of the queue, the bytes that come, the calls with what they answer, and what
/// the report says then.
const WORKED: [(u32, &str, &str, &str); 18] = [
    // All that was put goes out in one write.
    (
        4,
        "2100000005",
        "send 1 6869 => Err(NoGuarantee { held: 0 })
        read 10 all => Clean
        send 1 6869 => Ok(())
        held 1 => 3
        issue 1 8 => Ok(())
        plead 1 8 => Err(NothingToAsk { outstanding: 8 })
        plead 1 3 => Ok(())
        limit-receiving 1 0 => Ok(())
        issue 1 1 => Err(PastReceiveLimit { left: 0 })
        stop => ()
        write all => Stopped 110002686921000000084100000003610000000000000000 calls 1 flushes 1",
        "client 1 => (5, 3, 2, 0, 0)
        server 1 => (8, 0, 8)
        client 0 => (0, 0, 0, 0, 0)
        server 2 => (0, 0, 0)
        left => (0, 0)",
    ),
    // An honour answers the plead once. What was not written is left.
    (
        4,
        "21000000054100000002",
        "read 10 all => Clean
        honour 1 => Ok(Some(3))
        honour 1 => Ok(None)
        held 1 => 2",
        "client 1 => (5, 2, 0, 3, 0)
        left => (1, 0)",
    ),
    // A full queue keeps the plead.
    (
        1,
        "21000000054100000002",
        "read 10 all => Clean
        limit-sending 1 9 => Ok(())
        limit-sending 1 8 => Ok(())
        honour 1 => Err(QueueFull)
        held 1 => 5
        stop => ()
        write all => Stopped 510000000000000009510000000000000008 calls 1 flushes 1
        honour 1 => Ok(Some(3))",
        "client 1 => (5, 2, 0, 3, 0)
        left => (1, 0)",
    ),
    // What is refused for a full queue is given back, at both kinds of ends.
    (
        1,
        "2100000005",
        "read 10 all => Clean
        issue 2 8 => Ok(())
        plead 2 7 => Ok(())
        limit-sending 1 9 => Ok(())
        limit-receiving 1 19 => Ok(())
        send 1 6869 => Err(QueueFull)
        absolve 1 5 => Err(QueueFull)
        limit-sending 1 0 => Err(QueueFull)
        issue 1 8 => Err(QueueFull)
        plead 2 0 => Err(QueueFull)
        limit-receiving 1 9 => Err(QueueFull)
        held 1 => 5
        server 1 => outstanding 0 buffered 0 None
        stop => ()
        write all => Stopped 22000000084200000007510000000000000009610000000000000013 calls 1 flushes 1
        send 1 6869 => Ok(())
        held 1 => 3",
        "client 1 => (5, 3, 2, 0, 0)
        server 1 => (0, 0, 0)
        server 2 => (8, 0, 8)
        left => (1, 0)",
    ),
    // Each lane has a place of its own beside the two that all share. More frames than have room at once go out
    // in order, and runs after a stop stop.
    (
        2,
        "",
        "issue 0 1 => Ok(())
        issue 6 2 => Ok(())
        issue 0 2 => Ok(())
        issue 6 1 => Ok(())
        issue 0 3 => Err(QueueFull)
        issue 6 3 => Err(QueueFull)
        issue 3 3 => Ok(())
        limit-sending 0 9 => Ok(())
        limit-sending 0 8 => Err(QueueFull)
        stop => ()
        write all => Stopped 20000000012600000002200000000226000000012300000003500000000000000009 calls 1 flushes 1
        issue 0 3 => Ok(())
        write all => Stopped 2000000003 calls 1 flushes 1
        write all => Stopped  calls 0 flushes 1",
        "server 0 => (6, 0, 6)
        server 3 => (3, 0, 3)
        server 6 => (3, 0, 3)
        left => (0, 0)",
    ),
    // A plead that finds no slot is kept until the next call, or until a newer one comes.
    (
        1,
        "210000000541000000024100000004",
        "read 10 1 => TurnsSpent
        limit-sending 1 9 => Ok(())
        limit-sending 1 8 => Ok(())
        honour 1 => Err(QueueFull)
        read 10 all => Clean
        honour 1 => Err(QueueFull)
        held 1 => 5
        stop => ()
        write all => Stopped 510000000000000009510000000000000008 calls 1 flushes 1
        honour 1 => Ok(Some(1))
        honour 1 => Ok(None)
        held 1 => 4",
        "client 1 => (5, 4, 0, 1, 0)
        left => (1, 0)",
    ),
    // A plead that asks nothing is forgotten without a slot.
    (
        1,
        "210000000541000000052100000001",
        "read 10 1 => TurnsSpent
        limit-sending 1 9 => Ok(())
        limit-sending 1 8 => Ok(())
        honour 1 => Ok(None)
        read 10 all => Clean
        honour 1 => Ok(None)
        held 1 => 6",
        "client 1 => (6, 6, 0, 0, 0)
        left => (2, 0)",
    ),
    // No message is empty, or too long.
    (
        4,
        "2100010000",
        "read 10 all => Clean
        send 1 => Err(EmptyBody)
        long 1 65536 => Err(BodyTooLong)
        long 1 65535 => Ok(())
        long 1 1 => Ok(())
        long 1 1 => Err(NoGuarantee { held: 0 })",
        "client 1 => (65536, 0, 65536, 0, 0)
        left => (2, 0)",
    ),
    // A limit on sending is never raised.
    (
        4,
        "2100000009",
        "read 10 all => Clean
        limit-sending 1 4611686018427387905 => Err(BoundTooLarge)
        limit-sending 1 4611686018427387904 => Ok(())
        limit-sending 1 4 => Ok(())
        send 1 0102030405 => Err(PastSendLimit { left: 4 })
        send 1 010203 => Ok(())
        limit-sending 1 2 => Err(LimitRaised { left: 1 })
        limit-sending 1 0 => Ok(())
        send 1 01 => Err(PastSendLimit { left: 0 })
        stop => ()
        write all => Stopped 514000000000000000510000000000000004110003010203510000000000000000 calls 1 flushes 1",
        "client 1 => (9, 6, 3, 0, 0)
        left => (0, 0)",
    ),
    // Nothing more is absolved than is held.
    (
        4,
        "2101000000",
        "read 10 all => Clean
        absolve 1 0 => Err(ZeroAmount)
        absolve 1 16777217 => Err(NotHeld { held: 16777216 })
        absolve 1 16777210 => Ok(())
        absolve 1 7 => Err(NotHeld { held: 6 })
        absolve 1 6 => Ok(())
        absolve 1 1 => Err(NotHeld { held: 0 })
        stop => ()
        write all => Stopped 3100fffffa3100000006 calls 1 flushes 1",
        "client 1 => (16777216, 0, 0, 16777216, 0)
        left => (0, 0)",
    ),
    // Nothing more is issued than the ring has room for, nor beyond a limit, which is never raised.
    (
        4,
        "",
        "issue 1 0 => Err(ZeroAmount)
        issue 1 9 => Err(NoRoom { room: 8 })
        issue 1 7 => Ok(())
        issue 1 2 => Err(NoRoom { room: 1 })
        limit-receiving 1 4611686018427387905 => Err(BoundTooLarge)
        limit-receiving 1 0 => Ok(())
        limit-receiving 1 1 => Err(LimitRaised { left: 0 })
        issue 1 1 => Err(PastReceiveLimit { left: 0 })
        server 1 => outstanding 7 buffered 0 None",
        "server 1 => (7, 0, 7)
        left => (2, 0)",
    ),
    // What is absolved is room again.
    (
        4,
        "3100000008",
        "issue 1 8 => Ok(())
        plead 1 0 => Ok(())
        read 10 all => Clean
        plead 1 0 => Err(NothingToAsk { outstanding: 0 })
        issue 1 8 => Ok(())",
        "server 1 => (8, 0, 16)
        left => (3, 0)",
    ),
    // A message waits for a buffer that has room for it.
    (
        4,
        "1100026869",
        "issue 1 2 => Ok(())
        read 10 all => Clean
        take 1 1 => Err(BufferTooSmall { need: 2 })
        take 1 2 => 6869
        take 1 2 => Ok(Empty)",
        "server 1 => (0, 0, 2)
        left => (1, 0)",
    ),
    // A channel ends with the last message that the other side's limit allows.
    (
        4,
        "510000000000000003110003616263",
        "issue 1 8 => Ok(())
        read 9 1 => TurnsSpent
        take 1 => Ok(Empty)
        server 1 => outstanding 8 buffered 0 Some(3)
        read 10 all => Clean
        take 1 => 616263
        take 1 => Ok(Ended)",
        "server 1 => (5, 0, 8)
        left => (1, 0)",
    ),
    // A stream of version Two is heard like one of version One.
    (
        4,
        "4c434d02110000000268692100000005",
        "issue 1 2 => Ok(())
        read 10 all => Clean
        take 1 => 6869
        held 1 => 5",
        "client 1 => (5, 5, 0, 0, 0)
        server 1 => (0, 0, 2)
        left => (1, 0)",
    ),
    // A greeting breaks at its third byte.
    (
        4,
        "4c4300",
        "read 2 1 => TurnsSpent
        read 1 1 => Fault(BadTag)
        offending => begun 3 Some(0)
        read 10 all => Fault(BadTag)",
        "client 1 => (0, 0, 0, 0, 0)
        left => (0, 0)",
    ),
    // A message beyond what was guaranteed, behind one that was not: its frame is known.
    (
        4,
        "11000261621100026364",
        "issue 1 3 => Ok(())
        offending => begun 0 None
        read 10 all => Violated(NotGuaranteed)
        offending => begun 5 Send 1 Some(2) None
        server 1 => outstanding 1 buffered 2 None
        take 1 => 6162",
        "server 1 => (1, 0, 3)
        left => (1, 0)",
    ),
    // A session of version One finishes no channel.
    (
        1,
        "2100000005",
        "read 10 all => Clean
        finish 1 => Err(WrongVersion)
        finished 1 => false
        held 1 => 5
        send 1 6869 => Ok(())
        finish 1 => Err(WrongVersion)
        stop => ()
        write all => Stopped 1100026869 calls 1 flushes 1",
        "client 1 => (5, 3, 2, 0, 0)
        left => (0, 0)",
    ),
];

#[test]
fn worked_calls(rt: HostRuntime) {
    for &(slots, digits, script, report) in &WORKED {
        ran(&rt, run(&rt, rt.alloc(), slots, digits, script, report));
    }
}

/// The same of sessions of version Two.
const GREETED: [(u32, &str, &str, &str); 5] = [
    // The greeting goes out once, also where no frame does.
    (
        4,
        "",
        "stop => ()
        write all => Stopped 4c434d02 calls 1 flushes 1
        write all => Stopped  calls 0 flushes 1",
        "left => (0, 0)",
    ),
    // The greeting and the frames behind it go out in one write, whatever version comes.
    (
        4,
        "2100000005",
        "read 10 all => Clean
        send 1 6869 => Ok(())
        issue 1 8 => Ok(())
        stop => ()
        write all => Stopped 4c434d02110000000268692100000008 calls 1 flushes 1
        issue 2 3 => Ok(())
        write all => Stopped 2200000003 calls 1 flushes 1",
        "client 1 => (5, 3, 2, 0, 0)
        left => (0, 0)",
    ),
    // A greeting that was not written is left, and is no frame.
    (4, "", "issue 1 8 => Ok(())", "left => (1, 4)"),
    // Of a greeting that was begun the rest goes out first.
    (
        4,
        "",
        "issue 1 8 => Ok(())
        write 1 fails 3 => Failed 4c43 calls 3 flushes 0
        stop => ()
        write all => Stopped 4d022100000008 calls 1 flushes 1",
        "left => (0, 0)",
    ),
    // Messages are longer.
    (
        4,
        "2100100001",
        "read 10 all => Clean
        long 1 1048577 => Err(BodyTooLong)
        long 1 1048576 => Ok(())
        send 1 68 => Ok(())",
        "client 1 => (1048577, 0, 1048577, 0, 0)
        left => (2, 4)",
    ),
];

// A row of a session of version Two.
fn run_in_two<R: Wait + Abort>(
    rt: &R,
    alloc: Global,
    (slots, digits, script, report): (u32, &str, &str, &str),
) -> Option<()> {
    run_as(rt, alloc, Version::Two, slots, digits, script, report)
}

#[test]
fn worked_calls_of_version_two(rt: HostRuntime) {
    for &row in &GREETED {
        ran(&rt, run_in_two(&rt, rt.alloc(), row));
    }
}

/// Channels that are finished, in sessions of version Two.
const FINISHED: [(u32, &str, &str, &str); 5] = [
    // Nothing is held, sent or awaited on a channel that was finished, and the others go on.
    (
        4,
        "210000000521000000034100000001",
        "read 5 1 => TurnsSpent
        send 1 6869 => Ok(())
        finish 1 => Ok(())
        finished 1 => true
        finished 2 => false
        held 1 => 0
        send 1 61 => Err(ChannelFinished)
        absolve 1 1 => Err(ChannelFinished)
        honour 1 => Err(ChannelFinished)
        limit-sending 1 0 => Err(ChannelFinished)
        finish 1 => Err(ChannelFinished)
        read 10 all => Clean
        held 1 => 0
        honour 1 => Err(ChannelFinished)
        send 2 61 => Err(NoGuarantee { held: 0 })
        issue 1 8 => Ok(())
        stop => ()
        write all => Stopped 4c434d0211000000026869712100000008 calls 1 flushes 1",
        "client 1 => (8, 0, 2, 0, 6)
        server 1 => (8, 0, 8)
        left => (0, 0)",
    ),
    // A wait of a finished end is over before any run.
    (
        4,
        "",
        "finish 1 => Ok(())
        wait 1 => Over",
        "client 1 => (0, 0, 0, 0, 0)
        left => (1, 4)",
    ),
    // A full queue keeps all as it was, and the plead.
    (
        1,
        "21000000054100000002",
        "read 10 all => Clean
        limit-sending 1 9 => Ok(())
        limit-sending 1 8 => Ok(())
        finish 1 => Err(QueueFull)
        finished 1 => false
        held 1 => 5
        stop => ()
        write all => Stopped 4c434d02510000000000000009510000000000000008 calls 1 flushes 1
        issue 2 1 => Ok(())
        issue 2 1 => Ok(())
        honour 1 => Ok(Some(3))
        finish 1 => Err(QueueFull)
        write all => Stopped 220000000122000000013100000003 calls 1 flushes 1
        finish 1 => Ok(())
        finish 1 => Err(ChannelFinished)
        write all => Stopped 71 calls 1 flushes 1
        write all => Stopped  calls 0 flushes 1",
        "client 1 => (5, 0, 0, 3, 2)
        left => (0, 0)",
    ),
    // What came before the other side's Finish is taken, and nothing more is issued.
    (
        4,
        "4c434d0211000000026869711200000001",
        "issue 1 8 => Ok(())
        read 10 all => Truncated
        server 1 => outstanding 0 buffered 2 None
        issue 1 1 => Err(ChannelFinished)
        take 1 => 6869
        take 1 => Ok(Ended)
        take 2 => Ok(Empty)
        plead 1 0 => Err(ChannelFinished)
        limit-receiving 1 0 => Err(ChannelFinished)
        issue 1 0 => Err(ChannelFinished)
        take 1 => Ok(Ended)",
        "server 1 => (0, 0, 8)
        left => (1, 4)",
    ),
    // Both sides may finish the same channel.
    (
        4,
        "4c434d0271",
        "finish 1 => Ok(())
        read 10 all => Clean
        take 1 => Ok(Ended)
        finish 1 => Err(ChannelFinished)
        stop => ()
        write all => Stopped 4c434d0271 calls 1 flushes 1",
        "client 1 => (0, 0, 0, 0, 0)
        server 1 => (0, 0, 0)
        left => (0, 0)",
    ),
];

#[test]
fn finished_channels(rt: HostRuntime) {
    for &row in &FINISHED {
        ran(&rt, run_in_two(&rt, rt.alloc(), row));
    }
}
