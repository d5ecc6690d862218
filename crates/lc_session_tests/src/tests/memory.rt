//! Want of memory.
ghost use Rattle.std.specs.List.{AllZip};
ghost use Rattle.lc_session.specs.Pumping.{IsSamePump};
ghost use Rattle.lc_inbox.specs.Sides.{IsSameSide};
ghost use Rattle.lc_outbox.specs.Outbox.{IsSameOutbox};
ghost use Rattle.lc_session.specs.Reading.{IsSameReading};
ghost use Rattle.lc_session_tests.specs.Desks.{StaysOfOne};

use crate::tests::equal;
use crate::tests::sides::session;
use lc_book::Refusal;
use lc_driver::{Counted, ReadEnd};
use lc_frame::{CHANNELS, Version};
use lc_session::{Parts, ReadPump, RecvEnd, SendEnd, WriteEnd, WritePump, finish};
use std::process::Abort;
use std::sync::Wait;
use std::test::Fail;

/// An Issue of 5 on channel 1, and a Plead for 1.
const GUARANTEES: [u8; 10] = [0x21, 0, 0, 0, 5, 0x41, 0, 0, 0, 1];

/// A Send of `hi` on channel 1, two Absolves of 1, and a LimitSending of 0.
const SENT: &[u8] = &[
    0x11, 0, 2, b'h', b'i', 0x31, 0, 0, 0, 1, 0x31, 0, 0, 0, 1, 0x51, 0, 0, 0, 0, 0, 0, 0, 0,
];

/// An Issue of 8.
const ISSUED: &[u8] = &[0x21, 0, 0, 0, 8];

// Guarantees come, and a plead.
fn receive(rt: &(impl Wait + Abort), pump: &mut ReadPump)
    ensures { IsSameReading pump.old.side pump.new.side }
{
    let mut reader = Counted::new(GUARANTEES.as_slice());
    let end = pump.run(rt, &mut reader, 10);
    equal(rt, "a reading pump", end, ReadEnd::Clean);
}

// A send is refused before its copy is made.
fn refuses(rt: &(impl Wait + Abort), end: &mut SendEnd, body: &[u8], refusal: Refusal)
    ensures { IsSameOutbox end.old end.new }
{
    let sent = end.send(rt, body);
    equal(rt, "a send", sent, Err(refusal));
}

// Every other call of an end that holds 3.
fn uses(rt: &(impl Wait + Abort), end: &mut SendEnd)
    ensures { IsSameOutbox end.old end.new }
{
    let absolved = end.absolve(rt, 1);
    let honoured = end.honour(rt);
    let limited = end.limit(rt, 0);
    let found = (absolved, honoured, limited);
    equal(rt, "calls", found, (Ok(()), Ok(Some(1)), Ok(())));
    let finished = end.finish(rt);
    equal(rt, "a finish", finished, Err(Refusal::WrongVersion));
}

fn goes_on(rt: &(impl Wait + Abort), end: &mut SendEnd)
    ensures { IsSameOutbox end.old end.new }
{
    refuses(rt, end, b"four", Refusal::NoGuarantee { held: 3 });
    uses(rt, end);
    refuses(rt, end, b"a", Refusal::PastSendLimit { left: 0 });
}

// Whether a message is sent, and all other calls then made. A send that gets no memory changes nothing.
fn works_at(rt: &(impl Wait + Abort), end: &mut SendEnd) -> bool
    ensures { IsSameOutbox end.old end.new }
{
    let sent = end.send(rt, b"hi");
    let held = end.held();
    if sent.is_ok() {
        equal(rt, "what is held", held, 3);
        goes_on(rt, end);
        return true;
    }
    let refused = (Err(Refusal::OutOfMemory), 5);
    equal(rt, "a refused send", (sent, held), refused);
    false
}

fn sends(rt: &(impl Wait + Abort), ends: &mut [SendEnd; CHANNELS]) -> bool
    ensures { AllZip IsSameOutbox ends.old ends.new }
{
    let end = &mut ends[1];
    works_at(rt, end)
}

fn issue(rt: &(impl Wait + Abort), ends: &mut [RecvEnd; CHANNELS])
    ensures { AllZip IsSameSide ends.old ends.new }
{
    let end = &mut ends[1];
    let issued = end.issue(rt, 8);
    equal(rt, "an issue", issued, Ok(()));
}

// All that was put goes out, into a memory that is large enough.
fn write(rt: &(impl Wait + Abort), pump: &mut WritePump, out: Vec<u8>, wanted: &[u8]) -> Vec<u8>
    ensures { IsSamePump pump.old pump.new }
{
    let mut writer = Counted::new(out);
    let end = pump.run(rt, &mut writer);
    let mut out = writer.into_inner();
    let found = (end, out.as_slice());
    equal(rt, "what is written", found, (WriteEnd::Stopped, wanted));
    out.clear();
    out
}

// Guarantees come, and a message is sent if there is memory for it: the pump then writes it, and what
// further calls put, or not a byte. It also writes what is issued after that. Whether the message was
// sent, and the parts.
fn works(rt: &(impl Wait + Abort), mut parts: Parts, out: Vec<u8>) -> (bool, Parts)
    ensures { StaysOfOne parts result.1 }
{
    receive(rt, &mut parts.read_pump);
    let sent = sends(rt, &mut parts.send_ends);
    parts.session.stop();
    let wanted = if sent { SENT } else { &[] };
    let out = write(rt, &mut parts.write_pump, out, wanted);
    issue(rt, &mut parts.recv_ends);
    write(rt, &mut parts.write_pump, out, ISSUED);
    (sent, parts)
}

// Requests for memory can be refused here in turn; the first and the last are the test's own.
#[test]
fn a_session_and_a_send_ask_for_memory(rt: HostRuntime) -> Result<(), Fail> {
    let out = Vec::with_capacity(rt.alloc(), 32)?;
    let parts = session(rt.alloc(), Version::One, 8, 4)?;
    let (sent, parts) = works(&rt, parts, out);
    let report = finish(&rt, parts);
    equal(&rt, "what is left", (report.left, report.partly), (0, 0));
    if !sent {
        return Err("a send was refused and changed nothing")?;
    }
    let _: Vec<u8> = Vec::with_capacity(rt.alloc(), 1)?;
    Ok(())
}
