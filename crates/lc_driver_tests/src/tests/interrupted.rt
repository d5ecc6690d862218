//! What `Uninterrupted` makes of the answers of a device, and how often it asks.
ghost use Rattle.std.specs.Prelude.{◌≤◌, IfOk};

use crate::tests::same;
use lc_driver::Uninterrupted;
use std::alloc::Global;
use std::io;
use std::io::{Read, Write};
use test_devices::number;

/// A device whose first calls a signal interrupts; every later one answers this count of bytes, or
/// this error of the system.
#[derive(Drop)]
struct Signalled {
    interruptions: u64,
    then: Result<usize, i32>,
    calls: u64,
}

impl Signalled {
    fn answer(&mut self, most: usize) -> io::Result<usize>
        ensures { IfOk result (λ n. n ≤ most) }
    {
        self.calls = self.calls.saturating_add(1);
        match self.then {
            _ if self.calls <= self.interruptions => Err(io::Error::from_raw_os_error(4)),
            Ok(count) => Ok(count.min(most)),
            Err(code) => Err(io::Error::from_raw_os_error(code)),
        }
    }
}

impl Read for Signalled {
    fn read(&mut self, buf: &mut [u8]) -> io::Result<usize> {
        self.answer(buf.len())
    }
}

impl Write for Signalled {
    fn write(&mut self, buf: &[u8]) -> io::Result<usize> {
        self.answer(buf.len())
    }

    fn flush(&mut self) -> io::Result<()> {
        self.answer(usize::MAX)?;
        Ok(())
    }
}

/// A call, how often it is interrupted, and the count or the error that comes then; and what it
/// answers, with the calls that the device saw. The errors are those of Linux: 11 is that it would
/// block, 32 a broken pipe, 104 a reset of the connection, 110 the end of a timeout.
const CALLS: [(&str, &str); 15] = [
    ("read 0 3", "Ok(3) calls 1"),
    ("read 1 3", "Ok(3) calls 2"),
    ("read 2 0", "Ok(0) calls 3"),
    ("read 0 error 11", "Err(Some(11)) calls 1"),
    ("read 1 error 11", "Err(Some(11)) calls 2"),
    ("read 3 error 104", "Err(Some(104)) calls 4"),
    ("read 70000 4", "Ok(4) calls 70001"),
    ("write 0 3", "Ok(3) calls 1"),
    ("write 1 4", "Ok(4) calls 2"),
    ("write 2 0", "Ok(0) calls 3"),
    ("write 0 error 110", "Err(Some(110)) calls 1"),
    ("write 1 error 32", "Err(Some(32)) calls 2"),
    ("flush 0 0", "Ok(0) calls 1"),
    ("flush 2 0", "Ok(0) calls 3"),
    ("flush 1 error 11", "Err(Some(11)) calls 2"),
];

fn device(interruptions: &str, then: &str) -> Option<Uninterrupted<Signalled>> {
    let interruptions = number(interruptions)?;
    let then = match then.strip_prefix("error ") {
        Some(code) => Err(code.parse::<i32>().ok()?),
        None => Ok(number(then)? as usize),
    };
    let calls = 0;
    Some(Uninterrupted::new(Signalled {
        interruptions,
        then,
        calls,
    }))
}

fn called(device: &mut Uninterrupted<Signalled>, verb: &str) -> io::Result<usize> {
    match verb {
        "read" => device.read(&mut [0; 4]),
        "write" => device.write(&[0; 4]),
        _ => {
            device.flush()?;
            Ok(0)
        }
    }
}

// What a call answers, and how many calls the device saw.
fn answer(alloc: Global, call: &str) -> Option<String> {
    let (verb, rest) = call.split_once(' ')?;
    let (interruptions, then) = rest.split_once(' ')?;
    let mut device = device(interruptions, then)?;
    let answer = match called(&mut device, verb) {
        Ok(count) => Ok(count),
        Err(error) => Err(error.raw_os_error()),
    };
    let calls = device.into_inner().calls;
    format!(in alloc; "{answer:?} calls {calls}").ok()
}

#[test]
fn interrupted_calls_are_made_again(rt: HostRuntime) {
    for &(call, wanted) in &CALLS {
        same(&rt, call, answer(rt.alloc(), call), wanted);
    }
}
