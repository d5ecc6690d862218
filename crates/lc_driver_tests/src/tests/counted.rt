//! What `Counted` hands on, and the texts of faults.
use crate::tests::{equal, same};
use lc_driver::{Counted, CountedRead, CountedWrite, Failures, WriteFault};
use std::alloc::Global;
use std::io;
use std::io::{ErrorKind, Read, Write};
use std::process::Abort;

/// More bytes than a buffer of any usual length has.
const LARGE: usize = 70_000;

// What two writes answer, and how many bytes they wrote.
fn large_writes(alloc: Global, bytes: &[u8]) -> (Option<usize>, Option<usize>, usize) {
    let mut writer = Counted::new(Vec::new(alloc));
    let first = writer.write_counted(bytes).ok();
    let second = writer.write(bytes).ok();
    (first, second, writer.into_inner().len())
}

// What two reads answer, and how many bytes they leave.
fn large_reads(bytes: &[u8], buffer: &mut [u8]) -> (Option<usize>, Option<usize>, usize) {
    let mut reader = Counted::new(bytes);
    let first = reader.read_counted(buffer).ok();
    let second = reader.read(buffer).ok();
    (first, second, reader.into_inner().len())
}

#[test]
fn large_writes_are_handed_on(rt: HostRuntime) {
    let found = large_writes(rt.alloc(), &[0x5a; LARGE]);
    let wanted = (Some(70_000), Some(70_000), 140_000);
    equal(&rt, "two writes", found, wanted);
}

#[test]
fn large_reads_are_handed_on(rt: HostRuntime) {
    let found = large_reads(&[0x5a; 2 * LARGE], &mut [0; LARGE]);
    equal(&rt, "two reads", found, (Some(70_000), Some(70_000), 0));
}

/// A device all of whose calls fail with an error of the system.
#[derive(Drop)]
struct Broken {
    code: i32,
}

impl Read for Broken {
    fn read(&mut self, _buf: &mut [u8]) -> io::Result<usize> {
        Err(io::Error::from_raw_os_error(self.code))
    }
}

impl Write for Broken {
    fn write(&mut self, _buf: &[u8]) -> io::Result<usize> {
        Err(io::Error::from_raw_os_error(self.code))
    }

    fn flush(&mut self) -> io::Result<()> {
        Err(io::Error::from_raw_os_error(self.code))
    }
}

/// Errors of the system, by their numbers on Linux, and their kinds.
const ERRORS: [(i32, ErrorKind); 4] = [
    (4, ErrorKind::Interrupted),
    (11, ErrorKind::WouldBlock),
    (32, ErrorKind::BrokenPipe),
    (104, ErrorKind::ConnectionReset),
];

// A call failed with this very error, and the device keeps its kind.
fn failed(
    rt: &impl Abort,
    device: &impl Failures,
    error: Option<io::Error>,
    (code, kind): (i32, ErrorKind),
) {
    let Some(error) = error else {
        assert!(rt; false, "no failure");
        return;
    };
    let found = (error.raw_os_error(), error.kind());
    let wanted = ((Some(code), kind), Some(kind));
    equal(rt, "a failure", (found, device.last_failure()), wanted);
}

#[test]
fn errors_are_handed_on(rt: HostRuntime) {
    for &(code, kind) in &ERRORS {
        let mut device = Counted::new(Broken { code });
        let error = device.read(&mut [0; 4]).err();
        failed(&rt, &device, error, (code, kind));
        let error = device.write(&[0; 4]).err();
        failed(&rt, &device, error, (code, kind));
        let error = device.flush().err();
        failed(&rt, &device, error, (code, kind));
    }
}

/// Faults of a writing and their texts.
const TEXTS: [(WriteFault, &str); 4] = [
    (
        WriteFault::Failed { written: 0 },
        "a write failed after 0 bytes",
    ),
    (
        WriteFault::Failed { written: 65_538 },
        "a write failed after 65538 bytes",
    ),
    (
        WriteFault::Zero { written: 3 },
        "a write took nothing after 3 bytes",
    ),
    (
        WriteFault::Zero { written: u64::MAX },
        "a write took nothing after 18446744073709551615 bytes",
    ),
];

#[test]
fn faults_have_texts(rt: HostRuntime) {
    for (fault, text) in &TEXTS {
        let found = format!(in rt.alloc(); "{fault}").ok();
        same(&rt, "a fault", found, text);
    }
}
