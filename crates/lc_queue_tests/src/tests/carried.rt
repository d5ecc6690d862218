//! Messages that one thread is given and another takes.
use crate::tests::same;
use lc_frame::Body;
use std::alloc::Global;
use std::sync::Wait;
use std::test::Fail;
use std::thread::Threads;
use test_threads::carries;

/// Bodies in hexadecimal that are given, and those that are taken: all up to the first that is
/// empty, or longer than the ring of 32 bytes.
const CARRIED: [(&str, &str); 7] = [
    ("61", "61"),
    ("6869 00 ff7f", "6869 00 ff7f"),
    (
        "000102030405060708090a0b0c0d0e0f101112131415161718191a1b1c1d1e1f 20 21",
        "000102030405060708090a0b0c0d0e0f101112131415161718191a1b1c1d1e1f 20 21",
    ),
    (
        "61 000102030405060708090a0b0c0d0e0f101112131415161718191a1b1c1d1e1f20 62",
        "61",
    ),
    (
        "01020304050607 08090a0b0c0d0e 0f101112131415 161718191a1b1c 1d1e1f20212223",
        "01020304050607 08090a0b0c0d0e 0f101112131415 161718191a1b1c 1d1e1f20212223",
    ),
    ("61 6263  64", "61 6263"),
    (" 61", ""),
];

fn bodies(alloc: Global, text: &str) -> Option<Vec<Body>> {
    let mut bodies = Vec::new(alloc);
    for digits in text.split(' ') {
        let bytes = hex::decode(alloc, digits).ok()?;
        bodies.push(Body::from_vec(bytes)).ok()?;
    }
    Some(bodies)
}

fn digits(alloc: Global, bodies: &[Body]) -> Option<String> {
    let mut text = String::new(alloc);
    for body in bodies {
        if !text.is_empty() {
            text.push(' ').ok()?;
        }
        text.push_str(&hex::encode(alloc, body.as_slice()).ok()?)
            .ok()?;
    }
    Some(text)
}

fn taken<R>(rt: R, alloc: Global, given: &str) -> Option<String>
where
    R: Threads + Wait + Copy + Send + 'static,
{
    let taken = carries(rt, alloc, bodies(alloc, given)?).ok()?;
    digits(alloc, &taken)
}

#[test]
fn messages_are_taken_as_they_were_given(rt: HostRuntime) {
    for &(given, wanted) in &CARRIED {
        same(&rt, given, taken(rt, rt.alloc(), given), wanted);
    }
}
