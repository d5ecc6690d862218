//! Want of memory. Each request of these tests can be refused in turn; the last is their own.
use lc_book::{ClientBook, ServerBook};
use lc_frame::{Body, Channel, Version};
use lc_world::{Act, Answer, Event, Refusal, Side, World, run, run_as};
use std::alloc::{AllocError, Global};
use std::process::Abort;
use std::test::Fail;

const CHANNEL: Channel = Channel::Data;

const CAPACITY: u32 = 8;

const TWO: [Version; 2] = [Version::Two; 2];

// Guarantees go from B to A, and a message comes back and is taken. Then nothing is left.
fn events(alloc: Global) -> Result<[Event; 8], AllocError> {
    let body = Body::from_vec(Vec::from_slice(alloc, b"hi")?);
    let (channel, amount) = (CHANNEL, 5);
    let at = |side, act| Event { side, act };
    Ok([
        at(Side::B, Act::Issue { channel, amount }),
        at(Side::A, Act::Arrive),
        at(Side::A, Act::Send { channel, body }),
        at(Side::B, Act::Arrive),
        at(Side::B, Act::Take { channel }),
        at(Side::A, Act::Arrive),
        at(Side::B, Act::Arrive),
        at(Side::B, Act::Take { channel }),
    ])
}

// What is answered in turn.
const ANSWERS: [&str; 8] = [
    "accepted", "arrived", "accepted", "arrived", "hi", "nothing", "nothing", "empty",
];

// The same where there was no memory for the first event, for the third, and for the fifth.
const NOT_ISSUED: [&str; 8] = [
    "refused", "nothing", "not held", "nothing", "empty", "nothing", "nothing", "empty",
];

const NOT_SENT: [&str; 8] = [
    "accepted", "arrived", "refused", "nothing", "empty", "nothing", "nothing", "empty",
];

const NOT_TAKEN: [&str; 8] = [
    "accepted", "arrived", "accepted", "arrived", "refused", "nothing", "nothing", "hi",
];

// An answer in a word, for which no memory is needed.
fn word(answer: &Answer) -> &'static str {
    match answer {
        Answer::Accepted => "accepted",
        Answer::Arrived => "arrived",
        Answer::NothingInFlight => "nothing",
        Answer::Took(body) if body.as_slice() == b"hi".as_slice() => "hi",
        Answer::Empty => "empty",
        Answer::Refused(Refusal::OutOfMemory) => "refused",
        Answer::Refused(Refusal::NoGuarantee { held: 0 }) => "not held",
        _ => "another answer",
    }
}

fn books(world: &World) -> (ClientBook, ServerBook) {
    (
        world.client(Side::A, CHANNEL),
        world.server(Side::B, CHANNEL),
    )
}

fn step(world: &mut World, event: &Event) -> &'static str {
    word(&world.step(event))
}

// Whether the event is answered so at once. Where there is no memory for it, nothing changes, and it is
// answered so when it is asked again.
fn steps(rt: &impl Abort, world: &mut World, event: &Event, wanted: &str) -> bool {
    let before = books(world);
    let first = step(world, event);
    if first != "refused" {
        assert!(rt; first == wanted);
        return true;
    }
    assert!(rt; books(world) == before);
    assert!(rt; step(world, event) == wanted);
    false
}

// Whether each event was answered at once.
fn plays(rt: &impl Abort, world: &mut World, events: &[Event; 8]) -> bool {
    let mut at_once = true;
    for at in 0..8 {
        at_once &= steps(rt, world, &events[at], ANSWERS[at]);
    }
    at_once
}

// The world, where memory lasts for all of it.
fn played(
    rt: &impl Abort,
    alloc: Global,
    mut world: World,
    events: &[Event; 8],
) -> Result<(), Fail> {
    if !plays(rt, &mut world, events) {
        return Err("a step was refused and changed nothing")?;
    }
    let _: Vec<u8> = Vec::with_capacity(alloc, 1)?;
    Ok(())
}

#[test]
fn a_refused_step_changes_nothing(rt: HostRuntime) -> Result<(), Fail> {
    let events = events(rt.alloc())?;
    let world = World::new(rt.alloc(), CAPACITY)?;
    played(&rt, rt.alloc(), world, &events)
}

#[test]
fn a_refused_step_of_version_two_changes_nothing(rt: HostRuntime) -> Result<(), Fail> {
    let events = events(rt.alloc())?;
    let world = World::new_as(rt.alloc(), CAPACITY, TWO)?;
    played(&rt, rt.alloc(), world, &events)
}

fn are(answers: &[Answer], words: &[&'static str; 8]) -> bool {
    answers.iter().map(word).eq(words.iter().copied())
}

// What the answers of a run come to, which goes on after an event that was refused for want of memory.
fn outcome(answers: &[Answer]) -> &'static str {
    if are(answers, &ANSWERS) {
        "all was answered"
    } else if are(answers, &NOT_ISSUED) {
        "nothing was issued"
    } else if are(answers, &NOT_SENT) {
        "nothing was sent"
    } else if are(answers, &NOT_TAKEN) {
        "nothing was taken"
    } else {
        "another answer"
    }
}

fn ran(alloc: Global, answers: &[Answer]) -> Result<(), Fail> {
    let outcome = outcome(answers);
    if outcome != "all was answered" {
        return Err(outcome)?;
    }
    let _: Vec<u8> = Vec::with_capacity(alloc, 1)?;
    Ok(())
}

#[test]
fn a_run_answers_what_it_has_memory_for(rt: HostRuntime) -> Result<(), Fail> {
    let events = events(rt.alloc())?;
    let answers = run(rt.alloc(), CAPACITY, &events)?;
    ran(rt.alloc(), answers.as_slice())
}

#[test]
fn a_run_of_version_two_answers_what_it_has_memory_for(rt: HostRuntime) -> Result<(), Fail> {
    let events = events(rt.alloc())?;
    let answers = run_as(rt.alloc(), CAPACITY, TWO, &events)?;
    ran(rt.alloc(), answers.as_slice())
}
