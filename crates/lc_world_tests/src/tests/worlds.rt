//! The books that events leave, streams of two versions, and why there is no world. What events answer at two peers of
//! one version is shown by `scripts/transcripts`.
use super::{Subject, answers, same, text};
use lc_frame::{Body, Channel, Version};
use lc_world::{Act, Event, NewFault, Side, World, run};
use std::alloc::Global;
use std::process::Abort;
use std::test::Fail;

const CHANNEL: Channel = Channel::Data;

// An event is answered so.
fn step(rt: &impl Abort, alloc: Global, world: &mut World, event: &Event, wanted: &str) {
    same(rt, "a step", text(alloc, &world.step(event)), wanted);
}

// What is held at A, spent, absolved and waived, and what is outstanding at B, buffered, free and waived.
fn books(alloc: Global, world: &World) -> Option<String> {
    let client = world.client(Side::A, CHANNEL);
    let used = (client.spent(), client.absolved(), client.waived());
    let server = world.server(Side::B, CHANNEL);
    let left = (server.outstanding(), server.buffered(), server.room());
    text(alloc, &(client.held(), used, left, server.waived()))
}

// Of ten guarantees five are spent, three absolved, since a plead asks for that, and two are still held.
fn begins(rt: &impl Abort, alloc: Global, world: &mut World, body: Body) {
    let (channel, amount, target) = (CHANNEL, 10, 2);
    let events = [
        (Side::B, Act::Issue { channel, amount }, "Accepted"),
        (Side::A, Act::Arrive, "Arrived"),
        (Side::A, Act::Send { channel, body }, "Accepted"),
        (Side::B, Act::Plead { channel, target }, "Accepted"),
        (Side::A, Act::Arrive, "Arrived"),
        (Side::A, Act::Honour { channel }, "Absolved(3)"),
        (Side::B, Act::Arrive, "Arrived"),
        (Side::B, Act::Arrive, "Arrived"),
    ];
    for (side, act, wanted) in events {
        step(rt, alloc, world, &Event { side, act }, wanted);
    }
}

// A finishes the channel.
fn finishes(rt: &impl Abort, alloc: Global, world: &mut World) {
    let channel = CHANNEL;
    for (side, act, wanted) in [
        (Side::A, Act::Finish { channel }, "Accepted"),
        (Side::B, Act::Arrive, "Arrived"),
    ] {
        step(rt, alloc, world, &Event { side, act }, wanted);
    }
}

#[test]
fn events_leave_their_books(rt: HostRuntime) -> Result<(), Fail> {
    let alloc = rt.alloc();
    let body = Body::from_vec(Vec::from_slice(alloc, b"hello")?);
    let mut world = World::new_as(alloc, 16, [Version::Two; 2])?;
    begins(&rt, alloc, &mut world, body);
    let found = books(alloc, &world);
    same(&rt, "books", found, "(2, (5, 3, 0), (2, 5, 9), 0)");
    finishes(&rt, alloc, &mut world);
    let found = books(alloc, &world);
    same(&rt, "books", found, "(0, (5, 3, 2), (0, 5, 11), 2)");
    Ok(())
}

// B's stream alone begins with a greeting, and may have a Finish.
#[test]
fn each_side_has_its_version(rt: HostRuntime) -> Result<(), Fail> {
    let (alloc, channel) = (rt.alloc(), CHANNEL);
    let mut world = World::new_as(alloc, 8, [Version::One, Version::Two])?;
    let deliver = || Act::Deliver { count: 9 };
    for (side, act, wanted) in [
        (Side::B, deliver(), "NothingInFlight"),
        (Side::A, deliver(), "Delivered { bytes: 4, frames: 0 }"),
        (Side::A, Act::Finish { channel }, "Refused(WrongVersion)"),
        (Side::B, Act::Finish { channel }, "Accepted"),
        (Side::A, deliver(), "Delivered { bytes: 1, frames: 1 }"),
        (Side::A, Act::Take { channel }, "Ended"),
        (Side::B, Act::Take { channel }, "Empty"),
    ] {
        step(&rt, alloc, &mut world, &Event { side, act }, wanted);
    }
    Ok(())
}

// Why there is no world with rings of so many bytes, and no run.
const CAPACITIES: &str = "0 => (Some(BadCapacity), Some(BadCapacity))
1 => (None, None)
16777216 => (None, None)
16777217 => (Some(BadCapacity), Some(BadCapacity))
4294967295 => (Some(BadCapacity), Some(BadCapacity))
";

#[derive(Drop)]
struct Capacities;

impl Subject for Capacities {
    fn answer(&mut self, alloc: Global, capacity: &str) -> Option<String> {
        let capacity = capacity.parse::<u32>().ok()?;
        let world = World::new(alloc, capacity).err();
        text(alloc, &(world, run(alloc, capacity, &[]).err()))
    }
}

#[test]
fn a_capacity_is_1_to_2_to_the_24(rt: HostRuntime) {
    answers(&rt, rt.alloc(), &mut Capacities, CAPACITIES);
}

#[test]
fn no_world_has_its_text(rt: HostRuntime) {
    let found = format!(in rt.alloc(); "{}, {}", NewFault::BadCapacity, NewFault::OutOfMemory);
    let wanted = "the capacity is not 1 to 2^24, out of memory";
    same(&rt, "errors", found.ok(), wanted);
}
