//! Bounds of inboxes and peers, and the calls that take memory.
use crate::tests::{equal, ran, same};
use lc_frame::{CHANNELS, Channel, FrameRef, Version};
use lc_peer::{Config, Inbox, NewFault, Peer, PeerFault, Refusal, Take, Violation};
use std::alloc::Global;
use std::process::Abort;
use std::test::Fail;
use test_devices::text;

/// Capacities and slots of which there is no peer, and why.
const FAULTS: [([u32; CHANNELS], u32, &str); 4] = [
    (
        [8, 8, 0, 8, 8, 0, 8],
        4,
        "BadCapacity { channel: Overlap, capacity: 0 }: the capacity of Overlap must be in 1..=16777216, got 0",
    ),
    (
        [8; CHANNELS],
        0,
        "BadSlots { slots: 0 }: slots must be in 1..=65536, got 0",
    ),
    (
        [8; CHANNELS],
        65_537,
        "BadSlots { slots: 65537 }: slots must be in 1..=65536, got 65537",
    ),
    (
        [8, 8, 8, 8, 8, 8, 16_777_217],
        0,
        "BadCapacity { channel: StaticToken, capacity: 16777217 }: the capacity of StaticToken must be in 1..=16777216, got 16777217",
    ),
];

// A peer on which nothing has happened.
fn peer_of(
    alloc: Global,
    version: Version,
    capacities: [u32; CHANNELS],
    slots: u32,
) -> Result<Peer, PeerFault> {
    let config = Config {
        version,
        capacities,
        slots,
    };
    Peer::new(alloc, config)
}

// Why there is no peer.
fn fault(alloc: Global, capacities: [u32; CHANNELS], slots: u32) -> Option<PeerFault> {
    peer_of(alloc, Version::One, capacities, slots).err()
}

fn fault_text(alloc: Global, capacities: [u32; CHANNELS], slots: u32) -> Option<String> {
    let fault = fault(alloc, capacities, slots)?;
    format!(in alloc; "{fault:?}: {fault}").ok()
}

#[test]
fn inboxes_of_other_bounds(rt: HostRuntime) {
    for capacity in [0, 16_777_217] {
        let found = Inbox::new(rt.alloc(), capacity).err();
        equal(&rt, "new", found, Some(NewFault::BadCapacity));
    }
}

#[test]
fn peers_of_other_bounds(rt: HostRuntime) {
    for &(capacities, slots, want) in &FAULTS {
        same(&rt, "new", fault_text(rt.alloc(), capacities, slots), want);
    }
}

#[test]
fn want_of_memory_has_its_text(rt: HostRuntime) {
    let fault = PeerFault::OutOfMemory;
    let found = format!(in rt.alloc(); "{fault:?}: {fault}").ok();
    same(&rt, "new", found, "OutOfMemory: out of memory");
}

const CHANNEL: Channel = Channel::Data;

fn widest_answers(rt: &impl Abort, alloc: Global) -> Option<()> {
    let mut widest = [16_777_216; CHANNELS];
    widest[0] = 1;
    let mut peer = peer_of(alloc, Version::One, widest, 65_536).ok()?;
    let sent = peer.send(CHANNEL, &[7; 65_536]);
    let issued = peer.issue(CHANNEL, 16_777_216);
    let wanted = (Err(Refusal::BodyTooLong), Ok(()));
    equal(rt, "send, issue", (sent, issued), wanted);
    Some(())
}

#[test]
fn the_widest_peer(rt: HostRuntime) {
    ran(&rt, widest_answers(&rt, rt.alloc()));
}

// What a peer of a version that holds nothing answers to a message of so many bytes.
fn long_message(alloc: Global, version: Version, len: usize) -> Option<String> {
    let long = vec![in alloc; 7_u8; len].ok()?;
    let mut peer = peer_of(alloc, version, [8; CHANNELS], 4).ok()?;
    text(alloc, &peer.send(CHANNEL, &long))
}

#[test]
fn the_longest_message_of_each_version(rt: HostRuntime) {
    let allowed = "Err(NoGuarantee { held: 0 })";
    for (version, len, want) in [
        (Version::One, 65_535, allowed),
        (Version::One, 65_536, "Err(BodyTooLong)"),
        (Version::Two, 65_536, allowed),
        (Version::Two, 1_048_576, allowed),
        (Version::Two, 1_048_577, "Err(BodyTooLong)"),
    ] {
        same(&rt, "send", long_message(rt.alloc(), version, len), want);
    }
}

// Bad bounds are named before memory is asked for.
fn are_bad(rt: &impl Abort, alloc: Global) {
    let inbox = Inbox::new(alloc, 0).err();
    let capacity = fault(alloc, [8, 8, 8, 8, 8, 8, 0], 7);
    let slots = fault(alloc, [8; CHANNELS], 0);
    let bad_ring = PeerFault::BadCapacity {
        channel: Channel::StaticToken,
        capacity: 0,
    };
    let bad_slots = PeerFault::BadSlots { slots: 0 };
    let wanted = (Some(NewFault::BadCapacity), Some(bad_ring), Some(bad_slots));
    equal(rt, "bad bounds", (inbox, capacity, slots), wanted);
}

fn arrives(rt: &impl Abort, peer: &mut Peer, frame: FrameRef<'_>) {
    assert!(rt; frame.is_valid(Version::Two));
    equal(rt, "a frame", peer.arrive(frame), Ok(()));
}

// The book refuses a message. Then five guarantees come, and the wish that four are left.
fn invites(rt: &impl Abort, peer: &mut Peer) {
    let (channel, amount, target) = (CHANNEL, 5, 4);
    let refused = peer.send(channel, b"hi");
    let wanted = Err(Refusal::NoGuarantee { held: 0 });
    equal(rt, "a message", refused, wanted);
    arrives(rt, peer, FrameRef::Issue { channel, amount });
    arrives(rt, peer, FrameRef::Plead { channel, target });
}

// Whether a message is sent. A send that gets no memory changes nothing.
fn sends(rt: &impl Abort, peer: &mut Peer) -> bool {
    let sent = peer.send(CHANNEL, b"hi");
    if sent.is_ok() {
        return true;
    }
    let left = (peer.client(CHANNEL).held(), peer.waiting());
    let again = peer.send(CHANNEL, b"hi");
    let wanted = (Err(Refusal::OutOfMemory), (5, 0), Ok(()));
    equal(rt, "a refused send", (sent, left, again), wanted);
    false
}

// Four guarantees more come. Every other own call of a sender puts its frame.
fn calls_of_a_sender(rt: &impl Abort, peer: &mut Peer) {
    let (channel, amount) = (CHANNEL, 4);
    arrives(rt, peer, FrameRef::Issue { channel, amount });
    let honoured = peer.honour(CHANNEL);
    let absolved = peer.absolve(CHANNEL, 1);
    let limited = peer.limit_sending(CHANNEL, 2);
    let found = (honoured, absolved, limited);
    equal(rt, "own calls", found, (Ok(Some(3)), Ok(()), Ok(())));
}

// So does each of a receiver, and as many wait then as may.
fn calls_of_a_receiver(rt: &impl Abort, peer: &mut Peer) {
    let issued = peer.issue(CHANNEL, 8);
    let pleaded = peer.plead(CHANNEL, 7);
    let bounded = peer.limit_receiving(CHANNEL, 0);
    let found = (issued, pleaded, bounded, peer.waiting());
    equal(rt, "own calls", found, (Ok(()), Ok(()), Ok(()), 7));
}

// Whether a send came so far that it found no place.
fn finds_no_place(rt: &impl Abort, peer: &mut Peer) -> bool {
    let sent = peer.send(CHANNEL, b"no");
    let (full, memory) = (Err(Refusal::QueueFull), Err(Refusal::OutOfMemory));
    assert!(rt; sent == full || sent == memory);
    sent == full
}

// A frame comes that breaks the rules.
fn violates(rt: &impl Abort, peer: &mut Peer) {
    let (channel, amount) = (CHANNEL, 9);
    let frame = FrameRef::Absolve { channel, amount };
    assert!(rt; frame.is_valid(Version::Two));
    let wanted = Err(Violation::AbsolvedTooMuch);
    equal(rt, "an Absolve", peer.arrive(frame), wanted);
}

// Two messages come, and every other frame.
fn comes(rt: &impl Abort, peer: &mut Peer) {
    let (channel, body) = (CHANNEL, b"hey");
    arrives(rt, peer, FrameRef::Send { channel, body });
    arrives(rt, peer, FrameRef::Send { channel, body });
    let (amount, target, bound) = (1, 0, 0);
    arrives(rt, peer, FrameRef::Absolve { channel, amount });
    arrives(rt, peer, FrameRef::LimitSending { channel, bound });
    arrives(rt, peer, FrameRef::Issue { channel, amount });
    arrives(rt, peer, FrameRef::Plead { channel, target });
    arrives(rt, peer, FrameRef::LimitReceiving { channel, bound });
}

// The messages are taken.
fn takes(rt: &impl Abort, peer: &mut Peer) {
    let fronts = peer.front(CHANNEL) == Some((b"hey", b""));
    let short = peer.take_into(CHANNEL, &mut [0; 2]);
    let took = peer.take_into(CHANNEL, &mut [0; 3]);
    let popped = (peer.pop(CHANNEL), peer.pop(CHANNEL));
    let too_small = Err(Refusal::BufferTooSmall { need: 3 });
    equal(rt, "a take", (fronts, short), (true, too_small));
    let wanted = (Ok(Take::Took(3)), (Take::Took(3), Take::Ended));
    equal(rt, "two messages", (took, popped), wanted);
}

// A frame goes out.
fn goes(rt: &impl Abort, peer: &mut Peer) {
    let lent = peer.waiting_frame(6).is_some();
    let out = peer.next_out().is_some();
    equal(
        rt,
        "what goes",
        (lent, out, peer.waiting()),
        (true, true, 6),
    );
}

// A call after the other. A send alone asks for memory, where its book lets it, also where no frame
// more can wait.
fn called(rt: &impl Abort, peer: &mut Peer) -> Result<(), &'static str> {
    invites(rt, peer);
    if !sends(rt, peer) {
        return Err("a send was refused and changed nothing");
    }
    calls_of_a_sender(rt, peer);
    calls_of_a_receiver(rt, peer);
    if !finds_no_place(rt, peer) {
        return Err("a send asked for memory before a place");
    }
    violates(rt, peer);
    comes(rt, peer);
    takes(rt, peer);
    goes(rt, peer);
    Ok(())
}

// Every request for memory can be refused here in turn; the last is the test's own.
#[test]
fn memory_is_asked_for_by_three_calls(rt: HostRuntime) -> Result<(), Fail> {
    are_bad(&rt, rt.alloc());
    let _ = Inbox::new(rt.alloc(), 8)?;
    let mut peer = peer_of(rt.alloc(), Version::One, [8; CHANNELS], 7)?;
    called(&rt, &mut peer)?;
    let _: Vec<u8> = Vec::with_capacity(rt.alloc(), 1)?;
    Ok(())
}
