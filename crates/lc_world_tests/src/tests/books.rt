//! What books show of themselves, the bounds of their rings, and the last guarantees of a channel. What their calls
//! answer is shown by the rows of `bindings/rows.txt`, and by `scripts/transcripts`.
use super::{Subject, answers, text};
use lc_book::{ClientBook, ClientParts, Refusal, ServerBook, ServerParts, Violation};
use lc_frame::Version;
use std::alloc::Global;
use std::process::Abort;
use std::test::Fail;

// What 2^62 - 1 guarantees leave that went through a channel.
const OLD_CLIENT: ClientParts = ClientParts {
    version: Version::One,
    received: 4_611_686_018_427_387_903,
    spent: 4_611_686_018_427_387_903,
    absolved: 0,
    waived: 0,
    send_left: None,
    receive_left: None,
    asked: None,
    finished: false,
};

const OLD_SERVER: ServerParts = ServerParts {
    capacity: 8,
    issued: 4_611_686_018_427_387_903,
    arrived: 4_611_686_018_427_387_903,
    taken: 4_611_686_018_427_387_903,
    absolved: 0,
    waived: 0,
    send_left: None,
    receive_left: None,
    finished: false,
};

/// What a client shows of its book.
pub fn shown_client(alloc: Global, client: &ClientBook) -> Option<String> {
    let (held, received) = (client.held(), client.received());
    let (spent, absolved) = (client.spent(), client.absolved());
    let (sending, receiving) = (client.send_left(), client.receive_left());
    let asked = client.asked();
    format!(in alloc;
        "held {held} received {received} spent {spent} absolved {absolved} send_left {sending:?} receive_left {receiving:?} asked {asked:?}"
    ).ok()
}

/// What a server shows of its book.
pub fn shown_server(alloc: Global, server: &ServerBook) -> Option<String> {
    let (outstanding, buffered, room) = (server.outstanding(), server.buffered(), server.room());
    let (issued, capacity) = (server.issued(), server.capacity());
    let (sending, receiving) = (server.send_left(), server.receive_left());
    let ended = server.is_ended();
    format!(in alloc;
        "outstanding {outstanding} buffered {buffered} room {room} issued {issued} of {capacity} send_left {sending:?} receive_left {receiving:?} ended {ended}"
    ).ok()
}

// 2^62 guarantees are issued, and received, in all.
#[test]
fn no_channel_has_more_guarantees_in_all(rt: HostRuntime) -> Result<(), Fail> {
    let mut server = ServerBook::restore(OLD_SERVER).ok_or("no server")?;
    let reached = Err(Refusal::TotalReached);
    let too_many = (server.issue(9), server.issue(2));
    assert_eq!(rt; too_many, (Err(Refusal::NoRoom { room: 8 }), reached));
    let last = (server.issue(1), server.issue(1));
    assert_eq!(rt; last, (Ok(()), reached));
    let mut client = ClientBook::restore(OLD_CLIENT).ok_or("no client")?;
    let received = (client.issued(2), client.issued(1));
    assert_eq!(rt; received, (Err(Violation::TotalPassed), Ok(())));
    Ok(())
}

// Whether there is a server with a ring of so many bytes.
const CAPACITIES: &str = "0 => false
1 => true
16777216 => true
16777217 => false
4294967295 => false
";

#[derive(Drop)]
struct Rings;

impl Subject for Rings {
    fn answer(&mut self, alloc: Global, capacity: &str) -> Option<String> {
        let capacity = capacity.parse::<u32>().ok()?;
        text(alloc, &ServerBook::new(capacity).is_some())
    }
}

#[test]
fn a_ring_has_1_to_2_to_the_24_bytes(rt: HostRuntime) {
    answers(&rt, rt.alloc(), &mut Rings, CAPACITIES);
}
