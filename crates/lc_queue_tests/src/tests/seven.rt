//! The inboxes of seven channels.
ghost use Rattle.lc_inbox.specs.Sides.{IsSameSide};
ghost use Rattle.lc_inbox.specs.Inboxes.{AreSameSides};

use crate::tests::{same, text};
use lc_frame::{CHANNELS, Version};
use lc_inbox::{FinishedInboxes, InboxOut, finish_all, share_all};
use lc_peer::PeerFault;
use lc_queue::lanes;
use std::alloc::Global;
use std::sync::Wait;
use std::test::Fail;

/// Capacities, and what comes of them: the fault, or the lanes of the servers, and what is
/// outstanding where each has issued as much as its ring has room for.
const CAPACITIES: [([u32; CHANNELS], &str); 4] = [
    (
        [8; CHANNELS],
        "Ok(([7, 8, 9, 10, 11, 12, 13], [8, 8, 8, 8, 8, 8, 8]))",
    ),
    (
        [16_777_216, 1, 2, 3, 4, 5, 6],
        "Ok(([7, 8, 9, 10, 11, 12, 13], [16777216, 1, 2, 3, 4, 5, 6]))",
    ),
    (
        [8, 8, 0, 8, 8, 0, 8],
        "Err(BadCapacity { channel: Overlap, capacity: 0 })",
    ),
    (
        [8, 8, 8, 8, 8, 8, 16_777_217],
        "Err(BadCapacity { channel: StaticToken, capacity: 16777217 })",
    ),
];

// Each side issues as much as its ring has room for.
fn issue_each<R: Wait>(rt: &R, outgoing: &mut [InboxOut; CHANNELS])
    ensures { AreSameSides outgoing.old outgoing.new }
{
    for place in 0..CHANNELS {
        issue_room(rt, &mut outgoing[place]);
    }
}

fn issue_room<R: Wait>(rt: &R, outgoing: &mut InboxOut)
    ensures { IsSameSide outgoing.old outgoing.new }
{
    if let Ok(room) = u32::try_from(outgoing.book(rt).room()) {
        let _answer = outgoing.issue(rt, room);
    }
}

fn lanes_and_outstanding(finished: &FinishedInboxes) -> ([u8; CHANNELS], [u64; CHANNELS]) {
    let (mut lanes, mut outstanding) = ([0; CHANNELS], [0; CHANNELS]);
    for place in 0..CHANNELS {
        lanes[place] = finished.lanes[place].lane();
        outstanding[place] = finished.books[place].outstanding();
    }
    (lanes, outstanding)
}

fn shared<R: Wait>(
    rt: &R,
    alloc: Global,
    capacities: [u32; CHANNELS],
) -> Option<Result<([u8; CHANNELS], [u64; CHANNELS]), PeerFault>> {
    let parts = lanes(alloc, 7, Version::One).ok()?;
    let ends = parts.ends;
    match share_all(alloc, capacities, ends) {
        Ok(inboxes) => {
            let incoming = inboxes.incoming;
            let mut outgoing = inboxes.outgoing;
            issue_each(rt, &mut outgoing);
            Some(Ok(lanes_and_outstanding(&finish_all(incoming, outgoing))))
        }
        Err(fault) => Some(Err(fault)),
    }
}

#[test]
fn seven_inboxes(rt: HostRuntime) -> Result<(), Fail> {
    for &(capacities, want) in &CAPACITIES {
        let found = shared(&rt, rt.alloc(), capacities).ok_or("no memory")?;
        same(&rt, "share_all", text(rt.alloc(), &found), want);
    }
    Ok(())
}
