//! What one side of an inbox did stays, where the other goes away or never comes.
use crate::tests::queue::pop;
use crate::tests::{same, text};
use lc_frame::{Channel, Frame};
use lc_inbox::{InboxOut, SharedInbox};
use std::alloc::Global;
use std::process::Abort;
use std::sync::Wait;
use std::test::Fail;
use test_threads::{hear, new_pair};

// A message is taken into a buffer of two bytes, which were 238.
fn takes(rt: &(impl Wait + Abort), alloc: Global, outgoing: &mut InboxOut, wanted: &str) {
    let mut buffer = [0xee; 2];
    let took = outgoing.take_into(rt, &mut buffer);
    same(rt, "a take", text(alloc, &(took, buffer)), wanted);
}

fn issued(amount: u32) -> Frame {
    let channel = Channel::Data;
    Frame::Issue { channel, amount }
}

#[test]
fn a_reader_that_is_gone_leaves_what_arrived(rt: HostRuntime) -> Result<(), Fail> {
    let alloc = rt.alloc();
    let (shared, mut drain) = new_pair(alloc, 8, 8, 4)?;
    let SharedInbox {
        mut incoming,
        mut outgoing,
    } = shared;
    assert!(rt; outgoing.issue(&rt, 8).is_ok());
    assert!(rt; hear(&rt, &mut incoming, b"a") && hear(&rt, &mut incoming, b"bc"));
    drop(incoming);
    takes(&rt, alloc, &mut outgoing, "(Ok(Took(1)), [97, 238])");
    takes(&rt, alloc, &mut outgoing, "(Ok(Took(2)), [98, 99])");
    takes(&rt, alloc, &mut outgoing, "(Ok(Empty), [238, 238])");
    assert!(rt; outgoing.issue(&rt, 3).is_ok() && outgoing.book(&rt).outstanding() == 8);
    pop(&rt, &mut drain, &issued(8));
    pop(&rt, &mut drain, &issued(3));
    assert!(rt; drain.pop(&rt).is_none());
    Ok(())
}

#[test]
fn a_receiver_that_is_gone_leaves_what_was_issued(rt: HostRuntime) -> Result<(), Fail> {
    let (shared, _drain) = new_pair(rt.alloc(), 8, 8, 4)?;
    let SharedInbox {
        mut incoming,
        mut outgoing,
    } = shared;
    assert!(rt; outgoing.issue(&rt, 8).is_ok());
    drop(outgoing);
    assert!(rt; hear(&rt, &mut incoming, b"a") && hear(&rt, &mut incoming, b"bc"));
    assert!(rt; !hear(&rt, &mut incoming, b"defghi"));
    Ok(())
}
