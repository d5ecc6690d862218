//! The balances of a peer's channels, behind its handle.
ghost use Rattle.std.specs.Prelude.{◌≡◌};
ghost use Rattle.lc_frame.specs.Channel.{channel_at};
ghost use Rattle.lc_peer.specs.Peer.{client, server};
ghost use Rattle.lc_c.specs.Answers.{sized, filled};
ghost use Rattle.lc_c.specs.Reach.{answered, given};
ghost use Rattle.lc_c.specs.Balances.{or_no_limit, flag, client_size, client_shown, server_size, server_shown};

use crate::answer::{LcmuxAnswer, sized};
use crate::peer::LcmuxPeer;
use crate::reach::{Target, reach};
use lc_book::{ClientBook, ServerBook};
use std::alloc::Global;

/// What stands in place of a number that is not there: a limit, or a plead.
pub const NO_LIMIT: u64 = u64::MAX;

/// The size of [`LcmuxClient`].
pub(crate) const CLIENT_SIZE: u64 = 80;

/// The size of [`LcmuxServer`].
pub(crate) const SERVER_SIZE: u64 = 104;

/// The balances of a channel at its client, in bytes of messages.
#[repr(C)]
#[derive(Clone, Copy)]
pub struct LcmuxClient {
    /// The bytes of the caller's struct, which may be of a later version.
    pub size: u64,
    pub held: u64,
    pub received: u64,
    pub spent: u64,
    pub absolved: u64,
    pub waived: u64,
    pub send_left: u64,
    pub receive_left: u64,
    pub asked: u64,
    pub finished: u64,
}

/// The balances of a channel at its server, in bytes of messages.
#[repr(C)]
#[derive(Clone, Copy)]
pub struct LcmuxServer {
    /// The bytes of the caller's struct, which may be of a later version.
    pub size: u64,
    pub capacity: u64,
    pub issued: u64,
    pub received: u64,
    pub taken: u64,
    pub absolved: u64,
    pub outstanding: u64,
    pub buffered: u64,
    pub room: u64,
    pub waived: u64,
    pub send_left: u64,
    pub receive_left: u64,
    pub finished: u64,
}

pub(crate) fn or_no_limit(left: Option<u64>) -> u64
    ensures { result ≡ or_no_limit left }
{
    match left {
        Some(left) => left,
        None => NO_LIMIT,
    }
}

// C may hand in any byte, which a bool is not.
pub(crate) fn flag(is: bool) -> u64
    ensures { result ≡ flag is }
{
    if is { 1 } else { 0 }
}

// The target of a plead.
pub(crate) fn or_no_plead(asked: Option<u32>) -> u64
    ensures { result ≡ or_no_limit asked }
{
    match asked {
        Some(target) => u64::from(target),
        None => NO_LIMIT,
    }
}

pub(crate) fn client_shown(size: u64, book: &ClientBook) -> LcmuxClient
    ensures { result ≡ client_shown size book.now }
{
    LcmuxClient {
        size,
        held: book.held(),
        received: book.received(),
        spent: book.spent(),
        absolved: book.absolved(),
        waived: book.waived(),
        send_left: or_no_limit(book.send_left()),
        receive_left: or_no_limit(book.receive_left()),
        asked: or_no_plead(book.asked()),
        finished: flag(book.is_finished()),
    }
}

pub(crate) fn server_shown(size: u64, book: &ServerBook) -> LcmuxServer
    ensures { result ≡ server_shown size book.now }
{
    LcmuxServer {
        size,
        capacity: u64::from(book.capacity()),
        issued: book.issued(),
        received: book.arrived(),
        taken: book.taken(),
        absolved: book.absolved(),
        outstanding: book.outstanding(),
        buffered: book.buffered(),
        room: book.room(),
        waived: book.waived(),
        send_left: or_no_limit(book.send_left()),
        receive_left: or_no_limit(book.receive_left()),
        finished: flag(book.is_finished()),
    }
}

/// The balances of a channel as client. Code 39, where the struct is too short, and stays as it was.
#[unsafe(no_mangle)]
pub extern "C" fn lcmux_peer_client(
    alloc: Global,
    peer: &mut LcmuxPeer,
    channel: u32,
    balances: &mut LcmuxClient,
) -> LcmuxAnswer
    ensures answer { result ≡ answered peer.old.slot.held (channel_at channel) (λ side c. sized balances.old.size client_size) }
    ensures balances { balances.new ≡ given peer.old.slot.held (channel_at channel) (λ side c. filled balances.old.size client_size (client_shown balances.old.size (client side.peer c)) balances.old) balances.old }
    ensures same { peer.new.slot.held ≡ peer.old.slot.held }
{
    match reach(peer, alloc, channel) {
        Target::Barred(answer) => answer,
        Target::At(side, channel) => {
            let answer = sized(balances.size, CLIENT_SIZE);
            if balances.size >= CLIENT_SIZE {
                *balances = client_shown(balances.size, &side.peer.client(channel));
            }
            *peer = LcmuxPeer::of(side);
            answer
        }
    }
}

/// The balances of a channel as server. Code 39, where the struct is too short, and stays as it was.
#[unsafe(no_mangle)]
pub extern "C" fn lcmux_peer_server(
    alloc: Global,
    peer: &mut LcmuxPeer,
    channel: u32,
    balances: &mut LcmuxServer,
) -> LcmuxAnswer
    ensures answer { result ≡ answered peer.old.slot.held (channel_at channel) (λ side c. sized balances.old.size server_size) }
    ensures balances { balances.new ≡ given peer.old.slot.held (channel_at channel) (λ side c. filled balances.old.size server_size (server_shown balances.old.size (server side.peer c)) balances.old) balances.old }
    ensures same { peer.new.slot.held ≡ peer.old.slot.held }
{
    match reach(peer, alloc, channel) {
        Target::Barred(answer) => answer,
        Target::At(side, channel) => {
            let answer = sized(balances.size, SERVER_SIZE);
            if balances.size >= SERVER_SIZE {
                *balances = server_shown(balances.size, &side.peer.server(channel));
            }
            *peer = LcmuxPeer::of(side);
            answer
        }
    }
}
