//! The balances of a session's channels, and its free slots, behind its handle.
ghost use Rattle.std.specs.Prelude.{◌≡◌, ◌-◌, length};
ghost use Rattle.lc_frame.specs.Channel.{channel_at};
ghost use Rattle.lc_peer.specs.Peer.{client, server};
ghost use Rattle.lc_c.specs.Answers.{sized, filled};
ghost use Rattle.lc_c.specs.Asking.{told};
ghost use Rattle.lc_c.specs.Balances.{client_size, client_shown, server_size, server_shown};
ghost use Rattle.lc_c.specs.Reach.{answered, given, answered_alone};

use super::reach::{LcmuxMux, open, reach};
use crate::answer::{LcmuxAnswer, NO_PEER, only, sized};
use crate::asking::told;
use crate::balances::{
    CLIENT_SIZE, LcmuxClient, LcmuxServer, SERVER_SIZE, client_shown, server_shown,
};
use crate::reach::Target;
use std::alloc::Global;

/// The balances of a channel as client. Code 39, where the struct is too short, and stays as it was.
#[unsafe(no_mangle)]
#[tactic(auto, using(crate::proofs::Barred::given_barred))]
pub extern "C" fn lcmux_mux_client(
    alloc: Global,
    mux: &mut LcmuxMux,
    channel: u32,
    balances: &mut LcmuxClient,
) -> LcmuxAnswer
    ensures answer { result ≡ answered mux.old.slot.held (channel_at channel) (λ session c. sized balances.old.size client_size) }
    ensures balances { balances.new ≡ given mux.old.slot.held (channel_at channel) (λ session c. filled balances.old.size client_size (client_shown balances.old.size (client session.mux.lines.scheduler.peer c)) balances.old) balances.old }
    ensures same { mux.new.slot.held ≡ mux.old.slot.held }
{
    match reach(mux, alloc, channel) {
        Target::Barred(answer) => answer,
        Target::At(session, channel) => {
            let answer = sized(balances.size, CLIENT_SIZE);
            if balances.size >= CLIENT_SIZE {
                *balances = client_shown(balances.size, &session.mux.peer().client(channel));
            }
            *mux = LcmuxMux::of(session);
            answer
        }
    }
}

/// The balances of a channel as server. Code 39, where the struct is too short, and stays as it was.
#[unsafe(no_mangle)]
#[tactic(auto, using(crate::proofs::Barred::given_barred))]
pub extern "C" fn lcmux_mux_server(
    alloc: Global,
    mux: &mut LcmuxMux,
    channel: u32,
    balances: &mut LcmuxServer,
) -> LcmuxAnswer
    ensures answer { result ≡ answered mux.old.slot.held (channel_at channel) (λ session c. sized balances.old.size server_size) }
    ensures balances { balances.new ≡ given mux.old.slot.held (channel_at channel) (λ session c. filled balances.old.size server_size (server_shown balances.old.size (server session.mux.lines.scheduler.peer c)) balances.old) balances.old }
    ensures same { mux.new.slot.held ≡ mux.old.slot.held }
{
    match reach(mux, alloc, channel) {
        Target::Barred(answer) => answer,
        Target::At(session, channel) => {
            let answer = sized(balances.size, SERVER_SIZE);
            if balances.size >= SERVER_SIZE {
                *balances = server_shown(balances.size, &session.mux.peer().server(channel));
            }
            *mux = LcmuxMux::of(session);
            answer
        }
    }
}

/// The number is how many slots of the outbound queue are free.
#[unsafe(no_mangle)]
pub extern "C" fn lcmux_mux_slots_left(alloc: Global, mux: &mut LcmuxMux) -> LcmuxAnswer
    ensures answer { result ≡ answered_alone mux.old.slot.held (λ session. told (session.mux.lines.scheduler.peer.slots - length session.mux.lines.scheduler.peer.waiting)) }
    ensures same { mux.new.slot.held ≡ mux.old.slot.held }
{
    match open(mux, alloc) {
        None => only(NO_PEER),
        Some(session) => {
            let slots = session.mux.peer().slots_left();
            *mux = LcmuxMux::of(session);
            told(slots as u64)
        }
    }
}
