//! One end of a world: a peer, the stream that it writes, and what came of a frame of the other.
ghost use Rattle.std.specs.Prelude.{◌≡◌, ◌↔◌, replicate, ◌+◌, ◌≤◌, ◌<◌, All, IfOk, IfSome, Err, vec_len, vec_capacity};
ghost use Rattle.lc_frame.specs.Bounds.{IsCapacity};
ghost use Rattle.lc_frame.specs.Frame.{IsValid};
ghost use Rattle.lc_frame.specs.Channel.{channel_count};
ghost use Rattle.lc_peer.specs.Config as configs;
ghost use Rattle.lc_peer.specs.Calls.{next, without_next};
ghost use Rattle.lc_world.specs.State.{size};
ghost use Rattle.lc_world.specs.Calls.{IsNewEnd, with_next};

use lc_frame::{CHANNELS, StreamDecoder, Version};
use lc_peer::{Config, Peer, PeerFault};
use lc_ring::NewFault;
use std::alloc::Global;

#[derive(Drop)]
pub(crate) struct Endpoint {
    pub peer: Peer,
    /// The greeting of the peer's version, and the bytes of all frames that it put.
    pub stream: Vec<u8>,
    /// How many of them were delivered to the other end.
    pub delivered: usize,
    /// What was delivered of the other end's greeting or next frame.
    pub decoder: StreamDecoder,
}

// All rings have one capacity, and a frame goes out at once.
fn new_peer(alloc: Global, version: Version, capacity: u32) -> Result<Peer, NewFault>
    ensures capacity { (result ≡ Err NewFault.BadCapacity) ↔ ¬ IsCapacity capacity }
    ensures made { IfOk result (λ _. IsCapacity capacity) }
    ensures value { IfOk result (λ peer. peer ≡ configs.new_peer (record { version = version; capacities = replicate channel_count capacity; slots = 1 })) }
{
    let config = Config {
        version,
        capacities: [capacity; CHANNELS],
        slots: 1,
    };
    match Peer::new(alloc, config) {
        Ok(peer) => Ok(peer),
        Err(PeerFault::BadCapacity { .. }) => Err(NewFault::BadCapacity),
        Err(PeerFault::BadSlots { .. }) => unreachable!(),
        Err(PeerFault::OutOfMemory) => Err(NewFault::OutOfMemory),
    }
}

impl Endpoint {
    /// An end at which nothing has happened. The memory of its rings, of its decoder and of its
    /// greeting is taken here.
    pub(crate) fn new(alloc: Global, version: Version, capacity: u32) -> Result<Endpoint, NewFault>
        ensures capacity { (result ≡ Err NewFault.BadCapacity) ↔ ¬ IsCapacity capacity }
        ensures made { IfOk result (λ _. IsCapacity capacity) }
        ensures value { IfOk result (IsNewEnd version capacity) }
    {
        let peer = new_peer(alloc, version, capacity)?;
        let Ok(decoder) = StreamDecoder::new(alloc) else {
            return Err(NewFault::OutOfMemory);
        };
        let mut stream = Vec::new(alloc);
        if stream.extend_from_slice(version.greeting()).is_err() {
            return Err(NewFault::OutOfMemory);
        }
        Ok(Endpoint {
            peer,
            stream,
            delivered: 0,
            decoder,
        })
    }
}

/// The frame that waits, if there is one, goes to the stream, where there is room for it.
pub(crate) fn go_out(peer: &mut Peer, stream: &mut Vec<u8>)
    requires { IfSome (next peer.old) (λ f. IsValid peer.old.version f → vec_len stream.old + size peer.old.version f ≤ vec_capacity stream.old) }
    ensures peer { peer.new ≡ without_next peer.old }
    ensures stream { stream.new.items ≡ with_next peer.old.version (next peer.old) stream.old.items }
    ensures valid { IfSome (next peer.old) (IsValid peer.old.version) }
    ensures bytes { All (λ b. b < 256) stream.new.items }
{
    let version = peer.version();
    match peer.next_out() {
        Some(frame) => {
            if frame.encode_into(version, stream).is_err() {
                unreachable!();
            }
        }
        None => {}
    }
    let _bytes = stream.as_slice();
}
