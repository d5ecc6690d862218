//! Two peers of one session exchange messages on three channels over two pipes in memory.
#![tactic(auto)]

use anyhow::{Error, ensure};
use lc_driver::{Counted, Link, ReadEnd};
use lc_frame::Channel::{self, Capability, Data, Overlap};
use lc_frame::{CHANNELS, Version};
use lc_peer::{Config, Take};

fn new_link(rt: &HostRuntime) -> Result<Link, Error> {
    let config = Config {
        version: Version::One,
        capacities: [1024; CHANNELS],
        slots: 16,
    };
    Ok(Link::new(rt.alloc(), config)?)
}

// All that waits at one side goes through a pipe to the other.
fn carry(rt: &HostRuntime, from: &mut Link, to: &mut Link) -> Result<(), Error> {
    let mut writer = Counted::new(Vec::new(rt.alloc()));
    from.write_out(&mut writer)?;
    let bytes = writer.into_inner();
    let mut reader = Counted::new(bytes.as_slice());
    let end = to.read_in(&mut reader, u64::MAX);
    ensure!(end == ReadEnd::Clean, "{end:?}");
    Ok(())
}

// A message goes from Alice to Bob, who promises room for it, takes it and promises its room anew.
fn exchange(rt: &HostRuntime, alice: &mut Link, bob: &mut Link, at: Channel) -> Result<(), Error> {
    bob.peer.issue(at, 8)?;
    carry(rt, bob, alice)?;
    alice.peer.send(at, b"hello")?;
    carry(rt, alice, bob)?;
    let mut buffer = [0; 64];
    if let Take::Took(len) = bob.peer.take_into(at, &mut buffer)? {
        println!(rt; "{at:?}: {len} bytes")?;
        bob.peer.issue(at, len as u32)?;
    }
    carry(rt, bob, alice)
}

fn main(rt: HostRuntime) -> Result<(), Error> {
    let (mut alice, mut bob) = (new_link(&rt)?, new_link(&rt)?);
    for at in [Data, Overlap, Capability] {
        exchange(&rt, &mut alice, &mut bob, at)?;
    }
    Ok(())
}
