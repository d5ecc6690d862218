//! Two processes make their lists of items equal, over one TCP connection and a session in threads:
//! `example_tcp listen 7000` in one terminal, then `example_tcp connect 7000` in another. Each prints the
//! items that it lacked. Without arguments both sides run in this process.
#![tactic(auto)]

mod calls;
mod fault;
mod items;
mod patience;
mod side;
mod tasks;

use anyhow::{Context, Error, anyhow};
use fault::Fault;
use items::{CONNECTING, LISTENING};
use patience::accept;
use side::{Synced, sync};
use std::alloc::Global;
use std::env;
use std::net::{Ipv4Addr, Net, TcpListener, TcpStream};
use std::sync::Wait;
use std::thread::{Threads, join};
use std::time::Clock;

/// What this process is to do.
#[derive(Clone, Copy)]
enum Job {
    /// Wait for another process at a port.
    Listen(u16),
    /// Connect to the one that listens there.
    Connect(u16),
    /// Both, here.
    Both,
}

fn job_of(words: &[String]) -> Result<Job, Error> {
    match words {
        [_, what, port] if what.as_str() == "listen" => Ok(Job::Listen(port.parse()?)),
        [_, what, port] if what.as_str() == "connect" => Ok(Job::Connect(port.parse()?)),
        [_] => Ok(Job::Both),
        _ => Err(anyhow!("usage: example_tcp listen PORT, example_tcp connect PORT, example_tcp")),
    }
}

// The items that a side lacked; or why it failed, and what never went out.
fn lacked_of(synced: Result<Synced, Fault>) -> Result<String, Error> {
    let Synced {
        lacked,
        left,
        partly,
    } = synced?;
    lacked.context(format_args!(
        "{left} frames never went out, nor {partly} bytes of one that was begun"
    ))
}

// Waits for one other process.
fn listen<R>(rt: &R, alloc: Global, port: u16) -> Result<String, Error>
where
    R: Net<Listener = TcpListener, Stream = TcpStream> + Threads + Wait + Clock + Sync,
{
    let listener = TcpListener::bind(rt, (Ipv4Addr::LOCALHOST, port))?;
    let socket = accept(rt, &listener)?;
    lacked_of(sync(rt, alloc, socket, LISTENING))
}

fn connect<R>(rt: &R, alloc: Global, port: u16) -> Result<String, Error>
where
    R: Net<Listener = TcpListener, Stream = TcpStream> + Threads + Wait + Clock + Sync,
{
    let socket = TcpStream::connect(rt, (Ipv4Addr::LOCALHOST, port))?;
    lacked_of(sync(rt, alloc, socket, CONNECTING))
}

// Both ends of a connection in this process: that of the side that connects, and of the other.
fn connected<R>(rt: &R) -> Result<(TcpStream, TcpStream), Error>
where
    R: Net<Listener = TcpListener, Stream = TcpStream> + Wait + Clock,
{
    let listener = TcpListener::bind(rt, (Ipv4Addr::LOCALHOST, 0u16))?;
    let far = TcpStream::connect(rt, listener.local_addr()?)?;
    let near = accept(rt, &listener)?;
    Ok((far, near))
}

// What both sides lacked.
fn both_lacked(alloc: Global, listening: String, connecting: String) -> Result<String, Error> {
    let text = format!(in alloc;
        "the side that listens lacked\n{listening}the other lacked\n{connecting}"
    )?;
    Ok(text)
}

// Both sides in this process.
fn both<R>(rt: &R, alloc: Global) -> Result<String, Error>
where
    R: Net<Listener = TcpListener, Stream = TcpStream> + Threads + Wait + Clock + Sync,
{
    let (far, near) = connected(rt)?;
    let (connecting, listening) = join(
        rt,
        || sync(rt, alloc, far, CONNECTING),
        || sync(rt, alloc, near, LISTENING),
    );
    let listening = lacked_of(listening)?;
    both_lacked(alloc, listening, lacked_of(connecting)?)
}

fn main(rt: HostRuntime) -> Result<(), Error> {
    let words = env::args(&rt)?.collect::<Vec<String>>(rt.alloc())?;
    let lacked = match job_of(&words)? {
        Job::Listen(port) => listen(&rt, rt.alloc(), port),
        Job::Connect(port) => connect(&rt, rt.alloc(), port),
        Job::Both => both(&rt, rt.alloc()),
    };
    print!(rt; "{}", lacked?)?;
    Ok(())
}
