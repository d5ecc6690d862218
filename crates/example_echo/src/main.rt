//! An echo over TCP: `example_echo listen 127.0.0.1:7000` in one terminal, then
//! `example_echo connect 127.0.0.1:7000 hello world` in another. Without arguments both sides run in this process.
#![tactic(auto)]

mod client;
mod server;
mod side;

use anyhow::{Error, bail};
use client::ask;
use server::serve;
use std::alloc::Global;
use std::env;
use std::net::{Ipv4Addr, Net, TcpListener, TcpStream};
use std::rt::Runtime;
use std::thread::{Threads, join};

// Serves one client after the other.
fn listen<R>(rt: &R, alloc: Global, address: &str) -> Result<(), Error>
where
    R: Runtime + Net<Listener = TcpListener, Stream = TcpStream>,
{
    let listener = TcpListener::bind(rt, address)?;
    println!(rt; "listening on {}", listener.local_addr()?)?;
    for socket in listener.incoming() {
        match serve(alloc, &socket?) {
            Ok(echo) => println!(rt; "{echo}")?,
            Err(error) => eprintln!(rt; "a session failed: {error}")?,
        }
    }
    Ok(())
}

// Sends the messages, and returns their echoes.
fn connect<R>(rt: &R, alloc: Global, address: &str, messages: &[String]) -> Result<String, Error>
where
    R: Net<Listener = TcpListener, Stream = TcpStream>,
{
    let socket = TcpStream::connect(rt, address)?;
    ask(alloc, &socket, messages)
}

// Both sides of a connection, each in a thread of its own: what they print.
fn both<R>(rt: &R, alloc: Global) -> Result<String, Error>
where
    R: Net<Listener = TcpListener, Stream = TcpStream> + Threads + Sync,
{
    let messages = [format!(in alloc; "hello")?, format!(in alloc; "world")?];
    let listener = TcpListener::bind(rt, (Ipv4Addr::LOCALHOST, 0u16))?;
    let near = TcpStream::connect(rt, listener.local_addr()?)?;
    let (far, _) = listener.accept()?;
    let (echo, echoes) = join(rt, || serve(alloc, &far), || ask(alloc, &near, &messages));
    let text = format!(in alloc; "{}{}\n", echoes?, echo?)?;
    Ok(text)
}

fn main(rt: HostRuntime) -> Result<(), Error> {
    let alloc = rt.alloc();
    let words = env::args(&rt)?.collect::<Vec<String>>(alloc)?;
    match words.as_slice() {
        [_, what, address] if what.as_str() == "listen" => listen(&rt, alloc, address.as_str()),
        [_, what, address, messages @ ..] if what.as_str() == "connect" => {
            let echoes = connect(&rt, alloc, address.as_str(), messages)?;
            print!(rt; "{echoes}")?;
            Ok(())
        }
        [_] => {
            print!(rt; "{}", both(&rt, alloc)?)?;
            Ok(())
        }
        _ => bail!("usage: example_echo listen ADDRESS, example_echo connect ADDRESS [MESSAGE].."),
    }
}
