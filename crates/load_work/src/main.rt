//! Workloads whose time is compared between two builds of this repository. The arguments are in
//! threes: a kind, a number from which its input is generated, and how much of it is done. For each a
//! line is printed: the kind, and a digest of the results, which is the same at each run.
//!
//! Between two peers on one thread, over streams in memory: `small` sends messages of up to 4 KiB on all
//! channels, `bulk` messages of up to 512 KiB, and `crumbs` messages of up to 8 bytes, whose streams
//! arrive in chunks of up to 8 bytes; `uneven` sends messages of 16 to 102,400 bytes through rings that
//! never get empty. `session` sends messages between the handles of a session in threads, over a pipe of
//! the system. `latency` sends messages over TCP on one channel, one each millisecond, while six channels
//! carry bulk; the median and the 99th percentile of their latency, in microseconds, go to standard
//! error. `replay` replays scripts, `chart` draws them, and `frames` lists streams.
#![tactic(auto)]

mod digest;
mod latency;
mod links;
mod random;
mod scripts;
mod sessions;
mod streams;

use digest::Digest;
use latency::Latency;
use links::Traffic;
use random::Random;
use scripts::Task;
use std::alloc::Global;
use std::env::Args;
use std::fs::Files;
use std::net::{Net, TcpListener, TcpStream};
use std::sync::Wait;
use std::thread::Threads;
use std::time::Clock;
use std::{env, io};

// What came of some work: a digest of it, and what it measured besides.
#[derive(Drop)]
struct Outcome {
    digest: Digest,
    latency: Option<Latency>,
}

impl Outcome {
    fn of(digest: Digest) -> Outcome {
        Outcome {
            digest,
            latency: None,
        }
    }

    fn of_latency(latency: Latency) -> Outcome {
        Outcome {
            digest: latency.digest,
            latency: Some(latency),
        }
    }

    fn print(&self, rt: &HostRuntime, kind: &str) -> io::Result<()> {
        println!(rt; "{kind} {:016x}", self.digest.value())?;
        match &self.latency {
            Some(latency) => {
                let (median, most) = (latency.within(50), latency.within(99));
                eprintln!(rt; "median {median}\np99 {most}")
            }
            None => Ok(()),
        }
    }
}

// So much work of a kind, and a number that its input grows from.
#[derive(Drop)]
struct Work {
    kind: String,
    seed: u32,
    count: u32,
}

fn number(word: &str) -> u32 {
    word.parse::<u32>().unwrap_or(0)
}

impl Work {
    // By the next three words, if there are so many.
    fn by_words(words: &mut Args) -> Option<Work> {
        let kind = words.next()?;
        let seed = number(words.next()?.as_str());
        let count = number(words.next()?.as_str());
        Some(Work { kind, seed, count })
    }

    // Does it. `None` where there is no such kind, or where it failed.
    fn outcome<R, H>(&self, rt: R, host: &H, alloc: Global) -> Option<Outcome>
    where
        R: Threads + Wait + Clock + Copy + Send + Sync + 'static,
        H: Files + Net<Listener = TcpListener, Stream = TcpStream>,
    {
        let (random, count) = (Random::new(self.seed), self.count);
        let digest = match self.kind.as_str() {
            "small" => links::exchange(alloc, Traffic::SMALL, random, count),
            "bulk" => links::exchange(alloc, Traffic::BULK, random, count),
            "crumbs" => links::exchange(alloc, Traffic::CRUMBS, random, count),
            "uneven" => links::exchange(alloc, Traffic::UNEVEN, random, count),
            "session" => sessions::exchange(&rt, host, alloc, random, count),
            "replay" => scripts::run_all(alloc, Task::Replay, random, count),
            "chart" => scripts::run_all(alloc, Task::Draw, random, count),
            "frames" => streams::list_all(alloc, random, count),
            "latency" => {
                let latency = latency::measure(&rt, host, alloc, random, count)?;
                return Some(Outcome::of_latency(latency));
            }
            _ => None,
        };
        Some(Outcome::of(digest?))
    }
}

fn main(rt: HostRuntime) -> io::Result<()> {
    let mut words = env::args(&rt)?;
    let _program = words.next();
    for _ in rt.forever() {
        let Some(work) = Work::by_words(&mut words) else {
            break;
        };
        match work.outcome(rt, &rt, rt.alloc()) {
            Some(outcome) => outcome.print(&rt, work.kind.as_str())?,
            None => println!(rt; "{} failed", work.kind)?,
        }
    }
    Ok(())
}
