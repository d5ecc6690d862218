//! How a figure is taken and printed.
use crate::plan::Plan;
use std::io;
use std::num::nearest_u64_to_f64;
use std::time::{Duration, Instant};

/// How long a repetition lasts about, in nanoseconds.
const TARGET: u64 = 20_000_000;

/// What a figure is taken of.
pub trait Turns {
    /// Runs so many turns. What it reads goes into the sum.
    fn run(&mut self, turns: u64, sum: &mut u64) -> io::Result<()>;
}

/// What a figure is called, and what a turn of it has.
#[derive(Clone, Copy)]
pub struct Figure<'a> {
    pub name: &'a str,
    /// What is counted, as `frames`.
    pub things: &'a str,
    /// How many of these a turn has.
    pub count: usize,
    /// The bytes of a turn, where their rate says something.
    pub bytes: Option<usize>,
}

/// What is left to do for a figure.
pub enum Due {
    Nothing,
    /// Run so many turns.
    Turns(u64),
    /// Take the seconds of a turn, and print the figure.
    Seconds,
}

impl Figure<'_> {
    /// Prints the figure, its names, what a turn has, or nothing, as the plan says.
    pub fn take<T: Turns>(&self, rt: &HostRuntime, plan: &Plan, subject: &mut T) -> io::Result<()> {
        match self.begin(rt, plan)? {
            Due::Nothing => Ok(()),
            Due::Turns(turns) => subject.run(turns, &mut 0),
            Due::Seconds => self.print(rt, seconds(rt, plan, subject)?),
        }
    }

    /// Prints the names, or what a turn has, where the plan asks for that, and says what else it
    /// asks for.
    pub fn begin(&self, rt: &HostRuntime, plan: &Plan) -> io::Result<Due> {
        if !plan.wants(self.name) {
            return Ok(Due::Nothing);
        }
        if plan.listing {
            self.list(rt)?;
            return Ok(Due::Nothing);
        }
        match plan.fixed {
            Some(turns) => {
                self.print_turn(rt)?;
                Ok(Due::Turns(turns))
            }
            None => Ok(Due::Seconds),
        }
    }

    // Prints the names.
    fn list(&self, rt: &HostRuntime) -> io::Result<()> {
        println!(rt; "{}.{}", self.name, self.things)?;
        if self.bytes.is_some() {
            println!(rt; "{}.bytes", self.name)?;
        }
        Ok(())
    }

    // Prints how many things a turn has.
    fn print_turn(&self, rt: &HostRuntime) -> io::Result<()> {
        println!(rt; "{} {} per_turn", self.name, self.count)
    }

    /// Prints the figure by the seconds of a turn.
    pub fn print(&self, rt: &HostRuntime, turn: f64) -> io::Result<()> {
        let rate = nearest_u64_to_f64(self.count as u64) / turn;
        println!(rt; "{}.{} {rate:.0} {}/s", self.name, self.things, self.things)?;
        if let Some(bytes) = self.bytes {
            let rate = nearest_u64_to_f64(bytes as u64) / 1e6 / turn;
            println!(rt; "{}.bytes {rate:.1} MB/s", self.name)?;
        }
        Ok(())
    }
}

/// The nanoseconds of a duration, at least 1.
pub fn nanoseconds(took: Duration) -> u64 {
    u64::try_from(took.as_nanos()).unwrap_or(u64::MAX).max(1)
}

/// The seconds of one turn, by the middle of some repetitions of so many turns in nanoseconds.
pub fn middle(mut taken: Vec<u64>, turns: u64) -> io::Result<f64> {
    taken.sort()?;
    let middle = taken.get(taken.len() / 2).copied().unwrap_or(1);
    Ok(nearest_u64_to_f64(middle) / 1e9 / nearest_u64_to_f64(turns))
}

// The nanoseconds of so many turns.
fn time<T: Turns>(rt: &HostRuntime, subject: &mut T, turns: u64) -> io::Result<u64> {
    let mut sum = 0;
    let start = Instant::now(rt)?;
    subject.run(turns, &mut sum)?;
    Ok(nanoseconds(start.elapsed(rt)?))
}

// How many turns last as long as a repetition should.
fn turns_of<T: Turns>(rt: &HostRuntime, subject: &mut T) -> io::Result<u64> {
    let mut turns = 1u64;
    for _ in 0..40u32 {
        let took = time(rt, subject, turns)?;
        if took >= TARGET / 4 {
            return Ok((turns.saturating_mul(TARGET) / took.max(1)).max(1));
        }
        turns = turns.saturating_mul(if took < TARGET / 64 { 16 } else { 2 });
    }
    Ok(turns)
}

// The seconds of one turn: the middle of all repetitions.
fn seconds<T: Turns>(rt: &HostRuntime, plan: &Plan, subject: &mut T) -> io::Result<f64> {
    let turns = turns_of(rt, subject)?;
    let mut taken = Vec::new(rt.alloc());
    for _ in 0..plan.reps {
        taken.push(time(rt, subject, turns)?)?;
    }
    middle(taken, turns)
}
