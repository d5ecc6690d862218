//! What is to be measured.
use std::{env, io};

/// How often a figure is taken where nothing else is asked for.
const REPS: u64 = 3;

/// What is to be done, by the arguments and the environment.
#[derive(Drop)]
pub struct Plan {
    /// Print the names alone.
    pub listing: bool,
    /// Run so many turns of each figure, and time nothing.
    pub fixed: Option<u64>,
    /// Repetitions of each figure.
    pub reps: u64,
    /// What the names of the figures begin with.
    pub prefix: String,
}

// The number in a variable of the environment.
fn number(rt: &HostRuntime, variable: &str) -> Option<u64> {
    env::var(rt, variable).ok()?.parse::<u64>().ok()
}

impl Plan {
    /// The plan of this process.
    pub fn from_environment(rt: &HostRuntime) -> io::Result<Plan> {
        let mut arguments = env::args(rt)?;
        let _program = arguments.next();
        let mut listing = false;
        let mut prefix = String::new(rt.alloc());
        for argument in arguments {
            if argument.as_str() == "list" {
                listing = true;
            } else {
                prefix = argument;
            }
        }
        Ok(Plan {
            listing,
            fixed: number(rt, "BENCH_FIXED"),
            reps: number(rt, "BENCH_REPS").unwrap_or(REPS).max(1),
            prefix,
        })
    }

    /// Whether the figure of this name is to be taken.
    pub fn wants(&self, name: &str) -> bool {
        name.starts_with(self.prefix.as_str())
    }
}
