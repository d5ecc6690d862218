//! The command line, and what each command does.
use crate::argument::{parse_capacity, parse_version};
use crate::error_line::ErrorLine;
use crate::fault::{Fault, Status};
use crate::help::{Asked, HELP};
use crate::listing::frames;
use crate::looping::print_loopback;
use crate::number::parse_decimal;
use crate::replaying::replay_as;
use lc_frame::Version;
use lc_loopback_report::{LoopFault, LoopReport};
use std::alloc::Global;
use std::env::Args;
use std::io;
use std::io::{ErrorKind, Read, Write};

/// The most messages that two sessions exchange on each channel.
const MAX_COUNT: u32 = 100_000;

/// Runs the program on these arguments, of which the first is its name, with these three streams,
/// and answers the exit status: 0 done, 1 memory, a device or a loopback failed, 2 the arguments or
/// the input are bad. Arguments that could not be read, as those that are not text, name no command.
/// Output that nobody reads any more ends the run with 0 and without a line on `err`, which is
/// coloured where that is asked for.
///
/// Two sessions exchange messages by `loopback`, which is handed in: so nothing here starts a thread.
pub fn run<I: Read, W: Write, E: Write, F>(
    alloc: Global,
    arguments: io::Result<Args>,
    input: &mut I,
    out: &mut W,
    err: &mut E,
    is_coloured: bool,
    loopback: F,
) -> u8
where
    F: FnOnce(u32) -> Result<LoopReport, LoopFault>,
    requires { F.IsAlwaysCallable loopback }
{
    let mut line = ErrorLine::new();
    let code = match Command::from_arguments(alloc, arguments) {
        Ok(Command::Print(asked)) => print(asked, out, &mut line),
        Ok(Command::Replay { capacity, version }) => {
            replay_as(alloc, capacity, version, input, out, &mut line)
        }
        Ok(Command::Frames) => frames(alloc, input, out, &mut line),
        Ok(Command::Loopback { count }) => {
            print_loopback(alloc, loopback(count), out, &mut line)
        }
        Err(fault) => fault.report(&mut line),
    };
    line.show(is_coloured, err);
    Status::exit_code(code)
}

fn print<W: Write, E: Write>(asked: Asked, out: &mut W, err: &mut E) -> u8 {
    match asked.print("lcmux", HELP, out) {
        Ok(()) => Status::Done.code(),
        Err(fault) => fault.report(err),
    }
}

// What the program is asked to do.
#[derive(Clone, Copy)]
enum Command {
    // Print the help or the version.
    Print(Asked),
    // Replay a script, with receiving rings of so many bytes and streams of the version.
    Replay { capacity: u32, version: Version },
    // Print the frames of a stream.
    Frames,
    // Let two sessions exchange so many messages on each channel.
    Loopback { count: u32 },
}

impl Command {
    fn from_arguments(alloc: Global, arguments: io::Result<Args>) -> Result<Command, Fault> {
        let words = match arguments {
            Ok(arguments) => arguments.collect::<Vec<String>>(alloc)?,
            Err(error) if error.kind() == ErrorKind::OutOfMemory => return Err(Fault::OutOfMemory),
            Err(_) => return Err(Fault::Usage),
        };
        Command::parse(words.as_slice()).ok_or(Fault::Usage)
    }

    fn parse(words: &[String]) -> Option<Command> {
        match words {
            [_, word] if word.as_str().starts_with('-') => {
                Asked::of(word.as_str()).map(Command::Print)
            }
            [_, name, word] if is_command(name.as_str()) && is_help(word.as_str()) => {
                Some(Command::Print(Asked::Help))
            }
            [_, name, capacity] if name.as_str() == "replay" => Some(Command::Replay {
                capacity: parse_capacity(capacity.as_str())?,
                version: Version::One,
            }),
            [_, name, capacity, version] if name.as_str() == "replay" => Some(Command::Replay {
                capacity: parse_capacity(capacity.as_str())?,
                version: parse_version(version.as_str())?,
            }),
            [_, name] if name.as_str() == "frames" => Some(Command::Frames),
            [_, name, count] if name.as_str() == "loopback" => Some(Command::Loopback {
                count: parse_count(count.as_str())?,
            }),
            _ => None,
        }
    }
}

fn is_command(name: &str) -> bool {
    matches!(name, "replay" | "frames" | "loopback")
}

fn is_help(word: &str) -> bool {
    Asked::of(word) == Some(Asked::Help)
}

fn parse_count(text: &str) -> Option<u32> {
    let count = u32::try_from(parse_decimal(text)?).ok()?;
    (1 <= count && count <= MAX_COUNT).then_some(count)
}
