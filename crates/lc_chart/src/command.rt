//! The command line, and what each command draws.
ghost use Rattle.std.specs.Prelude.{◌≡◌, ℕ, IfErr};
ghost use Rattle.lc_frame.specs.declared.version.Version.{Version};
ghost use Rattle.lc_cli.specs.Fault.{IsCutShort};
ghost use Rattle.lc_chart.specs.Fault.{chart_status};

use crate::drawing::events_of;
use crate::fault::ChartFault;
use crate::picture::draw_session;
use crate::session::Session;
use crate::stream::{Survey, draw_stream};
use lc_cli::{Asked, ErrorLine, Fault, Status, buffered, parse_capacity, parse_version, read_all};
use lc_frame::Version;
use lc_world::Event;
use std::alloc::Global;
use std::env::Args;
use std::io;
use std::io::{ErrorKind, Read, Write};

// What `lcmux_chart --help` prints.
const HELP: &str = "\
Draws LCMUX as SVG: seven flow-controlled channels in each direction over one byte stream.

usage: lcmux_chart CAPACITY [2] < SCRIPT > PICTURE
       lcmux_chart frames < STREAM > PICTURE

commands:
  CAPACITY  draw the session of a script, as lcmux replay CAPACITY answers it
  frames    draw the frames of a byte stream

arguments:
  CAPACITY  size of each receive ring buffer in bytes, 1 to 16777216
  2         write version Two of the wire format, and not One

options:
  -h, --help     print this help
  -V, --version  print the version

exit statuses:
  0  done, or nobody reads the output any more
  1  out of memory, or a read or a write failed
  2  the arguments or the input are bad

example:
  printf 'B issue 1 5\\nA arrive\\nA send 1 6869\\nB arrive\\nB take 1\\n' | lcmux_chart 8 > session.svg
";

/// Runs the program on these arguments, of which the first is its name, with these three streams,
/// and answers the exit status: 0 done, 1 memory or a device failed, 2 the arguments or the input
/// are bad. The whole input is read and checked before anything is drawn; of a stream of frames with
/// a fault those before it are drawn. Output that nobody reads any more ends the run with 0 and
/// without a line on `err`, which is coloured where that is asked for.
pub fn run<R: Read, W: Write, E: Write>(
    alloc: Global,
    arguments: io::Result<Args>,
    input: &mut R,
    out: &mut W,
    err: &mut E,
    is_coloured: bool,
) -> u8 {
    let mut line = ErrorLine::new();
    let code = match Request::from_arguments(alloc, arguments) {
        Ok(Request::Print(asked)) => print(asked, out, &mut line),
        Ok(Request::Draw(command)) => chart(alloc, command, input, out, &mut line),
        Err(fault) => fault.report(&mut line),
    };
    line.show(is_coloured, err);
    Status::exit_code(code)
}

fn print<W: Write, E: Write>(asked: Asked, out: &mut W, err: &mut E) -> u8 {
    match asked.print("lcmux_chart", HELP, out) {
        Ok(()) => Status::Done.code(),
        Err(fault) => ChartFault::Shared(fault).report(err),
    }
}

/// Draws what the command asks for of the input, and answers the number of the status.
pub fn chart<R: Read, W: Write, E: Write>(
    alloc: Global,
    command: Command,
    input: &mut R,
    out: &mut W,
    err: &mut E,
) -> u8
    ensures bad_script_draws_nothing { (capacity : ℕ) (version : Version) → command ≡ Command.Session capacity version → result ≡ 2 → out.new ≡ out.old }
{
    let drawn = match command {
        Command::Session { capacity, version } => {
            chart_session(alloc, capacity, version, input, out)
        }
        Command::Frames => chart_frames(alloc, input, out),
    };
    match drawn {
        Ok(()) => Status::Done.code(),
        Err(fault) => fault.report(err),
    }
}

/// What is drawn.
#[derive(Clone, Copy)]
pub enum Command {
    /// The session of a script, with receiving rings of so many bytes and streams of the version.
    Session { capacity: u32, version: Version },
    /// The frames of a stream.
    Frames,
}

// What the program is asked to do.
#[derive(Clone, Copy)]
enum Request {
    // Print the help or the version.
    Print(Asked),
    // Draw a picture.
    Draw(Command),
}

impl Request {
    fn from_arguments(alloc: Global, arguments: io::Result<Args>) -> Result<Request, ChartFault> {
        let words = match arguments {
            Ok(arguments) => arguments.collect::<Vec<String>>(alloc)?,
            Err(error) if error.kind() == ErrorKind::OutOfMemory => {
                return Err(ChartFault::Shared(Fault::OutOfMemory));
            }
            Err(_) => return Err(ChartFault::Usage),
        };
        Request::parse(words.as_slice()).ok_or(ChartFault::Usage)
    }

    fn parse(words: &[String]) -> Option<Request> {
        match words {
            [_, word] if word.as_str().starts_with('-') => {
                Asked::of(word.as_str()).map(Request::Print)
            }
            _ => Command::parse(words).map(Request::Draw),
        }
    }
}

impl Command {
    fn parse(words: &[String]) -> Option<Command> {
        match words {
            [_, word] if word.as_str() == "frames" => Some(Command::Frames),
            [_, capacity] => Some(Command::Session {
                capacity: parse_capacity(capacity.as_str())?,
                version: Version::One,
            }),
            [_, capacity, version] => Some(Command::Session {
                capacity: parse_capacity(capacity.as_str())?,
                version: parse_version(version.as_str())?,
            }),
            _ => None,
        }
    }
}

fn chart_session<R: Read, W: Write>(
    alloc: Global,
    capacity: u32,
    version: Version,
    input: &mut R,
    out: &mut W,
) -> Result<(), ChartFault>
    ensures { IfErr result (λ fault. chart_status fault ≡ Status.Bad → out.new ≡ out.old) }
{
    let script = read_all(alloc, input)?;
    let events = events_of(alloc, script.as_slice())?;
    let session = Session::new(alloc, capacity, version, events.as_slice())?;
    print_session(alloc, &session, events.as_slice(), out)
}

fn print_session<W: Write>(
    alloc: Global,
    session: &Session,
    events: &[Event],
    out: &mut W,
) -> Result<(), ChartFault>
    ensures { IfErr result (λ fault. IsCutShort (chart_status fault)) }
{
    let mut buffered = buffered(alloc, out)?;
    let drawn = draw_session(session, events, &mut buffered);
    // A writer that is dropped would try once more to write what a failed write left.
    let _ = buffered.into_parts();
    drawn.map_err(ChartFault::of_write)
}

fn chart_frames<R: Read, W: Write>(
    alloc: Global,
    input: &mut R,
    out: &mut W,
) -> Result<(), ChartFault> {
    let bytes = read_all(alloc, input)?;
    let survey = Survey::new(bytes.as_slice())?;
    let mut buffered = buffered(alloc, out)?;
    let drawn = draw_stream(bytes.as_slice(), survey, &mut buffered);
    let _ = buffered.into_parts();
    drawn.map_err(ChartFault::of_write)?;
    match survey.fault {
        Some(fault) => Err(ChartFault::Shared(fault)),
        None => Ok(()),
    }
}
