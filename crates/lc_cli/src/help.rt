//! The texts that `lcmux` prints of itself.
ghost use Rattle.std.specs.Prelude.{◌≡◌, ◌↔◌, Some, IfErr};
ghost use Rattle.lc_cli.specs.declared.help.Asked.{Asked};
ghost use Rattle.lc_cli.specs.Fault.{IsOfWriting};
ghost use Rattle.lc_cli.specs.Options.{IsOption};

use crate::fault::Fault;
use std::io::Write;

/// The version of the programs, which is that of the libraries.
pub const VERSION: &str = "0.1.0";

/// What `lcmux --help` prints.
pub(crate) const HELP: &str = "\
Runs and inspects LCMUX: seven flow-controlled channels in each direction over one byte stream.

usage: lcmux replay CAPACITY [2] < SCRIPT
       lcmux frames < STREAM
       lcmux loopback N

commands:
  replay    apply a script of events to two peers, and print the answer to each event
  frames    print a line for each frame of a byte stream
  loopback  exchange N messages on each channel and in each direction, over TCP

arguments:
  CAPACITY  size of each receive ring buffer in bytes, 1 to 16777216
  2         write version Two of the wire format, and not One
  N         1 to 100000

options:
  -h, --help     print this help
  -V, --version  print the version

exit statuses:
  0  done, or nobody reads the output any more
  1  out of memory, or a read, a write or a socket failed
  2  the arguments or the input are bad

example: the receiver B grants credit for 5 bytes, and the sender A spends 2 of them
  printf 'B issue 1 5\\nA arrive\\nA send 1 6869\\nB arrive\\nB take 1\\n' | lcmux replay 8
";

/// What the option in place of a command asks for.
#[derive(Clone, Copy, Debug, PartialEq, Eq)]
pub enum Asked {
    /// `-h` or `--help`.
    Help,
    /// `-V` or `--version`.
    Version,
}

impl Asked {
    /// What an argument asks for, if it is one of these options.
    pub fn of(word: &str) -> Option<Asked>
        ensures { (asked : Asked) → (result ≡ Some asked) ↔ IsOption asked word.now }
    {
        if word == "-h" || word == "--help" {
            Some(Asked::Help)
        } else if word == "-V" || word == "--version" {
            Some(Asked::Version)
        } else {
            None
        }
    }

    /// Prints this help, or the version behind this name of a program.
    pub fn print<W: Write>(self, program: &str, help: &str, out: &mut W) -> Result<(), Fault>
        ensures { IfErr result IsOfWriting }
    {
        let written = match self {
            Asked::Help => out.write_all(help.as_bytes()),
            Asked::Version => writeln!(out, "{program} {VERSION}"),
        };
        written.and_then(|()| out.flush()).map_err(Fault::of_write)
    }
}
