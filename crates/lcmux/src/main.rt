//! The program `lcmux`: `lc_cli` on the arguments and the standard streams of a process.
#![tactic(auto)]

mod progress;
mod watched;

use lc_cli::has_colours;
use lc_loopback::loopback;
use std::env;
use std::io::IsTerminal;
use std::process::ExitCode;
use watched::watched_loopback;

fn main(rt: HostRuntime) -> ExitCode {
    let (mut input, mut out, mut err) = (rt.stdin(), rt.stdout(), rt.stderr());
    let is_terminal = err.is_terminal();
    let exchange = |count| {
        if is_terminal {
            watched_loopback(rt, rt.stderr(), rt.alloc(), count)
        } else {
            loopback(&rt, rt, rt.alloc(), count)
        }
    };
    let status = lc_cli::run(
        rt.alloc(),
        env::args(&rt),
        &mut input,
        &mut out,
        &mut err,
        has_colours(&rt, is_terminal),
        exchange,
    );
    ExitCode::from(status)
}
