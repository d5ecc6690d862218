//! The program `lcmux_chart`: `lc_chart` on the arguments and the standard streams of a process.
#![tactic(auto)]

use lc_cli::has_colours;
use std::env;
use std::io::IsTerminal;
use std::process::ExitCode;

fn main(rt: HostRuntime) -> ExitCode {
    let (mut input, mut out, mut err) = (rt.stdin(), rt.stdout(), rt.stderr());
    let is_coloured = has_colours(&rt, err.is_terminal());
    let status = lc_chart::run(
        rt.alloc(),
        env::args(&rt),
        &mut input,
        &mut out,
        &mut err,
        is_coloured,
    );
    ExitCode::from(status)
}
