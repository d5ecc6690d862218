//! The calls, from one buffer into another.
ghost use Rattle.std.specs.Prelude.{◌≡◌, [], Some, IsErrAnd, IsSomeAnd, MatchResult, length};
ghost use Rattle.lc_cli.specs.declared.fault.Status.TheVariants.{Bad};
ghost use Rattle.lc_cli.specs.Fault.{code_of, status_of};
ghost use Rattle.lc_cli.specs.Replayed.{Replays};
ghost use Rattle.lc_cli.specs.Listed.{Lists};
ghost use Rattle.lc_play.specs.Played.{version_at, of_memory, IsDone, shown_in, StaysIfShort};

use crate::played::{LcmuxPlayed, hand_out};
use crate::standing::{write_places, write_standing};
use lc_chart::{ChartFault, draw_bytes, draw_script};
use lc_cli::{Fault, list_frames, replay_text};
use lc_frame::Version;
use std::alloc::Global;

/// The exit status of bad arguments.
pub(crate) const BAD: u8 = 2;

fn version_at(number: u32) -> Option<Version>
    ensures { result ≡ version_at number }
{
    match number {
        1 => Some(Version::One),
        2 => Some(Version::Two),
        _ => None,
    }
}

// A vector takes no more bytes only for want of memory.
fn of_memory(fault: Fault) -> Fault
    ensures { result ≡ of_memory fault }
{
    match fault {
        Fault::WriteFailed => Fault::OutOfMemory,
        _ => fault,
    }
}

// Writes the line of a fault, if there is one, and answers the status.
fn tell(done: Result<(), Fault>, told: &mut Vec<u8>) -> u8
    ensures { MatchResult done (λ _. result ≡ 0) (λ fault. result ≡ code_of (status_of (of_memory fault))) }
{
    match done {
        Ok(()) => 0,
        Err(fault) => of_memory(fault).report(told),
    }
}

// Hands out what was written, and the line of a fault.
fn finish(alloc: Global, done: Result<(), Fault>, shown: &[u8], out: &mut [u8]) -> LcmuxPlayed
    ensures done { result.status ≡ 0 → IsDone done × (shown_in result out.new ≡ shown.now) }
    ensures bad { result.status ≡ 2 → IsErrAnd done (λ fault. status_of fault ≡ Bad) × (result.shown ≡ length shown.now) }
    ensures short { StaysIfShort result out.old out.new }
{
    let mut told = Vec::new(alloc);
    let status = tell(done, &mut told);
    hand_out(status, shown, told.as_slice(), out)
}

// The same of a picture.
fn finish_chart(
    alloc: Global,
    done: Result<(), ChartFault>,
    shown: &[u8],
    out: &mut [u8],
) -> LcmuxPlayed
    ensures short { StaysIfShort result out.old out.new }
{
    let mut told = Vec::new(alloc);
    let status = match done {
        Ok(()) => 0,
        Err(ChartFault::Shared(fault)) => ChartFault::Shared(of_memory(fault)).report(&mut told),
        Err(fault) => fault.report(&mut told),
    };
    hand_out(status, shown, told.as_slice(), out)
}

// There is no such version.
fn refuse(out: &mut [u8]) -> LcmuxPlayed
    ensures status { ¬ (result.status ≡ 0) }
    ensures nothing { result.shown ≡ 0 }
    ensures short { StaysIfShort result out.old out.new }
{
    hand_out(BAD, &[], &[], out)
}

fn replay(
    alloc: Global,
    capacity: u32,
    version: Version,
    script: &[u8],
    out: &mut [u8],
) -> LcmuxPlayed
    ensures replays { result.status ≡ 0 → Replays capacity version script.now (Some []) (Some (shown_in result out.new)) }
    ensures bad { result.status ≡ 2 → result.shown ≡ 0 }
    ensures short { StaysIfShort result out.old out.new }
{
    let mut shown = Vec::new(alloc);
    let done = replay_text(alloc, capacity, version, script, &mut shown);
    finish(alloc, done, shown.as_slice(), out)
}

/// Replays a script between two peers, as `lcmux replay CAPACITY [2]` does: an answer a line.
#[unsafe(no_mangle)]
pub extern "C" fn lcmux_play_replay(
    alloc: Global,
    capacity: u32,
    version: u32,
    script: &[u8],
    out: &mut [u8],
) -> LcmuxPlayed
    ensures replays { result.status ≡ 0 → IsSomeAnd (version_at version) (λ v. Replays capacity v script.now (Some []) (Some (shown_in result out.new))) }
    ensures bad { result.status ≡ 2 → result.shown ≡ 0 }
    ensures short { StaysIfShort result out.old out.new }
{
    match version_at(version) {
        Some(version) => replay(alloc, capacity, version, script, out),
        None => refuse(out),
    }
}

/// Draws the session of a script, as `lcmux_chart CAPACITY [2]` does.
#[unsafe(no_mangle)]
pub extern "C" fn lcmux_play_chart(
    alloc: Global,
    capacity: u32,
    version: u32,
    script: &[u8],
    out: &mut [u8],
) -> LcmuxPlayed
    ensures short { StaysIfShort result out.old out.new }
{
    let Some(version) = version_at(version) else {
        return refuse(out);
    };
    let mut shown = Vec::new(alloc);
    let done = draw_script(alloc, capacity, version, script, &mut shown);
    finish_chart(alloc, done, shown.as_slice(), out)
}

/// What stands at both peers once a script was replayed: of each stream its version, its bytes, how many
/// were delivered, and the frames in flight with their places; and of each direction and channel where
/// the bytes of the ring are, and what bounds it.
#[unsafe(no_mangle)]
pub extern "C" fn lcmux_play_standing(
    alloc: Global,
    capacity: u32,
    version: u32,
    script: &[u8],
    out: &mut [u8],
) -> LcmuxPlayed
    ensures short { StaysIfShort result out.old out.new }
{
    let Some(version) = version_at(version) else {
        return refuse(out);
    };
    let mut shown = Vec::new(alloc);
    let done = write_standing(alloc, capacity, version, script, &mut shown);
    finish(alloc, done, shown.as_slice(), out)
}

/// The frames of a stream, as `lcmux frames` prints them: a frame a line, up to the first fault.
#[unsafe(no_mangle)]
pub extern "C" fn lcmux_play_frames(alloc: Global, bytes: &[u8], out: &mut [u8]) -> LcmuxPlayed
    ensures lists { result.status ≡ 0 → Lists bytes.now (Some []) (Some (shown_in result out.new)) }
    ensures short { StaysIfShort result out.old out.new }
{
    let mut shown = Vec::new(alloc);
    let done = list_frames(alloc, bytes, &mut shown);
    finish(alloc, done, shown.as_slice(), out)
}

/// The frames of a stream with their places: of each frame before the first fault a line with the places
/// of its first byte and behind its last, and then its line as `lcmux frames` has it.
#[unsafe(no_mangle)]
pub extern "C" fn lcmux_play_places(alloc: Global, bytes: &[u8], out: &mut [u8]) -> LcmuxPlayed
    ensures short { StaysIfShort result out.old out.new }
{
    let mut shown = Vec::new(alloc);
    let done = write_places(bytes, &mut shown);
    finish(alloc, done, shown.as_slice(), out)
}

/// Draws the frames of a stream, as `lcmux_chart frames` does.
#[unsafe(no_mangle)]
pub extern "C" fn lcmux_play_stream(alloc: Global, bytes: &[u8], out: &mut [u8]) -> LcmuxPlayed
    ensures short { StaysIfShort result out.old out.new }
{
    let mut shown = Vec::new(alloc);
    let done = draw_bytes(bytes, &mut shown);
    finish_chart(alloc, done, shown.as_slice(), out)
}
