//! `lcmux replay`: a script of events between two peers, and the answer to each.
ghost use Rattle.std.specs.Prelude.{◌≡◌, ◌↔◌, ◌∷◌, [], Err, IfErr, IfOk, IfSome, OnOk, length};
ghost use Rattle.std.specs.List.{flat_map, zip};
ghost use Rattle.std.specs.Io.KnownBytes.{Appends};
ghost use Rattle.lc_frame.specs.Bounds.{IsCapacity};
ghost use Rattle.lc_world.specs.State.{by_side};
ghost use Rattle.lc_world.specs.Histories.{IsHistory};
ghost use Rattle.lc_cli.specs.Fault.{IsCutShort, IsOfWriting, status_of};
ghost use Rattle.lc_cli.specs.Lines.{answer_line};
ghost use Rattle.lc_cli.specs.Replayed.{Replays};
ghost use Rattle.lc_cli.specs.Script.{IsAScript};

use crate::answer::write_answer;
use crate::fault::{Fault, Status};
use crate::input::{MAX_INPUT, read_all};
use crate::output::buffered;
use crate::script::parse_script;
use lc_frame::{Version, is_capacity};
use lc_world::{Answer, Event, NewFault, run_as};
use std::alloc::Global;
use std::io;
use std::io::{Read, Write};

/// Replays a script as `replay_as` does, where both streams are of version One.
pub fn replay<R: Read, W: Write, E: Write>(
    alloc: Global,
    capacity: u32,
    input: &mut R,
    out: &mut W,
    err: &mut E,
) -> u8
    ensures done { result ≡ 0 → IfSome (R.remaining input.old) IsAScript }
    ensures bad_input_prints_nothing { result ≡ 2 → out.new ≡ out.old }
    ensures capacity { ¬ IsCapacity capacity → (result ≡ 2) × (input.new ≡ input.old) }
{
    replay_as(alloc, capacity, Version::One, input, out, err)
}

/// Replays the script that the input holds between two new peers, whose receiving rings have
/// `capacity` bytes each and whose streams are both of the version. The answers go to `out`, a
/// fault's line to `err`, and the number of the status is answered. The whole script is read and
/// checked before the first event.
pub fn replay_as<R: Read, W: Write, E: Write>(
    alloc: Global,
    capacity: u32,
    version: Version,
    input: &mut R,
    out: &mut W,
    err: &mut E,
) -> u8
    ensures done { result ≡ 0 → IfSome (R.remaining input.old) IsAScript }
    ensures bad_input_prints_nothing { result ≡ 2 → out.new ≡ out.old }
    ensures capacity { ¬ IsCapacity capacity → (result ≡ 2) × (input.new ≡ input.old) }
{
    match try_replay(alloc, capacity, version, input, out) {
        Ok(()) => Status::Done.code(),
        Err(fault) => fault.report(err),
    }
}

/// Replays a script that is at hand, as `replay_as` does. Only a fault that is not of the input can
/// come once something was written.
pub fn replay_text<W: Write>(
    alloc: Global,
    capacity: u32,
    version: Version,
    script: &[u8],
    out: &mut W,
) -> Result<(), Fault>
    ensures prints { OnOk result (Replays capacity version script.now (W.contents out.old) (W.contents out.new)) }
    ensures bad { IfErr result (λ fault. status_of fault ≡ Status.Bad → out.new ≡ out.old) }
    ensures usage { (result ≡ Err Fault.Usage) ↔ (¬ IsCapacity capacity) }
{
    if !is_capacity(capacity) {
        return Err(Fault::Usage);
    }
    if script.len() > MAX_INPUT {
        return Err(Fault::InputTooLong);
    }
    let events = parse_script(alloc, script)?;
    let answers = answers_to(alloc, capacity, version, events.as_slice())?;
    put_answers(answers.as_slice(), out)
}

fn try_replay<R: Read, W: Write>(
    alloc: Global,
    capacity: u32,
    version: Version,
    input: &mut R,
    out: &mut W,
) -> Result<(), Fault>
    ensures done { OnOk result (IfSome (R.remaining input.old) IsAScript) }
    ensures bad { IfErr result (λ fault. status_of fault ≡ Status.Bad → out.new ≡ out.old) }
    ensures usage { (result ≡ Err Fault.Usage) ↔ (¬ IsCapacity capacity) }
    ensures unread { result ≡ Err Fault.Usage → input.new ≡ input.old }
{
    if !is_capacity(capacity) {
        return Err(Fault::Usage);
    }
    let events = read_events(alloc, input)?;
    let answers = answers_to(alloc, capacity, version, events.as_slice())?;
    print_answers(alloc, answers.as_slice(), out)
}

// The script's bytes are given back once its events stand.
fn read_events<R: Read>(alloc: Global, input: &mut R) -> Result<Vec<Event>, Fault>
    ensures script { OnOk result (IfSome (R.remaining input.old) IsAScript) }
    ensures usage { ¬ (result ≡ Err Fault.Usage) }
{
    let script = read_all(alloc, input)?;
    parse_script(alloc, script.as_slice())
}

fn answers_to(
    alloc: Global,
    capacity: u32,
    version: Version,
    events: &[Event],
) -> Result<Vec<Answer>, Fault>
    requires { IsCapacity capacity }
    ensures count { IfOk result (λ answers. length answers.items ≡ length events.now) }
    ensures legal { IfOk result (λ answers. IsHistory capacity (by_side (version ∷ version ∷ [])) (zip events.now answers.items)) }
    ensures memory { IfErr result (λ fault. fault ≡ Fault.OutOfMemory) }
{
    match run_as(alloc, capacity, [version; 2], events) {
        Ok(answers) => Ok(answers),
        Err(NewFault::BadCapacity) => unreachable!(),
        Err(NewFault::OutOfMemory) => Err(Fault::OutOfMemory),
    }
}

fn print_answers<W: Write>(alloc: Global, answers: &[Answer], out: &mut W) -> Result<(), Fault>
    ensures { IfErr result (λ fault. IsCutShort (status_of fault)) }
{
    let mut buffered = buffered(alloc, out)?;
    let written = write_answers(answers, &mut buffered);
    // A writer that is dropped would try once more to write what a failed write left.
    let _ = buffered.into_parts();
    written.map_err(Fault::of_write)
}

fn put_answers<W: Write>(answers: &[Answer], out: &mut W) -> Result<(), Fault>
    ensures prints { OnOk result (Appends (W.contents out.old) (W.contents out.new) (flat_map answer_line answers.now)) }
    ensures failed { IfErr result IsOfWriting }
{
    write_answers(answers, out).map_err(Fault::of_write)
}

fn write_answers<W: Write>(answers: &[Answer], out: &mut W) -> io::Result<()>
    ensures { OnOk result (Appends (W.contents out.old) (W.contents out.new) (flat_map answer_line answers.now)) }
{
    for answer in answers {
        write_answer(answer, out)?;
    }
    out.flush()
}
