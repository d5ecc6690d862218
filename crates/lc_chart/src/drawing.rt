//! Pictures of what is at hand, to any writer.
ghost use Rattle.std.specs.Prelude.{◌≡◌, IfErr};
ghost use Rattle.lc_cli.specs.declared.fault.Status.TheVariants.{Bad};
ghost use Rattle.lc_chart.specs.Fault.{chart_status};

use crate::fault::ChartFault;
use crate::picture::draw_session;
use crate::session::{MAX_EVENTS, Session};
use crate::stream::{Survey, draw_stream};
use lc_cli::{Fault, MAX_INPUT, parse_script};
use lc_frame::{Version, is_capacity};
use lc_world::Event;
use std::alloc::Global;
use std::io::Write;

/// Draws the session of a script that is at hand.
pub fn draw_script<W: Write>(
    alloc: Global,
    capacity: u32,
    version: Version,
    script: &[u8],
    out: &mut W,
) -> Result<(), ChartFault>
    ensures { IfErr result (λ fault. chart_status fault ≡ Bad → out.new ≡ out.old) }
{
    if !is_capacity(capacity) {
        return Err(ChartFault::Usage);
    }
    if script.len() > MAX_INPUT {
        return Err(ChartFault::Shared(Fault::InputTooLong));
    }
    let events = events_of(alloc, script)?;
    let session = Session::new(alloc, capacity, version, events.as_slice())?;
    draw_session(&session, events.as_slice(), out).map_err(ChartFault::of_write)
}

/// Draws the frames of a stream that is at hand. With a fault those before it are drawn.
pub fn draw_bytes<W: Write>(bytes: &[u8], out: &mut W) -> Result<(), ChartFault> {
    if bytes.len() > MAX_INPUT {
        return Err(ChartFault::Shared(Fault::InputTooLong));
    }
    let survey = Survey::new(bytes)?;
    draw_stream(bytes, survey, out).map_err(ChartFault::of_write)?;
    match survey.fault {
        Some(fault) => Err(ChartFault::Shared(fault)),
        None => Ok(()),
    }
}

/// The events of a script, where a picture has place for them.
pub(crate) fn events_of(alloc: Global, script: &[u8]) -> Result<Vec<Event>, ChartFault> {
    let events = parse_script(alloc, script)?;
    if events.len() > usize::from(MAX_EVENTS) {
        return Err(ChartFault::TooManyEvents);
    }
    Ok(events)
}
