//! How a stream decoder takes bytes of frames, and what it remembers of those that it holds.
ghost use Rattle.std.specs.Prelude.{◌≡◌, ◌+◌, ◌<◌, ◌≤◌, [], ◌++◌, length, IfSome, IfNone};
ghost use Rattle.lc_frame.specs.Begun.{BeginsAtMost};
ghost use Rattle.lc_frame.specs.Scan.{NeedsMore};
ghost use Rattle.lc_frame.specs.Progress.{Takes, Advances};

use crate::frame_fault::FrameFault;
use crate::head::Head;
use crate::hold::Hold;
use crate::scan::{Scan, scan_front};
use crate::version::Version;

/// What the last scan said of the bytes stored.
#[derive(Clone, Copy)]
pub(crate) enum Progress {
    /// Part of a frame, or nothing: how many bytes there have to be before more is known.
    Wants(usize),
    /// The bytes of the frame with this head.
    Whole(Head),
    /// No frame, however the bytes go on.
    Fault(FrameFault),
    /// Part of a greeting, or nothing, at the start of a stream.
    Greeted,
    /// No greeting, though one was begun.
    Broken,
}

// Up to so many bytes are copied before it is known whether all of them are the frame's.
pub(crate) const FEW: usize = 16;

// How many bytes were taken, and what is known then.
#[derive(Clone, Copy)]
struct Step {
    taken: usize,
    progress: Progress,
}

// Takes bytes up to the next place where more is known.
#[inline]
#[tactic(auto, using(crate::proofs::Fronts::frame_fits))]
fn advance(version: Version, buffer: &mut Hold, need: usize, piece: &[u8]) -> Step
    requires { NeedsMore version buffer.old need }
    ensures { Advances version buffer.old buffer.new piece.now result.taken result.progress }
{
    let taken = (need - buffer.len()).min(piece.len());
    buffer.append(piece.split_at(taken).0);
    if buffer.len() < need {
        return Step {
            taken,
            progress: Progress::Wants(need),
        };
    }
    let progress = match scan_front(version, buffer.as_slice()) {
        Scan::Whole { head, .. } => Progress::Whole(head),
        Scan::Fault(fault) => Progress::Fault(fault),
        Scan::Needs(more) => Progress::Wants(more),
    };
    Step { taken, progress }
}

/// Takes bytes where part of a frame may be stored, up to where a frame or a fault stands. Answers how
/// many, and puts what is known then into `progress`, as the others here do: in a result it would be
/// copied on its way to the decoder.
pub(crate) fn resume(
    version: Version,
    buffer: &mut Hold,
    progress: &mut Progress,
    wanted: usize,
    piece: &[u8],
) -> usize
    requires { NeedsMore version buffer.old wanted }
    ensures { Takes version buffer.old buffer.new piece.now result progress.new }
{
    let mut need = wanted;
    let mut taken = 0;
    let mut rest = piece;
    'steps: loop {
        let step = advance(version, buffer, need, rest);
        taken += step.taken;
        rest = rest.split_at(step.taken).1;
        *progress = step.progress;
        match step.progress {
            Progress::Wants(more) => {
                if rest.is_empty() {
                    return taken;
                }
                need = more;
            }
            Progress::Whole(_) => return taken,
            Progress::Fault(_) => return taken,
            Progress::Greeted => unreachable!(),
            Progress::Broken => unreachable!(),
        }
    }
}

// Takes bytes where none are stored: of a frame that lies whole in the piece all at once.
#[inline(always)]
#[tactic(auto, using(crate::proofs::Fronts::frame_fits))]
fn begin(
    version: Version,
    buffer: &mut Hold,
    progress: &mut Progress,
    need: usize,
    piece: &[u8],
) -> usize
    requires wanted { NeedsMore version buffer.old need }
    requires empty { buffer.old ≡ [] }
    ensures { Takes version buffer.old buffer.new piece.now result progress.new }
{
    match scan_front(version, piece) {
        Scan::Whole { head, used } => {
            buffer.append(piece.split_at(used).0);
            *progress = Progress::Whole(head);
            used
        }
        Scan::Needs(more) => {
            buffer.append(piece);
            *progress = Progress::Wants(more);
            piece.len()
        }
        Scan::Fault(_) => resume(version, buffer, progress, need, piece),
    }
}

/// Takes a few bytes where few are stored: all are copied and scanned at once, and those behind a frame
/// dropped again. Where they make a fault, or part of a frame or a whole one that has more than `most`
/// bytes, nothing is taken.
#[inline(always)]
#[tactic(auto, using(crate::proofs::Fronts::frame_fits))]
pub(crate) fn leap_within(
    version: Version,
    buffer: &mut Hold,
    progress: &mut Progress,
    need: usize,
    piece: &[u8],
    most: usize,
) -> Option<usize>
    requires wanted { NeedsMore version buffer.old need }
    requires few_held { length buffer.old ≤ FEW }
    requires few { length piece.now ≤ FEW }
    ensures takes { IfSome result (λ n. Takes version buffer.old buffer.new piece.now n progress.new) }
    ensures within { IfSome result (λ n. BeginsAtMost version most buffer.new) }
    ensures none { IfNone result ((buffer.new ≡ buffer.old) × (progress.new ≡ progress.old)) }
{
    let held = buffer.len();
    buffer.append(piece);
    match scan_front(version, buffer.as_slice()) {
        Scan::Whole { head: found, used } if used <= most => {
            buffer.truncate(used);
            *progress = Progress::Whole(found);
            Some(used - held)
        }
        Scan::Needs(further) if further <= most => {
            *progress = Progress::Wants(further);
            Some(piece.len())
        }
        _ => {
            buffer.truncate(held);
            None
        }
    }
}

// The same of a frame of any length.
#[inline(always)]
fn leap(
    version: Version,
    buffer: &mut Hold,
    progress: &mut Progress,
    need: usize,
    piece: &[u8],
) -> usize
    requires wanted { NeedsMore version buffer.old need }
    requires few_held { length buffer.old ≤ FEW }
    requires few { length piece.now ≤ FEW }
    ensures { Takes version buffer.old buffer.new piece.now result progress.new }
{
    match leap_within(version, buffer, progress, need, piece, usize::MAX) {
        Some(count) => count,
        None => resume(version, buffer, progress, need, piece),
    }
}

/// Takes the shortest front of the piece after which a frame or a fault stands, or all of it.
#[inline(always)]
pub(crate) fn take_in(
    version: Version,
    buffer: &mut Hold,
    progress: &mut Progress,
    need: usize,
    piece: &[u8],
) -> usize
    requires { NeedsMore version buffer.old need }
    ensures { Takes version buffer.old buffer.new piece.now result progress.new }
{
    if buffer.is_empty() {
        begin(version, buffer, progress, need, piece)
    } else if buffer.len() <= FEW && piece.len() <= FEW {
        leap(version, buffer, progress, need, piece)
    } else {
        resume(version, buffer, progress, need, piece)
    }
}
