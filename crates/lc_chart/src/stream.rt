//! The picture of a captured stream: its frames along one lifeline.
use crate::fault::ChartFault;
use crate::page::{MARGIN, close, close_description, frame_mark, key, name_of, open, row};
use crate::session::MAX_EVENTS;
use crate::shapes::{Paint, Point, disc, line, text};
use crate::words::{Asked, Phrase};
use lc_cli::{Culprit, Fault};
use lc_frame::{Decoded, FrameFault, FrameRef, GREETING, Version, decode, number_in_front};
use std::io;
use std::io::Write;

// The lifeline, where an arrow ends, and where the rows begin.
const LINE: u64 = 140;

const TIP: u64 = 460;

const WIDTH: u64 = 600;

const TOP: u64 = 60;

/// What a stream has: how many frames before its end or its first fault.
#[derive(Clone, Copy)]
pub(crate) struct Survey {
    pub frames: u16,
    pub fault: Option<Fault>,
}

impl Survey {
    /// Reads the stream, which is refused where it has more frames than a picture.
    pub(crate) fn new(bytes: &[u8]) -> Result<Survey, ChartFault> {
        let mut frames = Frames::new(bytes);
        for count in 0..=MAX_EVENTS {
            match frames.next_frame() {
                Ok(Some(_)) => {}
                Ok(None) => {
                    return Ok(Survey {
                        frames: count,
                        fault: None,
                    });
                }
                Err(fault) => {
                    return Ok(Survey {
                        frames: count,
                        fault: Some(fault),
                    });
                }
            }
        }
        Err(ChartFault::TooManyEvents)
    }
}

/// A frame, and the places of its first byte in the stream and behind its last.
#[derive(Clone, Copy)]
pub struct Placed<'a> {
    pub frame: FrameRef<'a>,
    pub offset: usize,
    pub end: usize,
}

/// The frames of a stream that are not read yet.
#[derive(Clone, Copy)]
pub struct Frames<'a> {
    version: Version,
    rest: &'a [u8],
    offset: usize,
}

impl<'a> Frames<'a> {
    /// All frames of a stream of either version.
    pub fn new(bytes: &'a [u8]) -> Frames<'a> {
        match bytes.strip_prefix(GREETING.as_slice()) {
            Some(rest) => Frames {
                version: Version::Two,
                rest,
                offset: GREETING.len(),
            },
            None => Frames {
                version: Version::One,
                rest: bytes,
                offset: 0,
            },
        }
    }

    /// The next frame, `None` at the end of the stream; or the fault that stands there.
    pub fn next_frame(&mut self) -> Result<Option<Placed<'a>>, Fault> {
        let (rest, offset) = (self.rest, self.offset);
        if rest.is_empty() {
            return Ok(None);
        }
        // A greeting that breaks is a bad tag; one that is cut short could go on.
        if offset == 0 && GREETING.starts_with(rest) {
            return Err(self.fault_here(FrameFault::Truncated));
        }
        match decode(self.version, rest) {
            Decoded::Whole { frame, used } => {
                let end = offset.saturating_add(used);
                self.rest = rest.split_at(used).1;
                self.offset = end;
                Ok(Some(Placed { frame, offset, end }))
            }
            Decoded::More => Err(self.fault_here(FrameFault::Truncated)),
            Decoded::Fault(fault) => Err(self.fault_here(fault)),
        }
    }

    // A fault in the next frame, or in the greeting.
    fn fault_here(&self, fault: FrameFault) -> Fault {
        let culprit = match fault {
            FrameFault::BadTag => self.bad_byte(),
            FrameFault::ZeroLength | FrameFault::BadNumber => self.bad_number(),
            FrameFault::Truncated => Culprit::Unnamed,
        };
        Fault::BadFrame {
            number: fault.number(),
            offset: self.offset,
            culprit,
        }
    }

    // The byte that is no tag: at the start of a stream the first that differs from the greeting.
    fn bad_byte(&self) -> Culprit {
        let place = if self.offset == 0 {
            greeting_len(self.rest)
        } else {
            0
        };
        match self.rest.get(place) {
            Some(byte) => Culprit::Byte(*byte),
            None => Culprit::Unnamed,
        }
    }

    // The number that is out of range.
    fn bad_number(&self) -> Culprit {
        match number_in_front(self.version, self.rest) {
            Some(number) => Culprit::Number(number),
            None => Culprit::Unnamed,
        }
    }
}

// How many bytes are those of a greeting.
fn greeting_len(bytes: &[u8]) -> usize {
    for place in 0..GREETING.len() {
        if bytes.get(place) != Some(&GREETING[place]) {
            return place;
        }
    }
    GREETING.len()
}

/// Draws the frames that were counted, and the fault behind them.
pub(crate) fn draw_stream<W: Write>(bytes: &[u8], survey: Survey, out: &mut W) -> io::Result<()> {
    let frames = survey.frames;
    let title = Phrase::Stream { frames };
    let end = survey.frames.saturating_add(1);
    let height = row(TOP, end).saturating_add(40);
    open(out, WIDTH, height, &title)?;
    describe(bytes, survey, out)?;
    close_description(out, WIDTH, height, &title)?;
    let (top, bottom) = (on_line(0), on_line(end));
    line(out, Paint::plain("life"), top, bottom)?;
    draw_frames(bytes, survey, out)?;
    if let Some(fault) = survey.fault {
        disc(out, Paint::plain("wrong"), bottom, 6)?;
        text(out, Paint::plain("bad"), bottom.right(18).down(4), &fault)?;
    }
    close(out)
}

// The frames, one a line.
fn describe<W: Write>(bytes: &[u8], survey: Survey, out: &mut W) -> io::Result<()> {
    let mut frames = Frames::new(bytes);
    for number in 1..=survey.frames {
        let Ok(Some(Placed { frame, offset, .. })) = frames.next_frame() else {
            return Ok(());
        };
        let (kind, channel) = (Asked::by_frame(&frame), frame.channel().number());
        writeln!(
            out,
            "{number}. At byte {offset}: {kind} on channel {channel}."
        )?;
    }
    Ok(())
}

fn draw_frames<W: Write>(bytes: &[u8], survey: Survey, out: &mut W) -> io::Result<()> {
    let mut frames = Frames::new(bytes);
    for number in 1..=survey.frames {
        let Ok(Some(placed)) = frames.next_frame() else {
            return Ok(());
        };
        draw_frame(number, placed, out)?;
    }
    Ok(())
}

fn draw_frame<W: Write>(number: u16, placed: Placed<'_>, out: &mut W) -> io::Result<()> {
    let Placed { frame, offset, .. } = placed;
    let (at, channel) = (on_line(number), frame.channel());
    let tip = Point::new(TIP, at.y);
    line(out, Paint::of("arrow", channel), at, tip)?;
    frame_mark(out, channel, at)?;
    let above = at.right(18).up(8);
    text(
        out,
        Paint::of("asked", channel),
        above,
        &Asked::by_frame(&frame),
    )?;
    let before = at.left(18).down(4);
    text(
        out,
        Paint::plain("soft end"),
        before,
        &Phrase::Offset(offset),
    )?;
    key(out, tip, name_of(channel))
}

fn on_line(number: u16) -> Point {
    Point::new(LINE, row(TOP, number))
}
