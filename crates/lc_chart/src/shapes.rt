//! The shapes of a picture, each one element of SVG.
use lc_cli::write_decimal;
use lc_frame::Channel;
use std::fmt::Display;
use std::io::Write;
use std::{fmt, io};

/// A place in the picture, in its units from the upper left corner.
#[derive(Clone, Copy)]
pub struct Point {
    pub x: u64,
    pub y: u64,
}

impl Point {
    /// The place so far to the right and so far down.
    pub fn new(x: u64, y: u64) -> Point {
        Point { x, y }
    }

    /// The place so far to the left of this one, within the picture; and so below.
    pub(crate) fn left(self, by: u64) -> Point {
        Point::new(self.x.saturating_sub(by), self.y)
    }

    pub(crate) fn right(self, by: u64) -> Point {
        Point::new(self.x.saturating_add(by), self.y)
    }

    pub(crate) fn up(self, by: u64) -> Point {
        Point::new(self.x, self.y.saturating_sub(by))
    }

    pub(crate) fn down(self, by: u64) -> Point {
        Point::new(self.x, self.y.saturating_add(by))
    }
}

/// How a shape is painted: by a name of the style sheet, and in the colour of a channel.
#[derive(Clone, Copy)]
pub struct Paint {
    name: &'static str,
    channel: Option<Channel>,
}

impl Paint {
    /// By the name alone.
    pub fn plain(name: &'static str) -> Paint {
        Paint {
            name,
            channel: None,
        }
    }

    /// By the name, in the colour of the channel.
    pub fn of(name: &'static str, channel: Channel) -> Paint {
        Paint {
            name,
            channel: Some(channel),
        }
    }
}

impl Display for Paint {
    fn fmt<W: fmt::Write>(&self, f: &mut fmt::Formatter<W>) -> fmt::Result {
        let name = self.name;
        match self.channel {
            Some(channel) => {
                let number = channel.number();
                write!(f, "{name} c{number}")
            }
            None => write!(f, "{name}"),
        }
    }
}

/// A rectangle, by its upper left corner.
pub fn rect<W: Write>(
    out: &mut W,
    paint: Paint,
    at: Point,
    width: u64,
    height: u64,
) -> io::Result<()> {
    put_head(out, b"<rect class=\"", paint)?;
    put_number(out, b"\" x=\"", at.x)?;
    put_number(out, b"\" y=\"", at.y)?;
    put_number(out, b"\" width=\"", width)?;
    put_number(out, b"\" height=\"", height)?;
    out.write_all(b"\"/>\n")
}

/// A straight line. The style sheet gives an arrow its head, at the line's end.
pub fn line<W: Write>(out: &mut W, paint: Paint, from: Point, to: Point) -> io::Result<()> {
    put_head(out, b"<line class=\"", paint)?;
    put_number(out, b"\" x1=\"", from.x)?;
    put_number(out, b"\" y1=\"", from.y)?;
    out.write_all(b"\"")?;
    put_number(out, b" x2=\"", to.x)?;
    put_number(out, b"\" y2=\"", to.y)?;
    out.write_all(b"\"/>\n")
}

/// A disc round a place.
pub fn disc<W: Write>(out: &mut W, paint: Paint, at: Point, radius: u64) -> io::Result<()> {
    put_head(out, b"<circle class=\"", paint)?;
    put_number(out, b"\" cx=\"", at.x)?;
    put_number(out, b"\" cy=\"", at.y)?;
    put_number(out, b"\" r=\"", radius)?;
    out.write_all(b"\"/>\n")
}

/// A square that stands on a corner, round a place.
pub fn diamond<W: Write>(out: &mut W, paint: Paint, at: Point) -> io::Result<()> {
    put_head(out, b"<path class=\"", paint)?;
    put_number(out, b"\" d=\"M", at.x)?;
    put_number(out, b" ", at.y)?;
    out.write_all(b"m-13 0l13 -13l13 13l-13 13z\"/>\n")
}

/// A line of text, at the left end of its base unless the style sheet says otherwise. Its content is
/// words and numbers of this crate, with nothing in it that XML would read.
pub fn text<W: Write, T: Display>(
    out: &mut W,
    paint: Paint,
    at: Point,
    content: &T,
) -> io::Result<()> {
    put_text_head(out, paint, at)?;
    writeln!(out, "{content}</text>")
}

/// A line of text that is a number.
pub(crate) fn number<W: Write>(
    out: &mut W,
    paint: Paint,
    at: Point,
    number: u64,
) -> io::Result<()> {
    put_text_head(out, paint, at)?;
    write_decimal(number, out)?;
    out.write_all(b"</text>\n")
}

fn put_text_head<W: Write>(out: &mut W, paint: Paint, at: Point) -> io::Result<()> {
    put_head(out, b"<text class=\"", paint)?;
    put_number(out, b"\" x=\"", at.x)?;
    put_number(out, b"\" y=\"", at.y)?;
    out.write_all(b"\">")
}

// Writes the words and the classes behind them. Here and below each piece is written where formatting
// would write it, so that a failed write has the same pieces before it; of an empty name it writes none.
#[inline(always)]
fn put_head<W: Write>(out: &mut W, words: &[u8], paint: Paint) -> io::Result<()> {
    out.write_all(words)?;
    if !paint.name.is_empty() {
        out.write_all(paint.name.as_bytes())?;
    }
    match paint.channel {
        Some(channel) => put_number(out, b" c", u64::from(channel.number())),
        None => Ok(()),
    }
}

// Writes the words and the number behind them.
#[inline(always)]
fn put_number<W: Write>(out: &mut W, words: &[u8], number: u64) -> io::Result<()> {
    out.write_all(words)?;
    write_decimal(number, out)
}
