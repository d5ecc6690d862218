//! What every picture has: its head with the style sheet and the words for a screen reader, its legend
//! and its marks.
use crate::shapes;
use crate::shapes::{Paint, Point, diamond, disc, line, rect, text};
use lc_frame::Channel;
use std::fmt::Display;
use std::io;
use std::io::Write;

/// The distance from the edge.
pub(crate) const MARGIN: u64 = 20;

/// The distance from one event to the next.
const ROW: u64 = 44;

// Light, and dark where the reader's system is. A channel's colour is --c.
const STYLE: &[u8] = b"<style>
svg{--bg:#fff;--ink:#1b2430;--soft:#5b6675;--rule:#c3cad3;--room:#e8ecf1;--bad:#b3122a;--c0:#1f5fc4;--c1:#b8470b;--c2:#12783a;--c3:#9a1c9f;--c4:#85600a;--c5:#0b7288;--c6:#6a2bd1}
@media(prefers-color-scheme:dark){svg{--bg:#12171e;--ink:#e8edf3;--soft:#9aa7b6;--rule:#3d4957;--room:#29323d;--bad:#ff8390;--c0:#82b4ff;--c1:#ffa26b;--c2:#63d391;--c3:#f192f2;--c4:#e6bd57;--c5:#62d2e8;--c6:#bba4ff}}
.c0{--c:var(--c0)}.c1{--c:var(--c1)}.c2{--c:var(--c2)}.c3{--c:var(--c3)}.c4{--c:var(--c4)}.c5{--c:var(--c5)}.c6{--c:var(--c6)}
text{font:15px Helvetica,Arial,sans-serif;fill:var(--ink);paint-order:stroke;stroke:var(--bg);stroke-width:4px;stroke-linejoin:round}
.page{fill:var(--bg)}.title{font-size:18px;font-weight:bold}.soft{fill:var(--soft);font-size:13px}.head{font-weight:bold;font-size:16px}
.mid{text-anchor:middle}.end{text-anchor:end}.asked{fill:var(--c);font-weight:bold}.bad{fill:var(--bad);font-size:12px}.sum{font-size:12px;stroke-width:3px}
.in{fill:var(--bg);stroke:none;font-size:12px;font-weight:bold;text-anchor:middle}
.life{stroke:var(--rule);stroke-width:3}.tick{stroke:var(--rule);stroke-width:1}.dot{fill:var(--soft)}.mark{fill:var(--c);stroke:var(--bg);stroke-width:2}.wrong{fill:var(--bad);stroke:var(--bg);stroke-width:2}
.arrow,.flight{stroke:var(--c);stroke-width:2}.flight{stroke-dasharray:6 5}
.room{fill:var(--room)}.held,.outstanding{fill:var(--c);fill-opacity:.4}.buffered{fill:var(--c)}.key{--c:var(--soft)}
.arrow.c0{marker-end:url(#h0)}.arrow.c1{marker-end:url(#h1)}.arrow.c2{marker-end:url(#h2)}.arrow.c3{marker-end:url(#h3)}.arrow.c4{marker-end:url(#h4)}.arrow.c5{marker-end:url(#h5)}.arrow.c6{marker-end:url(#h6)}
.tip{fill:var(--c)}
</style>
<defs>
";

/// The place of an event's row, where the rows begin at `top` and events are counted from 1.
pub(crate) fn row(top: u64, number: u16) -> u64 {
    top.saturating_add(ROW * u64::from(number))
}

/// Begins the picture: its size, what a screen reader reads, the style sheet and the arrows' heads.
/// The description has to follow, up to `close_description`.
pub(crate) fn open<W: Write, T: Display>(
    out: &mut W,
    width: u64,
    height: u64,
    title: &T,
) -> io::Result<()> {
    writeln!(
        out,
        "<svg xmlns=\"http://www.w3.org/2000/svg\" role=\"img\" aria-labelledby=\"title desc\" viewBox=\"0 0 {width} {height}\" width=\"{width}\" height=\"{height}\">"
    )?;
    writeln!(out, "<title id=\"title\">{title}</title>")?;
    writeln!(out, "<desc id=\"desc\">")
}

/// Ends the description, and paints the page.
pub(crate) fn close_description<W: Write, T: Display>(
    out: &mut W,
    width: u64,
    height: u64,
    title: &T,
) -> io::Result<()> {
    out.write_all(b"</desc>\n")?;
    out.write_all(STYLE)?;
    for channel in Channel::ALL {
        let number = channel.number();
        writeln!(
            out,
            "<marker id=\"h{number}\" viewBox=\"0 0 10 10\" refX=\"10\" refY=\"5\" markerWidth=\"7\" markerHeight=\"7\" orient=\"auto\"><path class=\"tip c{number}\" d=\"M0 0L10 5L0 10z\"/></marker>"
        )?;
    }
    out.write_all(b"</defs>\n")?;
    rect(out, Paint::plain("page"), Point::new(0, 0), width, height)?;
    let at = Point::new(MARGIN, 32);
    text(out, Paint::plain("title"), at, title)
}

/// Ends the picture, and hands on what a writer has gathered.
pub(crate) fn close<W: Write>(out: &mut W) -> io::Result<()> {
    out.write_all(b"</svg>\n")?;
    out.flush()
}

/// A frame's mark: a disc with its channel's number.
pub(crate) fn frame_mark<W: Write>(out: &mut W, channel: Channel, at: Point) -> io::Result<()> {
    disc(out, Paint::of("mark", channel), at, 10)?;
    inside(out, at, channel.number())
}

/// The mark of a message that was taken: a square with its channel's number.
pub(crate) fn take_mark<W: Write>(out: &mut W, channel: Channel, at: Point) -> io::Result<()> {
    rect(out, Paint::of("mark", channel), at.left(10).up(10), 20, 20)?;
    inside(out, at, channel.number())
}

/// The mark of what was refused or breaks the rules: a diamond with its number.
pub(crate) fn wrong_mark<W: Write>(out: &mut W, number: u8, at: Point) -> io::Result<()> {
    diamond(out, Paint::plain("wrong"), at)?;
    inside(out, at, number)
}

fn inside<W: Write>(out: &mut W, at: Point, number: u8) -> io::Result<()> {
    shapes::number(out, Paint::plain("in"), at.down(4), u64::from(number))
}

/// The words of a line of the legend, behind its shape.
pub(crate) fn key<W: Write>(out: &mut W, at: Point, words: &str) -> io::Result<()> {
    text(out, Paint::plain("soft"), at.right(20).down(4), &words)
}

/// What the legend shows of a bar.
pub(crate) fn bar_sample<W: Write>(out: &mut W, name: &'static str, at: Point) -> io::Result<()> {
    rect(out, Paint::plain(name), at.left(10).up(6), 22, 12)
}

/// What the legend shows of a frame in flight.
pub(crate) fn flight_sample<W: Write>(out: &mut W, at: Point) -> io::Result<()> {
    line(out, Paint::plain("flight key"), at.left(10), at.right(12))
}

/// The name of a channel.
pub(crate) fn name_of(channel: Channel) -> &'static str {
    match channel {
        Channel::Reconciliation => "Reconciliation",
        Channel::Data => "Data",
        Channel::Overlap => "Overlap",
        Channel::Capability => "Capability",
        Channel::AreaOfInterest => "AreaOfInterest",
        Channel::PayloadRequest => "PayloadRequest",
        Channel::StaticToken => "StaticToken",
    }
}
