//! The picture of a session: a lifeline for each side, arrows between them, and the balances beside.
ghost use Rattle.std.specs.Prelude.{◌≤◌};

use crate::page::{
    MARGIN, bar_sample, close, close_description, flight_sample, frame_mark, key, name_of, open,
    row, take_mark, wrong_mark,
};
use crate::session::{Arrow, Bar, Session, Span, channel_of, client_of, other};
use crate::shapes;
use crate::shapes::{Paint, Point, disc, line, number, rect, text};
use crate::words::{Asked, Happened, Phrase, Told};
use lc_frame::{Channel, Lane};
use lc_world::{Answer, Event, Side};
use std::io;
use std::io::Write;

// The width of a bar, and from the left of one to that of the next.
const BAR: u64 = 84;

const COLUMN: u64 = 94;

// From the bars to a lifeline, and from one lifeline to the other.
const GUTTER: u64 = 44;

const MIDDLE: u64 = 480;

// Where the rows begin.
const TOP: u64 = 210;

// The least capacity whose three balances do not fit one line of a bar.
const WIDE: u32 = 1_000;

// Where things stand.
#[derive(Clone, Copy)]
struct Layout {
    // How many columns of bars a side has, at least one.
    columns: u8,
    // The number behind the last event.
    end: u16,
}

impl Layout {
    fn of(session: &Session) -> Layout {
        Layout {
            columns: rank(&session.occurs).max(1),
            end: session.end,
        }
    }

    fn width(self) -> u64 {
        self.x(Side::B) + GUTTER + COLUMN * u64::from(self.columns) + MARGIN
    }

    fn height(self) -> u64 {
        row(TOP, self.end).saturating_add(40)
    }

    // The lifeline of a side.
    fn x(self, side: Side) -> u64
        ensures { result ≤ 50000 }
    {
        let left = MARGIN + COLUMN * u64::from(self.columns) + GUTTER;
        match side {
            Side::A => left,
            Side::B => left + MIDDLE,
        }
    }

    // The left end of a column of bars, beside a side.
    fn bar(self, side: Side, column: u8) -> u64 {
        let left = match side {
            Side::A => MARGIN,
            Side::B => self.x(Side::B) + GUTTER + COLUMN - BAR,
        };
        left + COLUMN * u64::from(column)
    }

    fn on_line(self, side: Side, number: u16) -> Point {
        Point::new(self.x(side), row(TOP, number))
    }
}

// How many of these directions occur.
fn rank(occurs: &[bool]) -> u8 {
    let mut rank = 0u8;
    for occurs in occurs {
        if *occurs {
            rank = rank.saturating_add(1);
        }
    }
    rank
}

/// Draws the session that came of these events.
pub(crate) fn draw_session<W: Write>(
    session: &Session,
    events: &[Event],
    out: &mut W,
) -> io::Result<()> {
    let layout = Layout::of(session);
    let (capacity, count) = (session.capacity, session.end.saturating_sub(1));
    let title = Phrase::Peers {
        capacity,
        events: count,
    };
    let (width, height) = (layout.width(), layout.height());
    open(out, width, height, &title)?;
    describe(session, events, out)?;
    close_description(out, width, height, &title)?;
    let below = Point::new(MARGIN, 54);
    text(
        out,
        Paint::plain("soft"),
        below,
        &Phrase::Reading { capacity },
    )?;
    draw_legend(session, out)?;
    draw_frame(session, layout, out)?;
    for span in &session.spans {
        draw_span(session, layout, span, out)?;
    }
    for arrow in &session.arrows {
        draw_arrow(layout, arrow, out)?;
    }
    for ((number, event), answer) in (1..=u16::MAX).zip(events).zip(&session.answers) {
        draw_event(layout, number, event, answer, out)?;
    }
    close(out)
}

// The events and where frames arrived, one a line.
fn describe<W: Write>(session: &Session, events: &[Event], out: &mut W) -> io::Result<()> {
    for ((number, event), answer) in (1..=u16::MAX).zip(events).zip(&session.answers) {
        let (side, asked) = (name_of_side(event.side), Asked::by_act(&event.act));
        let told = Told(answer);
        write!(out, "{number}. {side}: {asked}")?;
        if let Some(channel) = channel_of(&event.act) {
            let channel = channel.number();
            write!(out, " on channel {channel}")?;
        }
        writeln!(out, ": {told}.")?;
    }
    for arrow in &session.arrows {
        let from = arrow.from;
        match arrow.to {
            Some(to) => writeln!(out, "The frame of event {from} arrives at event {to}.")?,
            None => writeln!(out, "The frame of event {from} is in flight at the end.")?,
        }
    }
    Ok(())
}

fn name_of_side(side: Side) -> &'static str {
    match side {
        Side::A => "A",
        Side::B => "B",
    }
}

// What the legend explains.
#[derive(Clone, Copy)]
enum Sample {
    Frame,
    Taken,
    Refused,
    Flight,
    Bar(&'static str),
}

impl Sample {
    fn draw<W: Write>(self, at: Point, out: &mut W) -> io::Result<()> {
        match self {
            Sample::Frame => frame_mark(out, Channel::Data, at),
            Sample::Taken => take_mark(out, Channel::Data, at),
            Sample::Refused => wrong_mark(out, 4, at),
            Sample::Flight => flight_sample(out, at),
            Sample::Bar(name) => bar_sample(out, name, at),
        }
    }
}

// What stands in every legend, in its first two lines.
const SAMPLES: [(Sample, &str); 8] = [
    (Sample::Frame, "frame put"),
    (Sample::Taken, "message taken"),
    (Sample::Refused, "refused"),
    (Sample::Flight, "in flight at the end"),
    (Sample::Bar("held key"), "held by the client"),
    (Sample::Bar("buffered key"), "buffered"),
    (Sample::Bar("outstanding key"), "outstanding"),
    (Sample::Bar("room"), "room"),
];

// A place in the legend, which has four in each line.
fn legend_place(place: u8) -> Point {
    let (column, line) = (u64::from(place % 4), u64::from(place / 4));
    Point::new(MARGIN + 10 + 170 * column, 82 + 24 * line)
}

fn draw_legend<W: Write>(session: &Session, out: &mut W) -> io::Result<()> {
    for (place, (sample, words)) in (0..=u8::MAX).zip(&SAMPLES) {
        let at = legend_place(place);
        sample.draw(at, out)?;
        key(out, at, words)?;
    }
    let occurring = Channel::ALL
        .iter()
        .filter(|channel| occurs(session, **channel));
    for (place, channel) in (SAMPLES.len() as u8..=u8::MAX).zip(occurring) {
        let at = legend_place(place);
        frame_mark(out, *channel, at)?;
        key(out, at, name_of(*channel))?;
    }
    Ok(())
}

fn occurs(session: &Session, channel: Channel) -> bool {
    session.occurs[Lane::Client(channel).index()] || session.occurs[Lane::Server(channel).index()]
}

// The lifelines, and the heads of the columns.
fn draw_frame<W: Write>(session: &Session, layout: Layout, out: &mut W) -> io::Result<()> {
    for side in [Side::A, Side::B] {
        let top = layout.on_line(side, 0);
        text(
            out,
            Paint::plain("head mid"),
            top.up(12),
            &name_of_side(side),
        )?;
        let end = layout.on_line(side, layout.end);
        line(out, Paint::plain("life"), top, end)?;
    }
    Ok(())
}

// A bar from one event to another, where its direction occurs.
fn draw_span<W: Write>(
    session: &Session,
    layout: Layout,
    span: &Span,
    out: &mut W,
) -> io::Result<()> {
    let (client, channel) = (client_of(span.direction), span.direction.channel());
    let place = span.direction.index();
    if !session.occurs[place] {
        return Ok(());
    }
    let column = rank(&session.occurs[..place]);
    let (side, words) = match span.bar {
        Bar::Held(_) => (client, "holds"),
        Bar::Ring { .. } => (other(client), "ring"),
    };
    let y = row(TOP, span.from);
    let at = Point::new(layout.bar(side, column), y);
    if span.from == 0 {
        column_head(out, channel, at, words)?;
    }
    let stack = Stack {
        capacity: session.capacity,
        channel,
        height: row(TOP, span.to).saturating_sub(y),
    };
    rect(out, Paint::plain("room"), at, BAR, stack.height)?;
    stack.draw(at, span.bar, out)
}

// How the parts of a bar are painted.
#[derive(Clone, Copy)]
struct Stack {
    capacity: u32,
    channel: Channel,
    height: u64,
}

impl Stack {
    // The first so many bytes of the bar.
    fn part<W: Write>(
        self,
        name: &'static str,
        at: Point,
        bytes: u64,
        out: &mut W,
    ) -> io::Result<()> {
        if bytes == 0 {
            return Ok(());
        }
        let capacity = u64::from(self.capacity.max(1));
        let len = BAR * bytes.min(capacity) / capacity;
        rect(out, Paint::of(name, self.channel), at, len, self.height)
    }

    // What is buffered lies over what is buffered or outstanding, and that over the whole ring.
    fn draw<W: Write>(self, at: Point, bar: Bar, out: &mut W) -> io::Result<()> {
        match bar {
            Bar::Held(held) => {
                self.part("held", at, held, out)?;
                number(out, Paint::plain("sum"), number_place(at, 0), held)
            }
            Bar::Ring {
                buffered,
                outstanding,
                room,
            } => {
                self.part("outstanding", at, buffered.saturating_add(outstanding), out)?;
                self.part("buffered", at, buffered, out)?;
                self.numbers(at, [buffered, outstanding, room], out)
            }
        }
    }

    // Three numbers, on one line where that is long enough.
    fn numbers<W: Write>(self, at: Point, numbers: [u64; 3], out: &mut W) -> io::Result<()> {
        let sum = Paint::plain("sum");
        let [buffered, outstanding, room] = numbers;
        if self.capacity < WIDE {
            let words = Phrase::Ring {
                buffered,
                outstanding,
                room,
            };
            return text(out, sum, number_place(at, 0), &words);
        }
        number(out, sum, number_place(at, 0), buffered)?;
        number(out, sum, number_place(at, 1), outstanding)?;
        number(out, sum, number_place(at, 2), room)
    }
}

fn number_place(at: Point, line: u8) -> Point {
    at.right(4).down(12 + 12 * u64::from(line))
}

fn column_head<W: Write>(out: &mut W, channel: Channel, at: Point, words: &str) -> io::Result<()> {
    let mark = at.right(10).up(16);
    frame_mark(out, channel, mark)?;
    key(out, mark, words)
}

// From where a frame was put to where it arrived, or towards it.
fn draw_arrow<W: Write>(layout: Layout, arrow: &Arrow, out: &mut W) -> io::Result<()> {
    let Arrow {
        side,
        channel,
        from,
        to,
    } = *arrow;
    let start = layout.on_line(side, from);
    match to {
        Some(to) => {
            let end = layout.on_line(other(side), to);
            line(out, Paint::of("arrow", channel), start, end)
        }
        None => {
            let end = Point::new(
                (layout.x(side) + 3 * layout.x(other(side))) / 4,
                row(TOP, layout.end),
            );
            line(out, Paint::of("flight", channel), start, end)
        }
    }
}

// The mark of an event on its side's lifeline, its number outside and its words inside.
fn draw_event<W: Write>(
    layout: Layout,
    number: u16,
    event: &Event,
    answer: &Answer,
    out: &mut W,
) -> io::Result<()> {
    let at = layout.on_line(event.side, number);
    draw_mark(event, answer, at, out)?;
    draw_number(event.side, number, at, out)?;
    let words = inside_of(event.side, at);
    if let Some(channel) = channel_of(&event.act) {
        let asked = Paint::of(anchored(event.side, "asked", "asked end"), channel);
        text(out, asked, words.up(8), &Happened(&event.act, answer))?;
    }
    let note = match answer {
        Answer::Accepted | Answer::Arrived | Answer::Absolved(_) | Answer::Took(_) => {
            return Ok(());
        }
        Answer::Refused(_) | Answer::Violated(_) => anchored(event.side, "bad", "bad end"),
        _ => anchored(event.side, "soft", "soft end"),
    };
    text(out, Paint::plain(note), words.down(16), &Told(answer))
}

fn anchored(side: Side, start: &'static str, end: &'static str) -> &'static str {
    match side {
        Side::A => start,
        Side::B => end,
    }
}

// Where the words of an event begin, or end at B.
fn inside_of(side: Side, at: Point) -> Point {
    match side {
        Side::A => at.right(18),
        Side::B => at.left(18),
    }
}

fn draw_number<W: Write>(side: Side, number: u16, at: Point, out: &mut W) -> io::Result<()> {
    let outside = inside_of(other(side), at).down(4);
    let paint = Paint::plain(anchored(side, "soft end", "soft"));
    shapes::number(out, paint, outside, u64::from(number))
}

fn draw_mark<W: Write>(event: &Event, answer: &Answer, at: Point, out: &mut W) -> io::Result<()> {
    match (answer, channel_of(&event.act)) {
        (Answer::Refused(refusal), _) => wrong_mark(out, refusal.number(), at),
        (Answer::Violated(violation), _) => wrong_mark(out, violation.number(), at),
        (Answer::Took(_), Some(channel)) => take_mark(out, channel, at),
        (Answer::Accepted | Answer::Absolved(_), Some(channel)) => frame_mark(out, channel, at),
        _ => disc(out, Paint::plain("dot"), at, 4),
    }
}
