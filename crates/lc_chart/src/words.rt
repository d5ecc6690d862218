//! What a picture says of an event, in words.
use lc_frame::FrameRef;
use lc_world::{Act, Answer};
use std::fmt;
use std::fmt::Display;

/// A number of bytes.
#[derive(Clone, Copy)]
pub(crate) struct Bytes(pub u64);

impl Display for Bytes {
    fn fmt<W: fmt::Write>(&self, f: &mut fmt::Formatter<W>) -> fmt::Result {
        let Bytes(count) = *self;
        match count {
            1 => f.write_str("1 byte"),
            _ => write!(f, "{count} bytes"),
        }
    }
}

/// What was asked for: words alone, or words that end in a space and a number or a size behind them.
#[derive(Clone, Copy)]
pub(crate) enum Asked {
    Alone(&'static str),
    Number(&'static str, u64),
    Size(&'static str, Bytes),
}

impl Asked {
    /// By an act: of what puts a frame, its kind and number.
    pub(crate) fn by_act(act: &Act) -> Asked {
        match act {
            Act::Send { body, .. } => Asked::send(body.as_slice()),
            Act::Issue { amount, .. } => Asked::Number("issue ", u64::from(*amount)),
            Act::Plead { target, .. } => Asked::Number("plead to hold ", u64::from(*target)),
            Act::Absolve { amount, .. } => Asked::Number("absolve ", u64::from(*amount)),
            Act::Honour { .. } => Asked::Alone("honour"),
            Act::LimitSending { bound, .. } => Asked::Number("limit sending to ", *bound),
            Act::LimitReceiving { bound, .. } => Asked::Number("limit receiving to ", *bound),
            Act::Finish { .. } => Asked::Alone("finish"),
            Act::Arrive => Asked::Alone("arrive"),
            Act::Deliver { count } => Asked::Size("deliver ", Bytes(u64::from(*count))),
            Act::Take { .. } => Asked::Alone("take"),
        }
    }

    /// By a frame: its kind and number.
    pub(crate) fn by_frame(frame: &FrameRef<'_>) -> Asked {
        match frame {
            FrameRef::Send { body, .. } => Asked::send(body),
            FrameRef::Issue { amount, .. } => Asked::Number("issue ", u64::from(*amount)),
            FrameRef::Plead { target, .. } => Asked::Number("plead to hold ", u64::from(*target)),
            FrameRef::Absolve { amount, .. } => Asked::Number("absolve ", u64::from(*amount)),
            FrameRef::LimitSending { bound, .. } => Asked::Number("limit sending to ", *bound),
            FrameRef::LimitReceiving { bound, .. } => Asked::Number("limit receiving to ", *bound),
            FrameRef::Finish { .. } => Asked::Alone("finish"),
        }
    }

    fn send(body: &[u8]) -> Asked {
        Asked::Size("send ", Bytes(body.len() as u64))
    }
}

impl Display for Asked {
    fn fmt<W: fmt::Write>(&self, f: &mut fmt::Formatter<W>) -> fmt::Result {
        match self {
            Asked::Alone(words) => f.write_str(words),
            Asked::Number(words, number) => write!(f, "{words}{number}"),
            Asked::Size(words, size) => write!(f, "{words}{size}"),
        }
    }
}

/// What happened: what was asked for, with the number that the answer adds.
#[derive(Clone, Copy)]
pub(crate) struct Happened<'a>(pub &'a Act, pub &'a Answer);

impl Display for Happened<'_> {
    fn fmt<W: fmt::Write>(&self, f: &mut fmt::Formatter<W>) -> fmt::Result {
        let asked = Asked::by_act(self.0);
        match self.1 {
            Answer::Absolved(amount) => write!(f, "{asked}: absolve {amount}"),
            Answer::Took(body) => {
                let size = Bytes(body.as_slice().len() as u64);
                write!(f, "{asked} {size}")
            }
            _ => asked.fmt(f),
        }
    }
}

/// What a picture says of an answer.
#[derive(Clone, Copy)]
pub struct Told<'a>(pub &'a Answer);

impl Display for Told<'_> {
    fn fmt<W: fmt::Write>(&self, f: &mut fmt::Formatter<W>) -> fmt::Result {
        let words = match self.0 {
            Answer::Accepted => "accepted",
            Answer::NothingToAbsolve => "nothing to absolve",
            Answer::Arrived => "arrived",
            Answer::NothingInFlight => "nothing in flight",
            Answer::Empty => "empty",
            Answer::Ended => "ended: none will come",
            Answer::Absolved(amount) => return write!(f, "absolve {amount}"),
            Answer::Took(body) => return Bytes(body.as_slice().len() as u64).fmt(f),
            Answer::Delivered { bytes, frames } => {
                let size = Bytes(*bytes);
                return write!(f, "{size} came, whole frames: {frames}");
            }
            Answer::Violated(violation) => {
                let number = violation.number();
                return write!(f, "violation V{number}: {violation}");
            }
            Answer::Refused(refusal) => {
                let number = refusal.number();
                return write!(f, "refused {number}: {refusal}");
            }
        };
        f.write_str(words)
    }
}

/// What a picture says of itself, and numbers with a word.
#[derive(Clone, Copy)]
pub(crate) enum Phrase {
    Peers {
        capacity: u32,
        events: u16,
    },
    Reading {
        capacity: u32,
    },
    Stream {
        frames: u16,
    },
    Ring {
        buffered: u64,
        outstanding: u64,
        room: u64,
    },
    Offset(usize),
}

impl Display for Phrase {
    fn fmt<W: fmt::Write>(&self, f: &mut fmt::Formatter<W>) -> fmt::Result {
        match self {
            Phrase::Peers { capacity, events } => {
                let size = Bytes(u64::from(*capacity));
                write!(
                    f,
                    "Two peers with receiving rings of {size}: {events} events"
                )
            }
            Phrase::Reading { capacity } => write!(
                f,
                "Time runs down, event by event. Numbers in a ring: buffered + outstanding + room = {capacity}"
            ),
            Phrase::Stream { frames } => write!(f, "A stream with {frames} whole frames"),
            Phrase::Ring {
                buffered,
                outstanding,
                room,
            } => write!(f, "{buffered}+{outstanding}+{room}"),
            Phrase::Offset(offset) => write!(f, "byte {offset}"),
        }
    }
}
