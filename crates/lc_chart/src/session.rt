//! A session as a picture shows it: where each frame arrived, and how the balances went.
use crate::fault::ChartFault;
use lc_cli::Fault;
use lc_frame::{Channel, LANES, Lane, Version};
use lc_world::{Act, Answer, Event, NewFault, Side, World};
use std::alloc::{AllocError, Global};
use std::collections::VecDeque;

/// The most events or frames of a picture.
pub const MAX_EVENTS: u16 = 2000;

/// The side that sends in a direction, which is a lane as A sees it: where A sends it is the client's.
pub(crate) fn client_of(direction: Lane) -> Side {
    match direction {
        Lane::Client(_) => Side::A,
        Lane::Server(_) => Side::B,
    }
}

/// What a bar of a direction shows, in bytes: what its client holds, or what is buffered, outstanding
/// and free in its server's ring.
#[derive(Clone, Copy, PartialEq, Eq)]
pub(crate) enum Bar {
    Held(u64),
    Ring {
        buffered: u64,
        outstanding: u64,
        room: u64,
    },
}

/// A bar, and the events between which it stood: after the first and before the last.
#[derive(Clone, Copy)]
pub(crate) struct Span {
    pub direction: Lane,
    pub from: u16,
    pub to: u16,
    pub bar: Bar,
}

/// A frame that a side put: at which event, and at which it arrived, if it did.
#[derive(Clone, Copy)]
pub(crate) struct Arrow {
    pub side: Side,
    pub channel: Channel,
    pub from: u16,
    pub to: Option<u16>,
}

/// What became of a script. Events are counted from 1.
#[derive(Drop)]
pub(crate) struct Session {
    pub capacity: u32,
    pub answers: Vec<Answer>,
    pub arrows: Vec<Arrow>,
    pub spans: Vec<Span>,
    /// By the numbers of the directions, which of them occur.
    pub occurs: [bool; LANES],
    /// The number behind the last event.
    pub end: u16,
    // The frames of each side that are in flight.
    from_a: VecDeque<Arrow>,
    from_b: VecDeque<Arrow>,
    clients: [Standing; LANES],
    rings: [Standing; LANES],
}

// What a bar shows, and since which event.
#[derive(Clone, Copy)]
struct Standing {
    since: u16,
    bar: Bar,
}

impl Standing {
    fn new(since: u16, bar: Bar) -> Standing {
        Standing { since, bar }
    }

    // The bar as it stood up to this event.
    fn span(self, to: u16, direction: Lane) -> Span {
        Span {
            direction,
            from: self.since,
            to,
            bar: self.bar,
        }
    }
}

impl Session {
    /// Answers the events between peers that both write this version. Those behind `MAX_EVENTS` are left
    /// out.
    pub(crate) fn new(
        alloc: Global,
        capacity: u32,
        version: Version,
        events: &[Event],
    ) -> Result<Session, ChartFault> {
        let mut world = match World::new_as(alloc, capacity, [version; 2]) {
            Ok(world) => world,
            Err(NewFault::BadCapacity) => return Err(ChartFault::Usage),
            Err(NewFault::OutOfMemory) => return Err(ChartFault::Shared(Fault::OutOfMemory)),
        };
        let mut session = Session::empty(alloc, capacity);
        for (number, event) in (1..=MAX_EVENTS).zip(events) {
            session.step(&mut world, number, event)?;
        }
        session.close()?;
        Ok(session)
    }

    // Answers the event of this number, and notes what it changed.
    fn step(&mut self, world: &mut World, number: u16, event: &Event) -> Result<(), ChartFault> {
        let answer = world.step(event);
        let channel = self.note_event(number, event, &answer)?;
        self.note_bars(number, channel, world)?;
        self.answers.push(answer)?;
        self.end = number.saturating_add(1);
        Ok(())
    }

    fn empty(alloc: Global, capacity: u32) -> Session {
        let empty_ring = Bar::Ring {
            buffered: 0,
            outstanding: 0,
            room: u64::from(capacity),
        };
        Session {
            capacity,
            answers: Vec::new(alloc),
            arrows: Vec::new(alloc),
            spans: Vec::new(alloc),
            occurs: [false; LANES],
            end: 1,
            from_a: VecDeque::new(alloc),
            from_b: VecDeque::new(alloc),
            clients: [Standing::new(0, Bar::Held(0)); LANES],
            rings: [Standing::new(0, empty_ring); LANES],
        }
    }

    // Notes which frame the event put, and which arrived by it. Answers the channel on which alone it
    // changed a bar, and `None` where there may be more, or where none is known, as of nothing that arrived.
    fn note_event(
        &mut self,
        number: u16,
        event: &Event,
        answer: &Answer,
    ) -> Result<Option<Channel>, AllocError> {
        let side = event.side;
        if let Some(direction) = direction_of(event) {
            self.occurs[direction.index()] = true;
        }
        let channel = channel_of(&event.act);
        let landed = match (answer, channel) {
            (Answer::Accepted | Answer::Absolved(_), Some(channel)) => {
                self.put(Arrow {
                    side,
                    channel,
                    from: number,
                    to: None,
                })?;
                None
            }
            (Answer::Arrived, _) => self.land_first(other(side), number)?,
            (Answer::Delivered { frames, .. }, _) => {
                self.land(other(side), Some(number), *frames)?;
                None
            }
            _ => None,
        };
        Ok(lone_channel(channel, answer, landed))
    }

    fn put(&mut self, arrow: Arrow) -> Result<(), AllocError> {
        match arrow.side {
            Side::A => self.from_a.push_back(arrow)?,
            Side::B => self.from_b.push_back(arrow)?,
        }
        Ok(())
    }

    fn first_in_flight(&mut self, side: Side) -> Option<Arrow> {
        match side {
            Side::A => self.from_a.pop_front(),
            Side::B => self.from_b.pop_front(),
        }
    }

    // So many of the side's frames, or as many as are in flight, end at an event or in flight.
    fn land(&mut self, side: Side, to: Option<u16>, frames: u64) -> Result<(), AllocError> {
        for _ in 0..frames {
            match self.first_in_flight(side) {
                Some(arrow) => self.arrows.push(Arrow { to, ..arrow })?,
                None => return Ok(()),
            }
        }
        Ok(())
    }

    // The side's first frame in flight ends at an event. Answers the frame's channel.
    fn land_first(&mut self, side: Side, to: u16) -> Result<Option<Channel>, AllocError> {
        let Some(arrow) = self.first_in_flight(side) else {
            return Ok(None);
        };
        let to = Some(to);
        self.arrows.push(Arrow { to, ..arrow })?;
        Ok(Some(arrow.channel))
    }

    // Notes each bar that the event changed, which are bars of this channel if there is one. With none all
    // bars are looked at.
    fn note_bars(
        &mut self,
        number: u16,
        channel: Option<Channel>,
        world: &World,
    ) -> Result<(), AllocError> {
        if let Some(channel) = channel {
            self.note_direction(number, Lane::Client(channel), world)?;
            return self.note_direction(number, Lane::Server(channel), world);
        }
        for direction in (0..LANES as u8).filter_map(Lane::from_number) {
            self.note_direction(number, direction, world)?;
        }
        Ok(())
    }

    fn note_direction(
        &mut self,
        number: u16,
        direction: Lane,
        world: &World,
    ) -> Result<(), AllocError> {
        let place = direction.index();
        let (client, ring) = bars_of(world, direction);
        if self.clients[place].bar != client {
            self.spans
                .push(self.clients[place].span(number, direction))?;
            self.clients[place] = Standing::new(number, client);
        }
        if self.rings[place].bar != ring {
            self.spans.push(self.rings[place].span(number, direction))?;
            self.rings[place] = Standing::new(number, ring);
        }
        Ok(())
    }

    // Closes what stands at the end: the bars, and the frames in flight.
    fn close(&mut self) -> Result<(), AllocError> {
        for direction in (0..LANES as u8).filter_map(Lane::from_number) {
            let place = direction.index();
            self.spans
                .push(self.clients[place].span(self.end, direction))?;
            self.spans
                .push(self.rings[place].span(self.end, direction))?;
        }
        for side in [Side::A, Side::B] {
            self.land(side, None, u64::from(MAX_EVENTS))?;
        }
        Ok(())
    }
}

/// The other side.
pub(crate) fn other(side: Side) -> Side {
    match side {
        Side::A => Side::B,
        Side::B => Side::A,
    }
}

// The channel on which alone an event changes a balance: that of its act, and of an arrival that of the
// frame that arrived. A delivery may bring several, so it has none; nor has an arrival or a delivery that
// brings nothing or breaks the rules, since its act has no channel.
fn lone_channel(act: Option<Channel>, answer: &Answer, landed: Option<Channel>) -> Option<Channel> {
    match answer {
        Answer::Arrived => landed,
        Answer::Delivered { .. } => None,
        Answer::Accepted
        | Answer::Absolved(_)
        | Answer::NothingToAbsolve
        | Answer::NothingInFlight
        | Answer::Violated(_)
        | Answer::Took(_)
        | Answer::Empty
        | Answer::Ended
        | Answer::Refused(_) => act,
    }
}

// The bars of a direction, at its client and at its server.
fn bars_of(world: &World, direction: Lane) -> (Bar, Bar) {
    let (client, channel) = (client_of(direction), direction.channel());
    let server = world.server(other(client), channel);
    let ring = Bar::Ring {
        buffered: server.buffered(),
        outstanding: server.outstanding(),
        room: server.room(),
    };
    (Bar::Held(world.client(client, channel).held()), ring)
}

/// The channel that an act concerns.
pub(crate) fn channel_of(act: &Act) -> Option<Channel> {
    match act {
        Act::Send { channel, .. }
        | Act::Issue { channel, .. }
        | Act::Plead { channel, .. }
        | Act::Absolve { channel, .. }
        | Act::Honour { channel }
        | Act::LimitSending { channel, .. }
        | Act::LimitReceiving { channel, .. }
        | Act::Finish { channel }
        | Act::Take { channel } => Some(*channel),
        Act::Arrive | Act::Deliver { .. } => None,
    }
}

// The direction that an event concerns.
fn direction_of(event: &Event) -> Option<Lane> {
    let channel = channel_of(&event.act)?;
    let client = match event.act {
        Act::Issue { .. } | Act::Plead { .. } | Act::LimitReceiving { .. } | Act::Take { .. } => {
            other(event.side)
        }
        _ => event.side,
    };
    Some(match client {
        Side::A => Lane::Client(channel),
        Side::B => Lane::Server(channel),
    })
}
