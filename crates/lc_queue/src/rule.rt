//! The rule of the queue, and what each step tells the pass that makes it.
use crossbeam_queue::RuledArrayQueue;
use crossbeam_queue::protocol::{Join, Lesson, Outcome, Protocol, Split};
use lc_frame::{Frame, Version};
use std::alloc::Global;
use std::collections::LinkedList;
use std::marker::{Brand, PhantomData};

/// The queue that all parts share.
pub type Queue = RuledArrayQueue<Frame, View, LanesKept, Global>;

/// A lane whose end was joined to the drain: its number and all that was put there. No value of it
/// is made.
pub struct JoinedLane {
    pub lane: u64,
    pub put: LinkedList<Frame>,
}

/// What every pass is told of its queue: how many slots it has, and the version in which its frames
/// are valid. No value of it is made.
pub struct Terms {
    pub slots: u64,
    pub version: Version,
}

/// What a pass knows. No value of it is made.
pub enum View {
    /// A lane's end: the queue's terms, the lane, and what was put there.
    Lane(Terms, u64, LinkedList<Frame>),
    /// The drain: the queue's terms, the first lane that has no end yet, what was popped, and the
    /// lanes that ended. A new queue has not been told its terms, and has no lane.
    Drain(Terms, u64, LinkedList<Frame>, LinkedList<JoinedLane>),
    /// The end of a lane that was joined.
    Spent,
}

/// Lane by lane, what was popped and then what is queued is what was put, and no more is queued than
/// there are slots.
pub struct LanesKept;

impl Protocol<Frame, View> for LanesKept {
    ghost use Rattle.lc_queue.specs.Rule.{KeepsLanes};
    ghost use Rattle.lc_queue.specs.Passes.{new_view};

    ghost holds = { KeepsLanes };

    ghost first = { new_view };
}

/// The terms of a queue. All new queues begin with one view, which can't name them: it is at the
/// first cut that the passes are told them, by a type, so that the rule can say that no more is
/// queued than there are slots, and only what is valid.
pub trait Told {
    ghost use Rattle.lc_queue.specs.declared.rule.Terms.{Terms};

    ghost terms: { Terms };
}

// A call that passes `Brand` picks the terms in its proof.
impl Told for Brand {
    ghost use Rattle.lc_queue.specs.Passes.{no_terms};

    ghost terms = { no_terms };
}

/// The pass of lane 0 is cut from that of a new queue.
pub struct FirstLane<N: Told> {
    told: PhantomData<N>,
}

impl<N: Told> Split<View> for FirstLane<N> {
    ghost use Rattle.lc_queue.specs.Passes.{first_drain_cut, first_lane_cut};

    ghost left = { first_drain_cut N.terms };

    ghost right = { first_lane_cut N.terms };
}

/// The pass of the next lane is cut from the drain's.
pub struct NextLane;

impl Split<View> for NextLane {
    ghost use Rattle.lc_queue.specs.Passes.{drain_cut, lane_cut};

    ghost left = { drain_cut };

    ghost right = { lane_cut };
}

/// A lane ends: the drain's pass takes over what its end knew.
pub struct EndOfLane;

impl Join<View> for EndOfLane {
    ghost use Rattle.lc_queue.specs.declared.rule.View.TheVariants.{Spent};
    ghost use Rattle.lc_queue.specs.Passes.{drain_joined};

    ghost both = { drain_joined };

    ghost spent = { Spent };
}

/// A push of a lane's end.
pub struct Push;

impl Outcome<Frame, View> for Push {
    ghost use Rattle.lc_queue.specs.Passes.{Puts};

    ghost then = { Puts };
}

impl Lesson<Frame, View> for Push {
    ghost use Rattle.lc_queue.specs.Passes.{FindsFull};

    ghost fact = { FindsFull };
}

/// A pop of the drain.
pub struct Pop;

impl Outcome<Frame, View> for Pop {
    ghost use Rattle.lc_queue.specs.Passes.{Takes};

    ghost then = { Takes };
}

impl Lesson<Frame, View> for Pop {
    ghost use Rattle.lc_queue.specs.Passes.{FindsEmpty};

    ghost fact = { FindsEmpty };
}
