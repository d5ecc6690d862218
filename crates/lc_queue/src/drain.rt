//! Where the frames of all lanes are popped.
ghost use Rattle.std.specs.Prelude.{◌≡◌, [], ◌∷◌, ◌++◌, MatchOption, IfSome, IfNone};
ghost use Rattle.lc_frame.specs.Frame.{IsValid};
ghost use Rattle.lc_queue.specs.Parts.{IsSame, AllPopped, AreBegun, lane_of_end};

use crate::lane_end::LaneEnd;
use crate::places::Places;
use crate::rule::{EndOfLane, Pop, Queue, View};
use crossbeam_queue::Pass;
use lc_frame::{Frame, Version};
use std::alloc::Global;
use std::fmt;
use std::fmt::{Debug, Formatter};
use std::marker::Model;
use std::sync::{Arc, Wait};

/// Where the frames of all lanes are popped. Contracts see which queue it is of, all that it
/// popped, and what was put in the lanes that ended.
#[derive(Drop)]
pub struct Drain {
    pub(crate) queue: Arc<Queue, Global>,
    pub(crate) places: Arc<Places, Global>,
    pub(crate) pass: Pass<Frame, View>,
    pub(crate) version: Version,
}

impl Model for Drain {
    ghost use Rattle.std.specs.Prelude.{◌≡◌};
    ghost use Rattle.std.specs.Arc.{arc_value};
    ghost use Rattle.crossbeam_queue.specs.Passes.{view as pass_view, IsPassOf};
    ghost use Rattle.lc_frame.specs.Lane.{lane_count};
    ghost use Rattle.lc_queue.specs.declared.rule.View.TheVariants.{Drain};
    ghost use Rattle.lc_queue.specs.Passes.{popped_of, joined_of};
    ghost use Rattle.lc_queue.specs.Parts.{Outlet};

    ghost Value = { Outlet };

    ghost view = { λ d. record { queue = d.pass.table_id; version = d.version; popped = popped_of (pass_view d.pass); joined = joined_of (pass_view d.pass) } };

    ghost invariant = { λ d. IsPassOf (arc_value d.queue) d.pass × (pass_view d.pass ≡ Drain (record { slots = d.pass.table_id.slots; version = d.version }) lane_count (popped_of (pass_view d.pass)) (joined_of (pass_view d.pass))) };
}

impl Debug for Drain {
    fn fmt<W: fmt::Write>(&self, f: &mut Formatter<W>) -> fmt::Result {
        f.pad("Drain { .. }")
    }
}

impl Drain {
    /// The version of the stream that the frames go out on.
    pub fn version(&self) -> Version
        ensures { result ≡ self.now.version }
    {
        self.version
    }

    /// Takes the frame that has been queued longest; it is valid in the version. `None` comes only
    /// where the queue was empty at a step of the call. It does not try again.
    ///
    /// Clauses say this of the lanes that ended: of each, what was popped is the beginning of what
    /// was put there, and where `None` comes it is all of it. While no lane has ended they say nothing
    /// of what is queued, so not even that the queue was looked at.
    pub fn pop<R: Wait>(&mut self, rt: &R) -> Option<Frame>
        ensures same { IsSame self.new.queue self.old.queue }
        ensures after { MatchOption result (self.new ≡ self.old) (λ frame. self.new ≡ record self.old { popped = self.old.popped ++ frame ∷ [] }) }
        ensures valid { IfSome result (λ frame. IsValid self.old.version frame) }
        ensures begun { IfSome result (λ _. AreBegun self.new) }
        ensures empty { IfNone result (AllPopped self.old) }
    {
        // Its contract says that the frame is the one at the front, and that `None` comes only if
        // the queue was empty at one moment of the call. A pass that finds nothing stays as it is: so
        // it can learn what `empty` says of that moment, and no more.
        let popped = self.queue.pop_as::<Pop, R>(rt, &mut self.pass);
        // The place is given back once it is free in the queue.
        self.places.note_popped(&popped);
        popped
    }

    /// Ends a lane of the same queue. What its end has put and is still queued stays to be popped.
    pub fn join(&mut self, end: LaneEnd)
        requires one { IsSame self.old.queue end.queue }
        ensures same { IsSame self.new.queue self.old.queue }
        ensures after { self.new ≡ record self.old { joined = lane_of_end end ∷ self.old.joined } }
    {
        let LaneEnd {
            queue: _,
            places: _,
            pass,
            version: _,
            lane: _,
        } = end;
        self.queue.absorb::<EndOfLane>(&mut self.pass, pass);
    }
}
