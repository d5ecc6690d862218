//! Where the frames of one lane are put.
ghost use Rattle.std.specs.Prelude.{◌≡◌, ◌<◌, [], ◌∷◌, ◌++◌, MatchResult};
ghost use Rattle.lc_frame.specs.Frame.{lane_of, IsValid};
ghost use Rattle.lc_frame.specs.Lane.{lane_count};
ghost use Rattle.lc_queue.specs.Parts.{IsSameEnd};

use crate::places::Places;
use crate::rule::{Push, Queue, View};
use crossbeam_queue::Pass;
use lc_frame::{Frame, Version};
use std::alloc::Global;
use std::fmt;
use std::fmt::{Debug, Formatter};
use std::marker::Model;
use std::sync::{Arc, Wait};

/// The end of one lane, where its frames are put. A lane has one end, which one thread at a time
/// has; contracts see which queue and lane it is of, and all that was put there.
#[derive(Drop)]
pub struct LaneEnd {
    pub(crate) queue: Arc<Queue, Global>,
    pub(crate) places: Arc<Places, Global>,
    pub(crate) pass: Pass<Frame, View>,
    pub(crate) version: Version,
    pub(crate) lane: u8,
}

impl Model for LaneEnd {
    ghost use Rattle.std.specs.Prelude.{◌≡◌, ◌<◌};
    ghost use Rattle.std.specs.Arc.{arc_value};
    ghost use Rattle.crossbeam_queue.specs.Passes.{view as pass_view, IsPassOf};
    ghost use Rattle.lc_frame.specs.Lane.{lane_count};
    ghost use Rattle.lc_queue.specs.declared.rule.View.TheVariants.{Lane};
    ghost use Rattle.lc_queue.specs.Passes.{put_of};
    ghost use Rattle.lc_queue.specs.Parts.{End};

    ghost Value = { End };

    ghost view = { λ e. record { queue = e.pass.table_id; version = e.version; lane = e.lane; put = put_of (pass_view e.pass) } };

    ghost invariant = { λ e. IsPassOf (arc_value e.queue) e.pass × (pass_view e.pass ≡ Lane (record { slots = e.pass.table_id.slots; version = e.version }) e.lane (put_of (pass_view e.pass))) × (e.lane < lane_count) };
}

impl Debug for LaneEnd {
    fn fmt<W: fmt::Write>(&self, f: &mut Formatter<W>) -> fmt::Result {
        f.debug_struct("LaneEnd")
            .field("lane", &self.lane)
            .finish_non_exhaustive()
    }
}

impl LaneEnd {
    /// The version of the stream that the frames go out on.
    pub fn version(&self) -> Version
        ensures { result ≡ self.now.version }
    {
        self.version
    }

    /// The lane's number, as `Lane::number` has it.
    pub fn lane(&self) -> u8
        ensures value { result ≡ self.now.lane }
        ensures range { result < lane_count }
    {
        self.lane
    }

    /// Puts a frame of this lane that is valid in the version behind all others, or gives it back, and
    /// nothing changes. It comes back only where a frame of this lane was queued at a step of the call,
    /// and all shared places were taken at a later one, which no clause here can say, since an end knows
    /// nothing of what is queued. It does not try again, and waits for no other thread. After 2^62
    /// pushes it does not return.
    pub fn push<R: Wait>(&mut self, rt: &R, frame: Frame) -> Result<(), Frame>
        requires valid { IsValid self.old.version frame }
        requires lane { lane_of frame ≡ self.old.lane }
        ensures same { IsSameEnd self.old self.new }
        ensures after { MatchResult result (λ _. self.new ≡ record self.old { put = self.old.put ++ frame ∷ [] }) (λ back. (back ≡ frame) × (self.new ≡ self.old)) }
    {
        // Of what is queued its contract says: the frame joins at the back in one step, at which fewer
        // frames are queued than there are slots; it comes back only if the queue was full at one
        // moment of the call.
        if !self.places.take(rt, self.lane) {
            return Err(frame);
        }
        match self.queue.push_as::<Push, R>(rt, &mut self.pass, frame) {
            Ok(()) => Ok(()),
            Err(back) => {
                self.places.give_back(self.lane);
                Err(back)
            }
        }
    }
}
