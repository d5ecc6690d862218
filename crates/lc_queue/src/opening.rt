//! How a queue is made.
ghost use Rattle.std.specs.Prelude.{◌≡◌, ◌+◌, ◌<◌, ◌≤◌, ◌↔◌, [], IfOk};
ghost use Rattle.std.specs.List.{All};
ghost use Rattle.lc_frame.specs.Bounds.{IsSlots, max_slots};
ghost use Rattle.lc_frame.specs.Lane.{lane_count};
ghost use Rattle.lc_queue.specs.declared.fault.LanesFault.TheVariants.{BadSlots};
ghost use Rattle.lc_queue.specs.Parts.{IsSame, places_of, new_end, new_ends, new_outlet};

use crate::drain::Drain;
use crate::fault::LanesFault;
use crate::lane_end::LaneEnd;
use crate::parts::Lanes;
use crate::places::Places;
use crate::rule::{FirstLane, NextLane, Queue, Told, View};
use crossbeam_queue::Pass;
use lc_frame::{Frame, LANES, Version, is_slots};
use std::alloc::{AllocError, Global};
use std::marker::{Brand, Model};
use std::sync::Arc;

// A queue that has no ends for the lanes from `next` on.
#[derive(Drop)]
struct Opening {
    queue: Arc<Queue, Global>,
    places: Arc<Places, Global>,
    pass: Pass<Frame, View>,
    version: Version,
}

impl Model for Opening {
    ghost use Rattle.std.specs.Prelude.{◌≡◌, []};
    ghost use Rattle.std.specs.Arc.{arc_value};
    ghost use Rattle.crossbeam_queue.specs.Passes.{view as pass_view, IsPassOf};
    ghost use Rattle.lc_queue.specs.declared.rule.View.TheVariants.{Drain};
    ghost use Rattle.lc_queue.specs.Passes.{next_of};
    ghost use Rattle.lc_queue.specs.Opened.{Opened};

    ghost Value = { Opened };

    ghost view = { λ o. record { queue = o.pass.table_id; version = o.version; next = next_of (pass_view o.pass) } };

    ghost invariant = { λ o. IsPassOf (arc_value o.queue) o.pass × (pass_view o.pass ≡ Drain (record { slots = o.pass.table_id.slots; version = o.version }) (next_of (pass_view o.pass)) [] []) };
}

impl Opening {
    // A new queue and the end of lane 0. `N` names the terms in the types of the first cut.
    fn new<N: Told>(
        alloc: Global,
        slots: u32,
        version: Version,
    ) -> Result<(Opening, LaneEnd), AllocError>
        requires few { slots ≤ max_slots }
        requires told { N.terms ≡ record { slots = slots + lane_count; version = version } }
        ensures { IfOk result (λ new. (places_of new.0.queue ≡ slots + lane_count) × (new.0.version ≡ version) × (new.0.next ≡ 1) × (new.1 ≡ new_end new.0.queue version 0)) }
    {
        let (queue, mut pass) = Queue::ruled(alloc, slots as usize + LANES)?;
        let first = queue.another::<FirstLane<N>>(&mut pass);
        let queue = Arc::new(alloc, queue)?;
        let places = Arc::new(alloc, Places::new(slots))?;
        let end = LaneEnd {
            queue: Arc::try_clone(&queue)?,
            places: Arc::try_clone(&places)?,
            pass: first,
            version,
            lane: 0,
        };
        Ok((
            Opening {
                queue,
                places,
                pass,
                version,
            },
            end,
        ))
    }

    // The end of the next lane.
    fn next_lane(&mut self, lane: u8) -> Result<LaneEnd, AllocError>
        requires { (self.old.next ≡ lane) × (lane < lane_count) }
        ensures { IfOk result (λ end. (end ≡ new_end self.old.queue self.old.version lane) × (self.new ≡ record self.old { next = lane + 1 })) }
    {
        let queue = Arc::try_clone(&self.queue)?;
        let places = Arc::try_clone(&self.places)?;
        let pass = self.queue.another::<NextLane>(&mut self.pass);
        Ok(LaneEnd {
            queue,
            places,
            pass,
            version: self.version,
            lane,
        })
    }

    // The ends of all lanes.
    fn ends(&mut self, alloc: Global, first: LaneEnd) -> Result<[LaneEnd; LANES], AllocError>
        requires { (self.old.next ≡ 1) × (first ≡ new_end self.old.queue self.old.version 0) }
        ensures { IfOk result (λ ends. (ends ≡ new_ends self.old.queue self.old.version) × (self.new ≡ record self.old { next = lane_count })) }
    {
        let mut ends = Vec::with_capacity(alloc, LANES)?;
        ends.push(first)?;
        for lane in 1..LANES as u8 {
            ends.push(self.next_lane(lane)?)?;
        }
        let Ok(ends) = <[LaneEnd; LANES]>::try_from(ends) else {
            unreachable!()
        };
        Ok(ends)
    }

    // The drain of a queue whose lanes all have their ends.
    fn drain(self) -> Drain
        requires { self.next ≡ lane_count }
        ensures { result ≡ new_outlet self.queue self.version }
    {
        let Opening {
            queue,
            places,
            pass,
            version,
        } = self;
        Drain {
            queue,
            places,
            pass,
            version,
        }
    }
}

/// The ends of all lanes and the drain of a new queue, which has a place of its own for each lane and
/// `slots` more, 1 to 65,536, that all lanes share. Its frames are valid in the version. It takes all the memory of the queue; no later call takes
/// any.
pub fn lanes(alloc: Global, slots: u32, version: Version) -> Result<Lanes, LanesFault>
    ensures bad { (result ≡ Err BadSlots) ↔ ¬ IsSlots slots }
    ensures drain { IfOk result (λ parts. parts.drain ≡ new_outlet parts.drain.queue version) }
    ensures ends { IfOk result (λ parts. parts.ends ≡ new_ends parts.drain.queue version) }
    ensures one { IfOk result (λ parts. All (λ end. IsSame parts.drain.queue end.queue) parts.ends) }
    ensures slots { IfOk result (λ parts. places_of parts.drain.queue ≡ slots + lane_count) }
{
    if !is_slots(slots) {
        return Err(LanesFault::BadSlots);
    }
    let (mut opening, first) = Opening::new::<Brand>(alloc, slots, version)?;
    let ends = opening.ends(alloc, first)?;
    let drain = opening.drain();
    Ok(Lanes { ends, drain })
}
