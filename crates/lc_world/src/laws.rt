//! What every legal history keeps, as the contract of a function that does nothing.
ghost use Rattle.lc_world.specs.Guarantee.{EveryHistoryKeepsGuarantees};
ghost use Rattle.lc_world.specs.Delivery.{EveryStreamIsCutByBytes, DeliveriesAddUp};
ghost use Rattle.lc_world.specs.Credit.{CreditIsConserved, CreditNeverLeaks, CreditComesBack};
ghost use Rattle.lc_world.specs.Progress.{NothingWedges};

/// On every channel the messages taken are a prefix of those accepted, no frame that arrives is
/// refused, no ring is overrun, nothing passes a limit, and guarantees held, spent, absolved and
/// waived add up to those received. Waived are those that a client held when it finished the
/// channel, and those that still came; nothing of its own follows its Finish there.
pub fn every_history_keeps_guarantees()
    ensures { EveryHistoryKeepsGuarantees }
{}

/// Every stream is cut by bytes: those delivered are the first so many of its greeting and the joined
/// bytes of its frames, a frame has arrived exactly where its last byte was delivered, and less of
/// the next has begun than it has.
pub fn every_stream_is_cut_by_bytes()
    ensures { EveryStreamIsCutByBytes }
{}

/// A delivery brings the bytes that it counts, two bring what one of as many bytes brings, and the
/// arrival of a frame is the delivery of the bytes that are missing of it and of the greeting.
pub fn deliveries_add_up()
    ensures { DeliveriesAddUp }
{}

/// Credit is conserved: on every channel what the client holds or waived, what is in flight as
/// issues, messages and absolvings, what waits in the ring and what may still be issued are always
/// the whole ring. Once the client's Finish has arrived, what waits and what may still be issued are.
pub fn credit_is_conserved()
    ensures { CreditIsConserved }
{}

/// Credit never leaks: where no frame is in flight and no message waits on a channel, what the
/// client holds and what may still be issued are the whole ring.
pub fn credit_never_leaks()
    ensures { CreditNeverLeaks }
{}

/// Credit comes back: there, where the client has not finished, once what there is room for was
/// issued and has arrived, the client holds the whole ring, and no message that fits it is refused
/// but by the client's own limit.
pub fn credit_comes_back()
    ensures { CreditComesBack }
{}

/// Nothing wedges: every history can be gone on with, by arrivals and takes alone, to one in which
/// every message that was accepted is taken and no frame is in flight. It says what can be done, not
/// that a thread does it.
pub fn nothing_wedges()
    ensures { NothingWedges }
{}
