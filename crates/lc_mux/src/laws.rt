//! Laws over the definitions, each the contract of a function that does nothing.
ghost use Rattle.lc_mux.specs.History.{WritesContinue, CallsContinue, ControlsContinue, DeliveriesContinue, TakesContinue, NoticesContinue, ClosesContinue, ContinuesOn, WrittenIsFirst, NewContinues};

/// A new session is that of a history in which nothing was done.
pub fn new_sessions_continue()
    ensures { NewContinues }
{}

/// A write continues the outbound stream by the bytes that it gave, whatever calls proceed meanwhile.
pub fn writes_continue()
    ensures { WritesContinue }
{}

/// A call puts frames, if any, behind all others, and so do the calls that proceed then and what is due; it writes nothing.
pub fn calls_continue()
    ensures { CallsContinue }
{}

/// So does a control call.
pub fn controls_continue()
    ensures { ControlsContinue }
{}

/// So does a delivery, by which frames arrive.
pub fn deliveries_continue()
    ensures { DeliveriesContinue }
{}

/// So does a take.
pub fn takes_continue()
    ensures { TakesContinue }
{}

/// So does a notice that is taken.
pub fn notices_continue()
    ensures { NoticesContinue }
{}

/// So does the close of a session, which puts the finishes.
pub fn closes_continue()
    ensures { ClosesContinue }
{}

/// Over any run of calls the stream continues by what all of them wrote.
pub fn runs_continue()
    ensures { ContinuesOn }
{}

/// The bytes that were written are the first of the greeting and of the frames that the peer put, in their order.
pub fn what_is_written_is_first()
    ensures { WrittenIsFirst }
{}
