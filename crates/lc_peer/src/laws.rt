//! Laws over the definitions, each the contract of a function that does nothing.
ghost use Rattle.lc_peer.specs.Streams.{NewPeersAreOfStreams, CallsKeepStreams, ArrivalsStayBounded, ArrivalsGoOn, ArrivalsStopAtTheFirst};

/// A new peer is that of two empty streams, with nothing taken and no plead kept.
pub fn new_peers_are_of_streams()
    ensures { NewPeersAreOfStreams }
{}

/// A peer whose books, messages and waiting frames are those of two streams is so again after each
/// call: with the frame that it put, the frame that arrived, or one more message taken.
pub fn calls_keep_streams()
    ensures { CallsKeepStreams }
{}

/// Whatever list of valid frames arrives, no channel's buffered bytes and outstanding guarantees
/// together exceed its ring, and the bytes of its ring are those buffered.
pub fn arrivals_stay_bounded()
    ensures { ArrivalsStayBounded }
{}

/// Where all of one list of frames arrive, a longer list leaves what the rest of it leaves after
/// them.
pub fn arrivals_go_on()
    ensures { ArrivalsGoOn }
{}

/// A list of frames arrives up to the first that violates what those before it left: as many are
/// counted as stand before that one, and all where none does.
pub fn arrivals_stop_at_the_first()
    ensures { ArrivalsStopAtTheFirst }
{}
