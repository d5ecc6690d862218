//! How the inboxes of seven channels end.
ghost use Rattle.lc_inbox.specs.Inboxes.{AreMatched, AreFinished};

use crate::arrays::{unzipped, zipped};
use crate::inbox_in::InboxIn;
use crate::inbox_out::InboxOut;
use crate::shared_inbox::finish;
use lc_book::ServerBook;
use lc_frame::CHANNELS;
use lc_queue::LaneEnd;

/// What seven inboxes leave, each at the place of its channel's number.
#[derive(Drop)]
pub struct FinishedInboxes {
    /// The books.
    pub books: [ServerBook; CHANNELS],
    /// The ends of the lanes on which the servers put.
    pub lanes: [LaneEnd; CHANNELS],
}

/// Ends both sides of the inboxes of all seven channels, as [`finish`] ends one.
pub fn finish_all(incoming: [InboxIn; CHANNELS], outgoing: [InboxOut; CHANNELS]) -> FinishedInboxes
    requires { AreMatched incoming outgoing }
    ensures { AreFinished incoming outgoing result.books result.lanes }
{
    let ended = zipped(incoming, outgoing).map(|(reading, receiving)| finish(reading, receiving));
    let (books, lanes) = unzipped(ended);
    FinishedInboxes { books, lanes }
}
