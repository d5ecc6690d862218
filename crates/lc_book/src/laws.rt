//! Laws over the definitions, each the contract of a function that does nothing.
ghost use Rattle.lc_book.specs.Sums.{BooksKeepSums, EveryHonourKeepsSums, EveryTakeKeepsSums, EveryBookPutsValidFrames, EverySumIsOfItsLane};

/// A book whose fields are the sums over the streams is one again after every frame that is put or
/// arrives: by the frame's own rule on the frame's channel, and unchanged on every other.
pub fn books_keep_sums()
    ensures { BooksKeepSums }
{}

/// An honour that absolves leaves the book of the streams with that absolving put last, and one
/// that does not leaves the same sums. The plead is forgotten in both cases.
pub fn honours_keep_sums()
    ensures { EveryHonourKeepsSums }
{}

/// A take leaves the book of one more message taken: what is buffered is the cost of the messages
/// that arrived less that of those taken.
pub fn takes_keep_sums()
    ensures { EveryTakeKeepsSums }
{}

/// The frame of an event that a book accepts is valid.
pub fn books_put_valid_frames()
    ensures { EveryBookPutsValidFrames }
{}

/// Each sum over a list of frames is that over the frames of one lane: that of the channel's client, or
/// that of its server.
pub fn sums_are_of_lanes()
    ensures { EverySumIsOfItsLane }
{}
