//! A Send whose message is not kept.
ghost use Rattle.std.specs.Prelude.{◌<◌};
ghost use Rattle.lc_peer.specs.RingIntake.{IsSkip};
ghost use Rattle.lc_peer.specs.Skips.{Skips};

use crate::ring_sink::RingSink;
use crate::unkept::Unkept;
use lc_book::Violation;
use lc_frame::{Channel, Version};

/// A Send whose message is longer than its ring, so that nothing of it is kept but how many bytes are
/// missing.
#[derive(Drop)]
pub(crate) struct Skip {
    pub version: Version,
    pub channel: Channel,
    pub len: usize,
    pub missing: usize,
    pub body: Unkept,
}

/// What is known of it after more bytes, and what they did.
#[derive(Drop)]
pub(crate) struct Skipped {
    pub skip: Skip,
    /// How many bytes were taken.
    pub count: usize,
    pub violation: Option<Violation>,
}

/// The next bytes are counted. With the last of the message the sink refuses it.
pub(crate) fn skip_on<C, S: RingSink<C>>(
    sink: &mut S,
    context: &C,
    skip: Skip,
    rest: &[u8],
) -> Skipped
    requires skip { IsSkip (S.rings sink.old) skip }
    requires missing { 0 < skip.missing }
    ensures { Skips S.FrameSink.arrived S.FrameSink.violated (S.rings sink.old) result.count result.violation sink.old skip rest.now sink.new result.skip }
{
    let Skip {
        version,
        channel,
        len,
        missing,
        body,
    } = skip;
    let count = missing.min(rest.len());
    let body = body.then(rest.split_at(count).0);
    let missing = missing - count;
    let violation = if missing > 0 {
        None
    } else {
        Some(sink.refuse_in(context, channel, len, &body))
    };
    let skip = Skip {
        version,
        channel,
        len,
        missing,
        body,
    };
    Skipped {
        skip,
        count,
        violation,
    }
}
