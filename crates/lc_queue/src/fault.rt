//! Why no queue was made.
ghost use Rattle.std.specs.Prelude.{◌≡◌};
ghost use Rattle.lc_queue.specs.declared.fault.LanesFault.TheVariants.{OutOfMemory};

use std::alloc::AllocError;
use thiserror::Error;

/// Why no queue was made.
#[derive(Clone, Copy, Debug, PartialEq, Eq, Error)]
pub enum LanesFault {
    #[error("a queue has 1 to 65536 slots")]
    BadSlots,
    #[error("out of memory")]
    OutOfMemory,
}

impl From<AllocError> for LanesFault {
    ghost from_gives = { λ _ fault. fault ≡ OutOfMemory };

    fn from(_error: AllocError) -> LanesFault {
        LanesFault::OutOfMemory
    }
}
