//! Who can stop the sessions.
use lc_session::Session;
use std::alloc::{AllocError, Global};
use std::sync::Arc;
use std::sync::atomic::{AtomicBool, Ordering};

// What all threads share.
#[derive(Drop)]
struct Shared {
    a: Session,
    b: Session,
    stopped: AtomicBool,
}

/// A hold of both sessions: a thread that fails stops them, so that both writing pumps end, both
/// streams end by that, and no end waits any longer.
#[derive(Drop)]
pub(crate) struct Hold {
    shared: Arc<Shared, Global>,
}

impl Hold {
    pub(crate) fn new(alloc: Global, a: &Session, b: &Session) -> Result<Hold, AllocError> {
        let shared = Shared {
            a: a.try_clone()?,
            b: b.try_clone()?,
            stopped: AtomicBool::new(false),
        };
        Ok(Hold {
            shared: Arc::new(alloc, shared)?,
        })
    }

    pub(crate) fn try_clone(&self) -> Result<Hold, AllocError> {
        Ok(Hold {
            shared: Arc::try_clone(&self.shared)?,
        })
    }

    pub(crate) fn stop(&self) {
        self.shared.stopped.store(true, Ordering::SeqCst);
        self.shared.a.stop();
        self.shared.b.stop();
    }

    pub(crate) fn is_stopped(&self) -> bool {
        self.shared.stopped.load(Ordering::SeqCst)
    }
}
