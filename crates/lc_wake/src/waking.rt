//! How the parts that wait come to be.
use crate::pump_waiter::PumpWaiter;
use crate::waiter::Waiter;
use crate::wakers::{Waker, Wakers};
use crossbeam_utils::sync::Parker;
use lc_frame::{CHANNELS, Channel, Lane};
use std::alloc::{AllocError, Global};
use std::sync::Arc;

/// What the parts of a session wait by. No later call takes memory.
#[derive(Drop)]
pub struct Waking {
    /// For the sending ends, by channel.
    pub sending: [Waiter; CHANNELS],
    /// For the receiving ends, by channel.
    pub receiving: [Waiter; CHANNELS],
    /// For the writing pump.
    pub pump: PumpWaiter,
    /// For who wakes.
    pub wakers: Arc<Wakers, Global>,
}

// Where one end sleeps.
#[derive(Drop)]
struct Sleeper {
    channel: Channel,
    parker: Parker,
}

fn sleepers(alloc: Global) -> Result<[Sleeper; CHANNELS], AllocError> {
    Channel::ALL.try_map(|channel| {
        let parker = Parker::new(alloc)?;
        Ok(Sleeper { channel, parker })
    })
}

fn wakers_of(sleepers: &[Sleeper; CHANNELS]) -> Result<[Waker; CHANNELS], AllocError> {
    sleepers
        .each_ref()
        .try_map(|sleeper| Waker::new(&sleeper.parker))
}

fn sending(
    wakers: &Arc<Wakers, Global>,
    sleepers: [Sleeper; CHANNELS],
) -> Result<[Waiter; CHANNELS], AllocError> {
    sleepers.try_map(|sleeper| {
        let Sleeper { channel, parker } = sleeper;
        let wakers = Arc::try_clone(wakers)?;
        Ok(Waiter::new(wakers, parker, Lane::Client(channel)))
    })
}

fn receiving(
    wakers: &Arc<Wakers, Global>,
    sleepers: [Sleeper; CHANNELS],
) -> Result<[Waiter; CHANNELS], AllocError> {
    sleepers.try_map(|sleeper| {
        let Sleeper { channel, parker } = sleeper;
        let wakers = Arc::try_clone(wakers)?;
        Ok(Waiter::new(wakers, parker, Lane::Server(channel)))
    })
}

impl Waking {
    /// What the parts of a new session wait by.
    pub fn new(alloc: Global) -> Result<Waking, AllocError> {
        let senders = sleepers(alloc)?;
        let receivers = sleepers(alloc)?;
        let pump = Parker::new(alloc)?;
        let wakers = Wakers::new(
            wakers_of(&senders)?,
            wakers_of(&receivers)?,
            pump.unparker().clone()?,
        );
        let Ok(wakers) = Arc::new(alloc, wakers) else {
            return Err(AllocError);
        };
        Ok(Waking {
            sending: sending(&wakers, senders)?,
            receiving: receiving(&wakers, receivers)?,
            pump: PumpWaiter::new(Arc::try_clone(&wakers)?, pump),
            wakers,
        })
    }
}
