//! A control frame that is due, or the honour of a plead.
ghost use Rattle.std.specs.Prelude.{◌≡◌};
ghost use Rattle.lc_owed.specs.Due.{channel_of_due};

use lc_frame::Channel;
use lc_lines::Control;

/// A control frame that is due, or the honour of a plead.
#[derive(Clone, Copy)]
pub enum Due {
    /// The frame of this control call.
    Put(Control),
    /// The plead that this channel keeps is honoured.
    Honour(Channel),
}

impl Due {
    /// Its channel.
    pub fn channel(self) -> Channel
        ensures { result ≡ channel_of_due self }
    {
        match self {
            Due::Put(Control::Issue { channel, .. }) => channel,
            Due::Put(Control::Absolve { channel, .. }) => channel,
            Due::Put(Control::Plead { channel, .. }) => channel,
            Due::Put(Control::LimitReceiving { channel, .. }) => channel,
            Due::Honour(channel) => channel,
        }
    }
}
