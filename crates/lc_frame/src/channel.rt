//! The seven logical channels.
ghost use Rattle.std.specs.Prelude.{◌≡◌, ◌≤◌, ◌<◌, Some, IfSome, IfNone};
ghost use Rattle.lc_frame.specs.Channel.{channel_count, number_of, channel_at};

/// How many channels there are.
pub const CHANNELS: usize = 7;

/// A logical channel. Each runs in both directions, independently. Its number is its place in this
/// list, from 0.
#[derive(Clone, Copy, Debug, PartialEq, Eq)]
pub enum Channel {
    Reconciliation,
    Data,
    Overlap,
    Capability,
    AreaOfInterest,
    PayloadRequest,
    StaticToken,
}

impl Channel {
    /// All channels, in the order of their numbers.
    pub const ALL: [Channel; CHANNELS] = [
        Channel::Reconciliation,
        Channel::Data,
        Channel::Overlap,
        Channel::Capability,
        Channel::AreaOfInterest,
        Channel::PayloadRequest,
        Channel::StaticToken,
    ];

    /// The channel's number, 0 to 6.
    pub fn number(self) -> u8
        ensures value { result ≡ number_of self }
        ensures range { result < channel_count }
        ensures inverse { channel_at result ≡ Some self }
    {
        self as u8
    }

    /// The channel's place in what is kept for each channel: its number.
    pub fn index(self) -> usize
        ensures value { result ≡ number_of self }
        ensures range { result < channel_count }
    {
        usize::from(self.number())
    }

    /// The channel of a number, `None` above 6.
    pub fn from_number(number: u8) -> Option<Channel>
        ensures value { result ≡ channel_at number }
        ensures inverse { IfSome result (λ c. number_of c ≡ number) }
        ensures none { IfNone result (channel_count ≤ number) }
    {
        match number {
            0 => Some(Channel::Reconciliation),
            1 => Some(Channel::Data),
            2 => Some(Channel::Overlap),
            3 => Some(Channel::Capability),
            4 => Some(Channel::AreaOfInterest),
            5 => Some(Channel::PayloadRequest),
            6 => Some(Channel::StaticToken),
            _ => None,
        }
    }
}
