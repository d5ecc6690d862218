//! The reading side of the credits of all channels.
ghost use Rattle.std.specs.Prelude.{◌≡◌, ◌≤◌, OnOk, IfErr, IsSomeAnd, slice_get};
ghost use Rattle.lc_frame.specs.Channel.{number_of};
ghost use Rattle.lc_frame.specs.Kind.{max_amount, max_total};
ghost use Rattle.lc_book.specs.declared.fault.Violation.{Violation as AnyViolation};
ghost use Rattle.lc_credit.specs.Sides.{IsIncoming, IsAdded, IsNotAdded, IsLimited, IsPastLimit, IsAsked};
ghost use Rattle.lc_history.specs.Places.{ChangesAt};
ghost use Rattle.lc_credit.specs.Channels.{SameCredits};

use crate::channel_in::ChannelIn;
use lc_book::Violation;
use lc_frame::{CHANNELS, Channel};
use std::marker::Model;

/// The credits of all channels, as the thread that reads frames has them: it adds what arrives.
/// All numbers count bytes of messages.
#[derive(Debug, Drop)]
pub struct CreditIn {
    pub(crate) channels: [ChannelIn; CHANNELS],
}

impl Model for CreditIn {
    ghost use Rattle.std.specs.Prelude.{List};
    ghost use Rattle.lc_credit.specs.Sides.{Incoming};

    ghost Value = { List Incoming };

    ghost view = { λ c. c.channels };
}

impl CreditIn {
    /// `n` guarantees arrive on a channel. Violations V5, V6 and V8, in this order: V5 and V8 by
    /// what arrived, V6 by the credit word, which knows of every use that was made.
    pub fn add(&mut self, channel: Channel, n: u32) -> Result<(), Violation>
        requires { n ≤ max_amount }
        ensures ok { OnOk result (ChangesAt (number_of channel) (IsAdded n) self.old self.new) }
        ensures err { IfErr result (λ v. ChangesAt (number_of channel) (IsNotAdded v n) self.old self.new) }
        ensures kept { IsSomeAnd (slice_get self.new (number_of channel)) (λ i. IsIncoming i) }
        ensures same { SameCredits self.old self.new }
    {
        let side = &mut self.channels[channel.index()];
        side.add(n)
    }

    /// The server's limit arrives on a channel: it issues at most `bound` from there on. Violation
    /// V7.
    pub fn receiving_limited(&mut self, channel: Channel, bound: u64) -> Result<(), Violation>
        requires { bound ≤ max_total }
        ensures ok { OnOk result (ChangesAt (number_of channel) (IsLimited bound) self.old self.new) }
        ensures err { IfErr result (λ v. (v ≡ AnyViolation.ReceiveLimitRaised) × ChangesAt (number_of channel) (IsPastLimit bound) self.old self.new) }
        ensures same { SameCredits self.old self.new }
    {
        let side = &mut self.channels[channel.index()];
        side.receiving_limited(bound)
    }

    /// A plead arrives on a channel, to hold at most `target`. It is for the sending end, in place
    /// of one that the end has not taken.
    pub fn ask(&mut self, channel: Channel, target: u32)
        requires { target ≤ max_amount }
        ensures asked { ChangesAt (number_of channel) (IsAsked target) self.old self.new }
        ensures same { SameCredits self.old self.new }
    {
        let side = &mut self.channels[channel.index()];
        side.ask(target);
    }
}
