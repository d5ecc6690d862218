//! Why an own event is refused, and what is wrong with a frame that arrives.
ghost use Rattle.std.specs.Prelude.{◌≡◌, Some};
ghost use Rattle.std.specs.Option.{option_map};
ghost use Rattle.lc_book.specs.Fault.{refusal_number, refusal_sentence, detail_of, violation_number, violation_sentence};

use std::error::Error;
use std::fmt;
use std::fmt::Display;

/// A number that a refusal carries, by its name.
#[derive(Clone, Copy, Debug)]
pub struct Detail {
    pub name: &'static str,
    pub value: u64,
}

/// Why an own event was refused; it then changed nothing. `left`, `held`, `room` and `outstanding`
/// carry the number that was compared with, in bytes. Numbers and order are this project's own.
#[derive(Clone, Copy, Debug, PartialEq, Eq)]
pub enum Refusal {
    // codes: begin refusals
    /// 1. A message has at least 1 byte.
    EmptyBody,
    /// 2. A message has at most `Version::max_body` bytes.
    BodyTooLong,
    /// 3. The message is longer than what the client's own limit leaves.
    PastSendLimit { left: u64 },
    /// 4. The message is longer than the guarantees that are held.
    NoGuarantee { held: u64 },
    /// 5. At least 1 guarantee is issued or absolved.
    ZeroAmount,
    /// 6. More would be absolved than is held.
    NotHeld { held: u64 },
    /// 7. A limit is at most 2^62.
    BoundTooLarge,
    /// 8. A limit is at most what the one before it leaves.
    LimitRaised { left: u64 },
    /// 9. More would be issued than what the server's own limit leaves.
    PastReceiveLimit { left: u64 },
    /// 10. More would be issued than is neither buffered nor promised.
    NoRoom { room: u64 },
    /// 11. A plead names less than what is outstanding.
    NothingToAsk { outstanding: u64 },
    /// 12. At most 2^62 guarantees are issued on a channel.
    TotalReached,
    /// 13. No slot for an outgoing frame is free.
    QueueFull,
    /// 14. A growth of memory was refused.
    OutOfMemory,
    /// 15. The client finished the channel.
    ChannelFinished,
    /// 16. The caller's buffer is shorter than the message; `need` is the message's length.
    BufferTooSmall { need: usize },
    /// 17. A stream of version One can't say that a channel is finished.
    WrongVersion,
    // codes: end
}

impl Refusal {
    /// The number by which documents and programs name the refusal.
    pub fn number(self) -> u8
        ensures { result ≡ refusal_number self }
    {
        match self {
            // codes: begin numbers of refusals
            Refusal::EmptyBody => 1,
            Refusal::BodyTooLong => 2,
            Refusal::PastSendLimit { .. } => 3,
            Refusal::NoGuarantee { .. } => 4,
            Refusal::ZeroAmount => 5,
            Refusal::NotHeld { .. } => 6,
            Refusal::BoundTooLarge => 7,
            Refusal::LimitRaised { .. } => 8,
            Refusal::PastReceiveLimit { .. } => 9,
            Refusal::NoRoom { .. } => 10,
            Refusal::NothingToAsk { .. } => 11,
            Refusal::TotalReached => 12,
            Refusal::QueueFull => 13,
            Refusal::OutOfMemory => 14,
            Refusal::ChannelFinished => 15,
            Refusal::BufferTooSmall { .. } => 16,
            Refusal::WrongVersion => 17,
            // codes: end
        }
    }

    /// What the refusal with this number says.
    pub fn sentence_of(number: u32) -> Option<&'static str>
        ensures { option_map (λ sentence. sentence.now) result ≡ refusal_sentence number }
    {
        let sentence = match number {
            // codes: begin sentences of refusals
            1 => "the message is empty",
            2 => "the message is too long",
            3 => "the message is longer than the limit on sending leaves",
            4 => "the message is longer than the guarantees that are held",
            5 => "the amount is zero",
            6 => "more would be absolved than is held",
            7 => "the bound is above 2^62",
            8 => "the bound is above what an earlier limit leaves",
            9 => "more would be issued than the limit on receiving leaves",
            10 => "more would be issued than the receiving ring has room for",
            11 => "the target is not below the guarantees outstanding",
            12 => "the guarantees of one channel would pass 2^62",
            13 => "the outgoing queue is full",
            14 => "out of memory",
            15 => "the channel is finished",
            16 => "the buffer is too small",
            17 => "version 1 of the format cannot finish a channel",
            // codes: end
            _ => return None,
        };
        Some(sentence)
    }

    /// What the refusal says, without the number that it carries.
    pub fn sentence(self) -> &'static str
        ensures { refusal_sentence (refusal_number self) ≡ Some result.now }
    {
        match Refusal::sentence_of(u32::from(self.number())) {
            Some(sentence) => sentence,
            None => unreachable!(),
        }
    }

    /// The number that the refusal carries.
    pub fn detail(self) -> Option<Detail>
        ensures { option_map (λ detail. (detail.name.now, detail.value)) result ≡ detail_of self }
    {
        let (name, value) = match self {
            // codes: begin details of refusals
            Refusal::PastSendLimit { left }
            | Refusal::LimitRaised { left }
            | Refusal::PastReceiveLimit { left } => ("left", left),
            Refusal::NoGuarantee { held } | Refusal::NotHeld { held } => ("held", held),
            Refusal::NoRoom { room } => ("room", room),
            Refusal::NothingToAsk { outstanding } => ("outstanding", outstanding),
            Refusal::BufferTooSmall { need } => ("need", need as u64),
            Refusal::EmptyBody
            | Refusal::BodyTooLong
            | Refusal::ZeroAmount
            | Refusal::BoundTooLarge
            | Refusal::TotalReached
            | Refusal::QueueFull
            | Refusal::OutOfMemory
            | Refusal::ChannelFinished
            | Refusal::WrongVersion => return None,
            // codes: end
        };
        Some(Detail { name, value })
    }
}

impl Display for Refusal {
    fn fmt<W: fmt::Write>(&self, f: &mut fmt::Formatter<W>) -> fmt::Result {
        let sentence = self.sentence();
        match self.detail() {
            Some(Detail { name, value }) => write!(f, "{sentence} ({name} {value})"),
            None => write!(f, "{sentence}"),
        }
    }
}

impl Error for Refusal {}

/// What is wrong with a frame that arrives from a peer that breaks the rules; the book at which it
/// arrives stays as it was. Numbers and order are this project's own.
#[derive(Clone, Copy, Debug, PartialEq, Eq)]
pub enum Violation {
    // codes: begin violations
    /// V1. The message is longer than what is outstanding.
    NotGuaranteed,
    /// V2. The message is longer than what the client's limit leaves.
    SentPastLimit,
    /// V3. More is absolved than is outstanding.
    AbsolvedTooMuch,
    /// V4. The client's limit is above what the one before it leaves.
    SendLimitRaised,
    /// V5. More is issued than what the server's limit leaves.
    IssuedPastLimit,
    /// V6. More than 2^24 guarantees would be held.
    TooManyGuarantees,
    /// V7. The server's limit is above what the one before it leaves.
    ReceiveLimitRaised,
    /// V8. More than 2^62 guarantees would be received.
    TotalPassed,
    /// V9. A frame of the client comes behind its Finish.
    AfterFinish,
    // codes: end
}

impl Violation {
    /// The number by which documents and programs name the violation, without its V.
    pub fn number(self) -> u8
        ensures { result ≡ violation_number self }
    {
        match self {
            // codes: begin numbers of violations
            Violation::NotGuaranteed => 1,
            Violation::SentPastLimit => 2,
            Violation::AbsolvedTooMuch => 3,
            Violation::SendLimitRaised => 4,
            Violation::IssuedPastLimit => 5,
            Violation::TooManyGuarantees => 6,
            Violation::ReceiveLimitRaised => 7,
            Violation::TotalPassed => 8,
            Violation::AfterFinish => 9,
            // codes: end
        }
    }

    /// What the violation with this number says.
    pub fn sentence_of(number: u32) -> Option<&'static str>
        ensures { option_map (λ sentence. sentence.now) result ≡ violation_sentence number }
    {
        let sentence = match number {
            // codes: begin sentences of violations
            1 => "a message longer than the guarantees outstanding",
            2 => "a message beyond the limit on sending",
            3 => "more guarantees absolved than are outstanding",
            4 => "a limit on sending that raises an earlier one",
            5 => "guarantees beyond the limit on receiving",
            6 => "more than 2^24 guarantees held",
            7 => "a limit on receiving that raises an earlier one",
            8 => "more than 2^62 guarantees on one channel",
            9 => "a frame of the client behind its Finish",
            // codes: end
            _ => return None,
        };
        Some(sentence)
    }

    /// What the violation says.
    pub fn sentence(self) -> &'static str
        ensures { violation_sentence (violation_number self) ≡ Some result.now }
    {
        match Violation::sentence_of(u32::from(self.number())) {
            Some(sentence) => sentence,
            None => unreachable!(),
        }
    }
}

impl Display for Violation {
    fn fmt<W: fmt::Write>(&self, f: &mut fmt::Formatter<W>) -> fmt::Result {
        f.write_str(self.sentence())
    }
}

impl Error for Violation {}
