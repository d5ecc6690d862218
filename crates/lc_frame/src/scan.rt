//! Reading the front of some bytes, from left to right.
ghost use Rattle.std.specs.Prelude.{◌≡◌, ◌/◌, ◌%◌, length, IfSome, IfNone};
ghost use Rattle.lc_frame.specs.Kind.{kind_at, width_of, width_len, IsInRange};
ghost use Rattle.lc_frame.specs.Channel.{channel_at};
ghost use Rattle.lc_frame.specs.declared.kind.Kind.TheVariants.{Send};
ghost use Rattle.lc_frame.specs.Encoding.{tag_of};
ghost use Rattle.lc_frame.specs.Scan.{number_in, scan_of, scan_tag, scan_number, scan_body, Finds};

use crate::channel::Channel;
use crate::frame_fault::FrameFault;
use crate::head::Head;
use crate::kind::Kind;
use crate::version::Version;

/// What the front of some bytes is known to be.
#[derive(Clone, Copy)]
pub(crate) enum Scan {
    /// A whole frame, by its head, and how many bytes it has.
    Whole { head: Head, used: usize },
    /// No frame, however the bytes go on.
    Fault(FrameFault),
    /// As yet neither: how many bytes there have to be before more is known.
    Needs(usize),
}

/// The number of a kind that the bytes are, 0 where it has none.
#[inline]
pub(crate) fn number_at(version: Version, kind: Kind, bytes: &[u8]) -> u64
    requires { length bytes.now ≡ width_len (width_of version kind) }
    ensures { result ≡ number_in (width_of version kind) bytes.now }
{
    match kind {
        Kind::Send => match version {
            Version::One => u64::from(u16::from_be_bytes([bytes[0], bytes[1]])),
            Version::Two => {
                u64::from(u32::from_be_bytes([bytes[0], bytes[1], bytes[2], bytes[3]]))
            }
        },
        Kind::Issue | Kind::Absolve | Kind::Plead => {
            u64::from(u32::from_be_bytes([bytes[0], bytes[1], bytes[2], bytes[3]]))
        }
        Kind::LimitSending | Kind::LimitReceiving => u64::from_be_bytes([
            bytes[0], bytes[1], bytes[2], bytes[3], bytes[4], bytes[5], bytes[6], bytes[7],
        ]),
        Kind::Finish => 0,
    }
}

// Behind a number in range.
#[inline]
#[tactic(auto, unfolding(crate::specs::Scan::scan_body))]
fn scan_body(version: Version, kind: Kind, channel: Channel, number: u64, rest: &[u8]) -> Scan
    requires { IsInRange version kind number }
    ensures { result ≡ scan_body version kind channel number rest.now }
{
    let len = kind.body_len(number);
    let used = kind.header_len(version) + len;
    if rest.len() < len {
        return Scan::Needs(used);
    }
    let head = Head {
        kind,
        channel,
        number,
    };
    Scan::Whole { head, used }
}

// Behind a tag.
#[inline]
#[tactic(auto, unfolding(crate::specs::Scan::scan_number))]
fn scan_number(version: Version, kind: Kind, channel: Channel, bytes: &[u8]) -> Scan
    ensures { result ≡ scan_number version kind channel bytes.now }
{
    let width = kind.width(version);
    if bytes.len() < width {
        return Scan::Needs(kind.header_len(version));
    }
    let (front, rest) = bytes.split_at(width);
    let number = number_at(version, kind, front);
    if !kind.allows(version, number) {
        return Scan::Fault(kind.fault_of(number));
    }
    scan_body(version, kind, channel, number, rest)
}

/// The channel of a Send with this tag.
#[inline]
pub(crate) fn send_channel(tag: u8) -> Option<Channel>
    ensures some { IfSome result (λ c. tag ≡ tag_of Send c) }
    ensures none { IfNone result ((c : Channel) → ¬ tag ≡ tag_of Send c) }
{
    Channel::from_number(tag.wrapping_sub(16 * Kind::Send.code()))
}

// Behind the tag of a Send. One arm for each version, as below for each width.
#[inline]
fn scan_send(version: Version, channel: Channel, rest: &[u8]) -> Scan
    ensures { result ≡ scan_number version Send channel rest.now }
{
    match version {
        Version::One => scan_number(Version::One, Kind::Send, channel, rest),
        Version::Two => scan_number(Version::Two, Kind::Send, channel, rest),
    }
}

// Behind the tag of no Send. One arm for each width, and one for the Issue alone, which is the most
// frequent: what is inlined there has it as a constant.
#[inline]
#[tactic(auto, unfolding(crate::specs::Scan::scan_tag))]
fn scan_other(version: Version, tag: u8, rest: &[u8]) -> Scan
    requires { (c : Channel) → ¬ tag ≡ tag_of Send c }
    ensures { result ≡ scan_tag version (kind_at (tag / 16)) (channel_at (tag % 16)) rest.now }
{
    match (Kind::from_code(tag / 16), Channel::from_number(tag % 16)) {
        (Some(Kind::Issue), Some(channel)) => scan_number(version, Kind::Issue, channel, rest),
        (Some(kind @ (Kind::Absolve | Kind::Plead)), Some(channel)) => {
            scan_number(version, kind, channel, rest)
        }
        (Some(kind @ (Kind::LimitSending | Kind::LimitReceiving)), Some(channel)) => {
            scan_number(version, kind, channel, rest)
        }
        (Some(kind @ Kind::Finish), Some(channel)) if kind.is_in(version) => {
            scan_number(version, kind, channel, rest)
        }
        _ => Scan::Fault(FrameFault::BadTag),
    }
}

// A Send is tried first: one comparison tells its kind and its channel. Always inlined, so that what
// is read of a frame stays in registers.
#[inline(always)]
#[tactic(auto, unfolding(crate::specs::Scan::scan_of, crate::specs::Scan::scan_tag))]
fn scan_bytes(version: Version, bytes: &[u8]) -> Scan
    ensures { result ≡ scan_of version bytes.now }
{
    match bytes {
        [] => Scan::Needs(1),
        [tag, rest @ ..] => match send_channel(*tag) {
            Some(channel) => scan_send(version, channel, rest),
            None => scan_other(version, *tag, rest),
        },
    }
}

/// What stands at the front of the bytes.
#[inline(always)]
pub(crate) fn scan_front(version: Version, bytes: &[u8]) -> Scan
    ensures { Finds version result bytes.now }
{
    scan_bytes(version, bytes)
}
