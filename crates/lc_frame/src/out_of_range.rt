//! A number that is out of the range of its kind.
ghost use Rattle.std.specs.Prelude.{◌≡◌};
ghost use Rattle.lc_frame.specs.Numbers.{number_behind, number_in_front};

use crate::channel::Channel;
use crate::kind::Kind;
use crate::scan::number_at;
use crate::version::Version;

/// What a tag names, and the number behind it, which no frame of that kind may carry.
#[derive(Clone, Copy, Debug, PartialEq, Eq)]
pub struct OutOfRange {
    pub kind: Kind,
    pub channel: Channel,
    pub number: u64,
}

// Behind a tag.
#[tactic(auto, unfolding(crate::specs::Numbers::number_behind))]
fn number_behind(version: Version, kind: Kind, channel: Channel, rest: &[u8]) -> Option<OutOfRange>
    ensures { result ≡ number_behind version kind channel rest.now }
{
    let width = kind.width(version);
    if rest.len() < width {
        return None;
    }
    let number = number_at(version, kind, rest.split_at(width).0);
    Some(OutOfRange {
        kind,
        channel,
        number,
    })
}

/// The tag and the number in front of some bytes of frames of a version, whatever the number is. So it is the
/// one that is out of range where F2 or F3 stands there. `None` where no tag does, or not all of its number.
pub fn number_in_front(version: Version, bytes: &[u8]) -> Option<OutOfRange>
    ensures { result ≡ number_in_front version bytes.now }
{
    let [tag, rest @ ..] = bytes else {
        return None;
    };
    let kind = Kind::from_code(tag / 16)?;
    let channel = Channel::from_number(tag % 16)?;
    number_behind(version, kind, channel, rest)
}
