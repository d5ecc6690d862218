//! A Send that is longer than its channel's ring, found by its header.
ghost use Rattle.std.specs.Prelude.{◌≡◌, ◌<◌, ℕ, List, [], drop, length, IsTrue, false, Some, IfSome, IfNone};
ghost use Rattle.lc_frame.specs.declared.kind.Kind.TheVariants.{Send};
ghost use Rattle.lc_frame.specs.Kind.{header_len};
ghost use Rattle.lc_frame.specs.Stored.{stored_in, IsSettled};
ghost use Rattle.lc_frame.specs.Progress.{Feeds};
ghost use Rattle.lc_peer.specs.Longer.{IsLonger, FitsRings, KeepsFew};
ghost use Rattle.lc_peer.specs.Rings.{StartsLonger, Leads, GoesFrom, IsReady, IsMissing};

use lc_frame::{Channel, GREETING, StreamDecoder, Version, begun_send};

/// A Send that is begun where a delivery goes on, and is longer than its channel's ring.
#[derive(Clone, Copy)]
pub(crate) struct Outgrown {
    pub version: Version,
    pub channel: Channel,
    pub len: usize,
    /// How many bytes of its tag and its length are still to be taken.
    pub behind: usize,
}

// How many bytes the tag and the length of a Send have.
#[inline(always)]
pub(crate) fn head_len(version: Version) -> usize
    ensures { result ≡ header_len version Send }
{
    version.max_frame() - version.max_body()
}

// Whether a message of this length is longer than its channel's ring.
#[inline]
fn is_longer(rings: &[u32], channel: Channel, len: usize) -> bool
    ensures yes { IsTrue result → IsLonger rings.now channel len }
    ensures no { result ≡ false → ¬ IsLonger rings.now channel len }
{
    match rings.get(channel.index()) {
        Some(ring) => len > *ring as usize,
        None => false,
    }
}

/// The Send that is begun at the front of a piece, where nothing is held, if it is longer than the ring
/// of its channel.
pub(crate) fn find_in_piece(version: Version, rings: &[u32], piece: &[u8]) -> Option<Outgrown>
    ensures some { IfSome result (λ o. StartsLonger rings.now (stored_in version []) piece.now o) }
    ensures none { IfNone result (FitsRings rings.now (stored_in version piece.now)) }
{
    let begun = begun_send(version, piece)?;
    if !is_longer(rings, begun.channel, begun.len) {
        return None;
    }
    Some(Outgrown {
        version,
        channel: begun.channel,
        len: begun.len,
        behind: head_len(version),
    })
}

// The Send whose tag and length are held, and nothing more, if it is longer than the ring of its channel.
fn find_headed(rings: &[u32], decoder: &StreamDecoder) -> Option<Outgrown>
    ensures some { IfSome result (λ o. (rest : List ℕ) → StartsLonger rings.now decoder.now rest o) }
    ensures none { IfNone result ((rest : List ℕ) → 0 < length rings.now → GoesFrom rings.now decoder.now rest → IsReady rings.now decoder.now rest) }
{
    let stored = decoder.stored();
    let version = decoder.version()?;
    if stored != head_len(version) {
        return None;
    }
    let begun = decoder.begun()?;
    if !is_longer(rings, begun.channel, begun.len) {
        return None;
    }
    Some(Outgrown {
        version,
        channel: begun.channel,
        len: begun.len,
        behind: 0,
    })
}

// How many bytes are missing of a greeting, or of what tells which Send is begun, of which a part is
// held; 0 where none is.
#[inline(always)]
fn missing(decoder: &StreamDecoder) -> usize
    ensures missing { IsMissing decoder.now.version (length decoder.now.bytes) result }
    ensures settled { IsSettled decoder.now }
{
    let stored = decoder.stored();
    match decoder.version() {
        None if stored == 0 => 3,
        None => GREETING.len().saturating_sub(stored).max(1),
        Some(_) if stored == 0 => 0,
        Some(version) => head_len(version).saturating_sub(stored),
    }
}

// The decoder takes the piece.
fn feed(decoder: &mut StreamDecoder, piece: &[u8]) -> usize
    ensures { Feeds decoder.old decoder.new piece.now result }
{
    decoder.feed(piece)
}

// Takes the bytes that are missing of a greeting or of a header, so that it is known which Send is
// begun before a byte of its message is taken.
fn lead_in(decoder: &mut StreamDecoder, piece: &[u8]) -> usize
    ensures leads { Leads decoder.old decoder.new piece.now result }
    ensures goes { (rings : List ℕ) → KeepsFew rings decoder.old → GoesFrom rings decoder.new (drop result piece.now) }
{
    let _stored = decoder.stored();
    let mut taken = 0;
    'heads: loop {
        let rest = piece.split_at(taken).1;
        let cut = missing(decoder).min(rest.len());
        if cut == 0 {
            return taken;
        }
        let count = feed(decoder, rest.split_at(cut).0);
        taken += count;
        if count < cut {
            return taken;
        }
    }
}

/// How many bytes led up to where a delivery goes on, or to a Send that is longer than its ring.
#[derive(Clone, Copy)]
pub(crate) struct Lead {
    pub taken: usize,
    pub outgrown: Option<Outgrown>,
}

// Where part of a greeting or of a header is held.
#[inline(never)]
fn lead_on(rings: &[u32], decoder: &mut StreamDecoder, piece: &[u8]) -> Lead
    ensures leads { Leads decoder.old decoder.new piece.now result.taken }
    ensures some { IfSome result.outgrown (λ o. StartsLonger rings.now decoder.new (drop result.taken piece.now) o) }
    ensures none { IfNone result.outgrown (0 < length rings.now → KeepsFew rings.now decoder.old → IsReady rings.now decoder.new (drop result.taken piece.now)) }
{
    let taken = lead_in(decoder, piece);
    Lead {
        taken,
        outgrown: find_headed(rings, decoder),
    }
}

/// Takes bytes up to where a delivery goes on. Where rings are named and part of a greeting or of a
/// header is held, it is known then which Send is begun, and no byte of a longer one is taken.
#[inline(always)]
pub(crate) fn lead_up(rings: &[u32], decoder: &mut StreamDecoder, piece: &[u8]) -> Lead
    ensures leads { Leads decoder.old decoder.new piece.now result.taken }
    ensures some { IfSome result.outgrown (λ o. StartsLonger rings.now decoder.new (drop result.taken piece.now) o) }
    ensures none { IfNone result.outgrown (KeepsFew rings.now decoder.old → IsReady rings.now decoder.new (drop result.taken piece.now)) }
{
    let stored = decoder.stored();
    if rings.is_empty() {
        return Lead {
            taken: 0,
            outgrown: None,
        };
    }
    match decoder.version() {
        Some(version) => {
            if stored == 0 || stored >= head_len(version) {
                return Lead {
                    taken: 0,
                    outgrown: None,
                };
            }
            lead_on(rings, decoder, piece)
        }
        None => lead_on(rings, decoder, piece),
    }
}
