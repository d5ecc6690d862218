//! The bytes of frames.
ghost use Rattle.std.specs.Prelude.{◌≡◌, ◌≤◌, ◌<◌, ◌+◌, ◌^◌, ◌∷◌, ◌++◌, length, drop, OnOk, OnErr, IfOk, IfErr, IsOk, vec_len, vec_capacity};
ghost use Rattle.std.specs.Int.{w16, w32, w64, to_be_bytes};
ghost use Rattle.lc_frame.specs.declared.kind.Kind.TheVariants.{Send};
ghost use Rattle.lc_frame.specs.Kind.{max_body, length_width, header_len, max_frame};
ghost use Rattle.lc_frame.specs.Frame.{IsValid};
ghost use Rattle.lc_frame.specs.FrameRef.{frame_of};
ghost use Rattle.lc_frame.specs.Encoding.{tag_of, encoding};

use crate::buffer_too_small::BufferTooSmall;
use crate::channel::Channel;
use crate::frame::{Frame, MAX_BODY};
use crate::frame_ref::FrameRef;
use crate::kind::Kind;
use crate::version::Version;
use std::alloc::AllocError;

// A tag and a number of each width.
pub(crate) const SHORT: usize = 1 + size_of::<u16>();

const WORD: usize = 1 + size_of::<u32>();

const LONG: usize = 1 + size_of::<u64>();

/// The longest frame of either version, in bytes: a Send of `MAX_BODY` bytes in version Two.
pub const MAX_FRAME: usize = WORD + MAX_BODY;

const _: () = prove!(MAX_FRAME == 1_048_581);

#[inline]
fn tag(kind: Kind, channel: Channel) -> u8
    ensures { result ≡ tag_of kind channel }
{
    16 * kind.code() + channel.number()
}

#[inline]
fn short(tag: u8, number: u16) -> [u8; SHORT]
    ensures { result ≡ tag ∷ to_be_bytes w16 number }
{
    let n = number.to_be_bytes();
    [tag, n[0], n[1]]
}

#[inline]
fn word(tag: u8, number: u32) -> [u8; WORD]
    ensures { result ≡ tag ∷ to_be_bytes w32 number }
{
    let n = number.to_be_bytes();
    [tag, n[0], n[1], n[2], n[3]]
}

#[inline]
fn long(tag: u8, number: u64) -> [u8; LONG]
    ensures { result ≡ tag ∷ to_be_bytes w64 number }
{
    let n = number.to_be_bytes();
    [tag, n[0], n[1], n[2], n[3], n[4], n[5], n[6], n[7]]
}

// Writes the bytes at the front of a slice that has room for them.
#[inline]
fn put(out: &mut [u8], bytes: &[u8])
    requires { length bytes.now ≤ length out.old }
    ensures { out.new ≡ bytes.now ++ drop (length bytes.now) out.old }
{
    let (front, _) = out.split_at_mut(bytes.len());
    front.copy_from_slice(bytes);
}

// Appends the header of a message of this length.
#[inline]
fn append_header(version: Version, tag: u8, len: usize, out: &mut Vec<u8>) -> Result<(), AllocError>
    requires { len ≤ max_body version }
    ensures ok { OnOk result (out.new.items ≡ out.old.items ++ (tag ∷ to_be_bytes (length_width version) len)) }
    ensures err { OnErr result (out.new.items ≡ out.old.items) }
    ensures room { vec_len out.old + header_len version Send ≤ vec_capacity out.old → IsOk result }
    ensures capacity { vec_capacity out.old ≤ vec_capacity out.new }
{
    match version {
        Version::One => out.extend_from_slice(&short(tag, len as u16)),
        Version::Two => out.extend_from_slice(&word(tag, len as u32)),
    }
}

// Appends the bytes of a message. A function of its own, so that what appends the short frames is
// small enough to stand where it is called.
#[inline(never)]
fn append_message(
    version: Version,
    tag: u8,
    body: &[u8],
    out: &mut Vec<u8>,
) -> Result<(), AllocError>
    requires { length body.now ≤ max_body version }
    ensures ok { OnOk result (out.new.items ≡ out.old.items ++ (tag ∷ to_be_bytes (length_width version) (length body.now)) ++ body.now) }
    ensures err { OnErr result (out.new.items ≡ out.old.items) }
    ensures room { vec_len out.old + (header_len version Send + length body.now) ≤ vec_capacity out.old → IsOk result }
    ensures capacity { vec_capacity out.old ≤ vec_capacity out.new }
{
    out.reserve(Kind::Send.header_len(version) + body.len())?;
    append_header(version, tag, body.len(), out)?;
    out.extend_from_slice(body)
}

// Writes the header of a message of this length at the front of a slice that is as long.
#[inline]
fn put_header(version: Version, tag: u8, len: usize, out: &mut [u8])
    requires small { len ≤ max_body version }
    requires room { length out.old ≡ header_len version Send }
    ensures { out.new ≡ tag ∷ to_be_bytes (length_width version) len }
{
    match version {
        Version::One => out.copy_from_slice(&short(tag, len as u16)),
        Version::Two => out.copy_from_slice(&word(tag, len as u32)),
    }
}

// Writes the bytes of a message at the front of a slice that has room for them.
#[inline]
fn put_message(version: Version, tag: u8, body: &[u8], out: &mut [u8])
    requires small { length body.now ≤ max_body version }
    requires room { header_len version Send + length body.now ≤ length out.old }
    ensures { out.new ≡ (tag ∷ to_be_bytes (length_width version) (length body.now)) ++ body.now ++ drop (header_len version Send + length body.now) out.old }
{
    let (header, rest) = out.split_at_mut(Kind::Send.header_len(version));
    put_header(version, tag, body.len(), header);
    put(rest, body);
}

impl FrameRef<'_> {
    /// How many bytes the frame has in a version.
    #[inline]
    pub fn encoded_len(&self, version: Version) -> usize
        ensures value { result ≡ length (encoding version (frame_of self.now)) }
        ensures longest { IsValid version (frame_of self.now) → result ≤ max_frame version }
    {
        self.kind().header_len(version) + self.body().len()
    }

    /// Appends the bytes of a frame that is valid in the version. On an error, which is want of memory, the vector holds
    /// what it held.
    #[inline(always)]
    pub fn encode_into(&self, version: Version, out: &mut Vec<u8>) -> Result<(), AllocError>
        requires { IsValid version (frame_of self.now) }
        ensures ok { OnOk result (out.new.items ≡ out.old.items ++ encoding version (frame_of self.now)) }
        ensures err { OnErr result (out.new.items ≡ out.old.items) }

        // It succeeds wherever the capacity has room, and the capacity never shrinks.
        ensures room { vec_len out.old + length (encoding version (frame_of self.now)) ≤ vec_capacity out.old → IsOk result }
        ensures capacity { vec_capacity out.old ≤ vec_capacity out.new }
    {
        let channel = self.channel();
        let tag = tag(self.kind(), channel);
        match *self {
            FrameRef::Send { body, .. } => append_message(version, tag, body, out),
            FrameRef::Issue { amount, .. } | FrameRef::Absolve { amount, .. } => {
                out.extend_from_slice(&word(tag, amount))
            }
            FrameRef::Plead { target, .. } => out.extend_from_slice(&word(tag, target)),
            FrameRef::LimitSending { bound, .. } | FrameRef::LimitReceiving { bound, .. } => {
                out.extend_from_slice(&long(tag, bound))
            }
            FrameRef::Finish { .. } => out.extend_from_slice(&[tag]),
        }
    }

    /// Writes the bytes of a frame that is valid in the version at the front of a slice, and answers how many they are. On
    /// an error, which is a slice that is too short for them, the slice is unchanged.
    #[inline(always)]
    pub fn encode_to_slice(&self, version: Version, out: &mut [u8]) -> Result<usize, BufferTooSmall>
        requires { IsValid version (frame_of self.now) }
        ensures count { IfOk result (λ n. n ≡ length (encoding version (frame_of self.now))) }
        ensures within { IfOk result (λ n. n ≤ length out.old) }
        ensures written { IfOk result (λ n. out.new ≡ encoding version (frame_of self.now) ++ drop n out.old) }
        ensures need { IfErr result (λ e. e.need ≡ length (encoding version (frame_of self.now))) }
        ensures short { IfErr result (λ e. length out.old < e.need) }
        ensures same { OnErr result (out.new ≡ out.old) }
    {
        let need = self.encoded_len(version);
        if out.len() < need {
            return Err(BufferTooSmall { need });
        }
        let tag = tag(self.kind(), self.channel());
        match *self {
            FrameRef::Send { body, .. } => put_message(version, tag, body, out),
            FrameRef::Issue { amount, .. } | FrameRef::Absolve { amount, .. } => {
                put(out, &word(tag, amount));
            }
            FrameRef::Plead { target, .. } => put(out, &word(tag, target)),
            FrameRef::LimitSending { bound, .. } | FrameRef::LimitReceiving { bound, .. } => {
                put(out, &long(tag, bound));
            }
            FrameRef::Finish { .. } => put(out, &[tag]),
        }
        Ok(need)
    }
}

impl Frame {
    /// How many bytes the frame has in a version.
    #[inline]
    pub fn encoded_len(&self, version: Version) -> usize
        ensures value { result ≡ length (encoding version self.now) }
        ensures longest { IsValid version self.now → result ≤ max_frame version }
    {
        self.view().encoded_len(version)
    }

    /// Appends the bytes of a frame that is valid in the version. On an error, which is want of memory, the vector holds
    /// what it held.
    #[inline]
    pub fn encode_into(&self, version: Version, out: &mut Vec<u8>) -> Result<(), AllocError>
        requires { IsValid version self.now }
        ensures ok { OnOk result (out.new.items ≡ out.old.items ++ encoding version self.now) }
        ensures err { OnErr result (out.new.items ≡ out.old.items) }

        // It succeeds wherever the capacity has room, and the capacity never shrinks.
        ensures room { vec_len out.old + length (encoding version self.now) ≤ vec_capacity out.old → IsOk result }
        ensures capacity { vec_capacity out.old ≤ vec_capacity out.new }
    {
        self.view().encode_into(version, out)
    }

    /// Writes the bytes of a frame that is valid in the version at the front of a slice, and answers how many they are. On
    /// an error, which is a slice that is too short for them, the slice is unchanged.
    #[inline(always)]
    pub fn encode_to_slice(&self, version: Version, out: &mut [u8]) -> Result<usize, BufferTooSmall>
        requires { IsValid version self.now }
        ensures count { IfOk result (λ n. n ≡ length (encoding version self.now)) }
        ensures within { IfOk result (λ n. n ≤ length out.old) }
        ensures written { IfOk result (λ n. out.new ≡ encoding version self.now ++ drop n out.old) }
        ensures need { IfErr result (λ e. e.need ≡ length (encoding version self.now)) }
        ensures short { IfErr result (λ e. length out.old < e.need) }
        ensures same { OnErr result (out.new ≡ out.old) }
    {
        self.view().encode_to_slice(version, out)
    }
}
