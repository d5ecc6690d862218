//! Laws of the format, each the contract of a function that does nothing.
ghost use Rattle.std.specs.Prelude.{◌≡◌, ℕ, ◌<◌, ◌≤◌, List, ◌++◌, length, All, Option};
ghost use Rattle.std.specs.List.{flat_map, AllByRecursion};
ghost use Rattle.lc_frame.specs.declared.version.Version.{Version};
ghost use Rattle.lc_frame.specs.declared.version.Version.TheVariants.{One, Two};
ghost use Rattle.lc_frame.specs.declared.frame.Frame.{Frame};
ghost use Rattle.lc_frame.specs.Version.{greeting};
ghost use Rattle.lc_frame.specs.Kind.{max_frame};
ghost use Rattle.lc_frame.specs.Frame.{IsValid};
ghost use Rattle.lc_frame.specs.Encoding.{encoding};
ghost use Rattle.lc_frame.specs.Decoded.{StandsAlone};
ghost use Rattle.lc_frame.specs.Stored.{Stored, stored_in, opened, fed, before, IsValidIn, encoding_in};
ghost use Rattle.lc_frame.specs.Splits.{Splits, Begins, frames_of, rest_of};

/// The bytes of no frame begin those of another of its version.
pub fn no_frame_begins_another()
    ensures { (v : Version) (f g : Frame) (more : List ℕ) → IsValid v f → IsValid v g → encoding v g ≡ encoding v f ++ more → f ≡ g }
{}

/// The longest frame has 65,538 bytes in version One and 1,048,581 in version Two, which is
/// `MAX_FRAME`.
pub fn longest_frame()
    ensures one { max_frame One ≡ 65538 }
    ensures two { max_frame Two ≡ 1048581 }
{}

/// At the front of as many bytes as the longest frame has stands exactly one frame or one fault.
pub fn one_stands()
    ensures { (v : Version) (bytes : List ℕ) → All (λ b. b < 256) bytes → max_frame v ≤ length bytes → StandsAlone v bytes }
{}

/// What is valid in version One is valid in version Two.
pub fn one_is_in_two()
    ensures { (v : Version) (f : Frame) → IsValid v f → IsValid Two f }
{}

/// A stream tells its version: that of the greeting which it begins with, or One by its first
/// frame. Behind that the bytes are those of frames.
pub fn a_stream_tells_its_version()
    ensures framed { (v : Version) (f : Frame) (more : List ℕ) → IsValid v f → opened (greeting v ++ encoding v f ++ more) ≡ stored_in v (encoding v f ++ more) }
    ensures greeted { (more : List ℕ) → opened (greeting Two ++ more) ≡ stored_in Two more }
{}

/// Bytes that come in two pieces come to the same as in one.
pub fn pieces_add_up()
    ensures { (h : Stored) (first later : List ℕ) → fed (fed h first) later ≡ fed h (first ++ later) }
{}

/// What is stored is the frames of one list and one rest.
pub fn one_split()
    ensures { (version : Option Version) (fs gs : List Frame) (bytes r s : List ℕ) → Splits version bytes fs r → Splits version bytes gs s → (fs ≡ gs) × (r ≡ s) }
{}

/// The frames of what is stored and its rest are those that are computed.
pub fn frames_are_split()
    ensures { (h : Stored) → All (λ b. b < 256) h.bytes → Splits h.version h.bytes (frames_of h) (rest_of h).bytes }
{}

/// Of the bytes of valid frames with more behind them, these frames are the first, and the rest is
/// that of what is behind them.
pub fn joined_frames_come_first()
    ensures frames { (fs : List Frame) (h : Stored) → AllByRecursion (IsValidIn h.version) fs → frames_of (before fs h) ≡ fs ++ frames_of h }
    ensures rest { (fs : List Frame) (h : Stored) → AllByRecursion (IsValidIn h.version) fs → rest_of (before fs h) ≡ rest_of h }
{}

/// The frames of what begins the bytes of valid frames are the first of these, and no fault stands
/// behind them.
pub fn a_front_has_the_first_frames()
    ensures { (version : Option Version) (fs gs : List Frame) (bytes more rest : List ℕ) → AllByRecursion (IsValidIn version) fs → flat_map (encoding_in version) fs ≡ bytes ++ more → Splits version bytes gs rest → Begins version fs gs rest }
{}
