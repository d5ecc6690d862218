//! Runs of bytes that are moved in pieces.
//!
//! From 8 KiB on the C library moves bytes in another way than below. That is slower where they are
//! near, up to twice, and faster again for the longest messages: what lies between is moved in pieces.
ghost use Rattle.std.specs.Prelude.{◌≡◌, ◌+◌, ◌≤◌, ◌++◌, length, vec_capacity};

const PIECE: usize = 4_096;

const PIECES_FROM: usize = 8_192;

const PIECES_BELOW: usize = 262_144;

// Whether so many bytes are moved in pieces.
#[inline]
fn in_pieces(len: usize) -> bool {
    PIECES_FROM <= len && len < PIECES_BELOW
}

// Copies a piece. A function of its own, so that a loop over pieces is not made one long move again.
#[inline(never)]
fn copy_piece(place: &mut [u8], piece: &[u8])
    requires { length place.old ≡ length piece.now }
    ensures { place.new ≡ piece.now }
{
    place.copy_from_slice(piece);
}

fn copy_pieces(place: &mut [u8], bytes: &[u8])
    requires { length place.old ≡ length bytes.now }
    ensures { place.new ≡ bytes.now }
{
    let mut done = 0;
    'pieces: while done < bytes.len() {
        let (_, left) = bytes.split_at(done);
        let (piece, _) = left.split_at(PIECE.min(left.len()));
        let (_, rest) = place.split_at_mut(done);
        let (next, _) = rest.split_at_mut(piece.len());
        copy_piece(next, piece);
        done += piece.len();
    }
}

/// Copies bytes into a slice that is as long.
#[inline]
pub(crate) fn copy(place: &mut [u8], bytes: &[u8])
    requires { length place.old ≡ length bytes.now }
    ensures { place.new ≡ bytes.now }
{
    if in_pieces(bytes.len()) {
        copy_pieces(place, bytes);
    } else {
        place.copy_from_slice(bytes);
    }
}

fn append_pieces(block: &mut Vec<u8>, bytes: &[u8])
    requires { length block.old.items + length bytes.now ≤ vec_capacity block.old }
    ensures items { block.new.items ≡ block.old.items ++ bytes.now }
    ensures capacity { vec_capacity block.old ≤ vec_capacity block.new }
{
    let mut done = 0;
    'pieces: while done < bytes.len() {
        let (_, left) = bytes.split_at(done);
        let (piece, _) = left.split_at(PIECE.min(left.len()));
        let _ = block.extend_from_slice(piece);
        done += piece.len();
    }
}

/// Appends bytes where there is room for them, so that no memory is asked for.
#[inline]
pub(crate) fn append(block: &mut Vec<u8>, bytes: &[u8])
    requires { length block.old.items + length bytes.now ≤ vec_capacity block.old }
    ensures items { block.new.items ≡ block.old.items ++ bytes.now }
    ensures capacity { vec_capacity block.old ≤ vec_capacity block.new }
{
    if in_pieces(bytes.len()) {
        append_pieces(block, bytes);
    } else {
        let _ = block.extend_from_slice(bytes);
    }
}
