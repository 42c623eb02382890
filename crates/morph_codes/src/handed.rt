//! What a caller of C hands in, and its tests.
ghost use Rattle.std.specs.Prelude.{true, ◌≡◌, ◌+◌, ◌*◌, ◌<◌, ◌≤◌, length};
ghost use Rattle.std.specs.Bool.{OnTrue, OnFalse};
ghost use Rattle.morph_codes.specs.Handed.{HaveColumns, RoomsFit};

use mf_kernel::Bytes;

/// A chunk of the caller's: where its bytes are, and how many.
#[repr(C)]
#[derive(Drop)]
pub struct Piece<'a> {
    pub bytes: &'a [u8],
}

impl<'a> Bytes for Piece<'a> {
    ghost list = { λ piece. piece.bytes.now };

    fn bytes(&self) -> &[u8] {
        self.bytes
    }
}

/// Room of the caller's for a chunk.
#[repr(C)]
#[derive(Drop)]
pub struct Room<'a> {
    pub bytes: &'a mut [u8],
}

/// Whether each room has so many bytes.
pub(crate) fn fit(rooms: &[Room], size: usize) -> bool
    ensures yes { OnTrue result (RoomsFit size rooms.now) }
    ensures no { RoomsFit size rooms.now → result ≡ true }
{
    for room in rooms {
        if room.bytes.len() != size {
            return false;
        }
    }
    true
}

/// Whether each piece has so many columns from `start` on.
pub(crate) fn have(pieces: &[Piece], start: usize, count: usize) -> bool
    ensures yes { OnTrue result (HaveColumns start count pieces.now) }
    ensures no { HaveColumns start count pieces.now → result ≡ true }
{
    for piece in pieces {
        if !has(piece, start, count) {
            return false;
        }
    }
    true
}

// Whether a piece has so many columns from `start` on.
fn has(piece: &Piece, start: usize, count: usize) -> bool
    ensures yes { OnTrue result (start + count ≤ length piece.now.bytes.now) }
    ensures no { OnFalse result (length piece.now.bytes.now < start + count) }
{
    let length = piece.bytes.len();
    start <= length && count <= length - start
}

/// Whether so many coefficients are so many rows of so many each.
pub(crate) fn are_rows(coefficients: usize, rows: usize, each: usize) -> bool
    requires { each ≤ 64 }
    ensures yes { OnTrue result (coefficients ≡ rows * each) }
    ensures no { coefficients ≡ rows * each → result ≡ true }
{
    rows.checked_mul(each) == Some(coefficients)
}
