//! Sums of the columns of a block, from whatever has bytes. Nothing here takes memory.
ghost use Rattle.std.specs.Prelude.{◌≡◌, ℕ, ◌+◌, ◌*◌, ◌^◌, ◌<◌, ◌≤◌, List, All, length, map, slice_range};
ghost use Rattle.mf_code.specs.Rows.{list_of, column, added_scaled};
ghost use Rattle.mf_kernel.specs.Dots.{dot, dot_powers};

use crate::chunk::Chunk;
use crate::kernels::add_scaled;
use mf_field::pow;

/// What has bytes: a chunk, or a slice that is lent.
pub trait Bytes {
    /// Its bytes.
    ghost list: { Self → List ℕ };

    /// The bytes.
    fn bytes(&self) -> &[u8]
        ensures { result.now ≡ list self.now };
}

impl Bytes for Chunk {
    ghost list = { λ chunk. chunk };

    fn bytes(&self) -> &[u8] {
        Chunk::bytes(self)
    }
}

/// Fills `out` with the bytes from `start` on of the sum of pieces by the powers of a point with
/// the exponents 0, `step`, 2 * `step` and so on. Each piece has the columns that are filled.
pub fn fill_powers<P: Bytes>(point: u8, step: u32, pieces: &[P], start: usize, out: &mut [u8])
    requires exponents { length pieces.now * step < 2 ^ 32 }
    requires count { length pieces.now < 2 ^ 32 }
    requires columns { All (λ piece. start + length out.old ≤ length piece)
        (map P.list pieces.now) }
    ensures { out.new ≡ list_of (length out.old)
        (λ x. dot_powers step point (column (start + x) (map P.list pieces.now))) }
{
    out.fill(0);
    for (t, piece) in pieces.iter().enumerate() {
        add_columns(out, pow(point, t as u32 * step), piece.bytes(), start);
    }
}

/// Fills `out` with the bytes from `start` on of the sum of pieces by a row of coefficients. Each
/// piece has the columns that are filled.
pub fn fill_row<P: Bytes>(row: &[u8], pieces: &[P], start: usize, out: &mut [u8])
    requires coefficients { length row.now ≡ length pieces.now }
    requires columns { All (λ piece. start + length out.old ≤ length piece)
        (map P.list pieces.now) }
    ensures { out.new ≡ list_of (length out.old)
        (λ x. dot row.now (column (start + x) (map P.list pieces.now))) }
{
    out.fill(0);
    for (t, piece) in pieces.iter().enumerate() {
        add_columns(out, row[t], piece.bytes(), start);
    }
}

// Adds a factor times the columns from `start` on of these bytes.
fn add_columns(out: &mut [u8], factor: u8, bytes: &[u8], start: usize)
    requires { start + length out.old ≤ length bytes.now }
    ensures { out.new ≡ added_scaled out.old factor
        (slice_range bytes.now start (start + length out.old)) }
{
    let end = start + out.len();
    add_scaled(out, factor, &bytes[start..end]);
}
