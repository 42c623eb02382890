//! Encoding: the parities of a stripe, from its chunks; and a file cut into chunks and joined
//! again.
//!
//! A width is 1 to 64, a chunk 1 to 65,536 bytes, and at most four points have a parity each. A
//! short last stripe has fewer pieces than its width, and what is missing counts as zero bytes.
//! Want of memory is the one error.
//!
//! ```text
//! let chunks = cut(alloc, b"abcd", 1)?;
//! let parities = encode(alloc, &[1, 2], 4, 1, &chunks)?;
//! // the bytes 0x04 and 0x33
//! ```
//!
//! *Proved.* `encode` gives the parities of a stripe, short last stripes included; `encode_block`
//! the same for a block of columns; `cut` gives a file's chunks, `stripe_pieces` the chunks of a
//! stripe, and `join` gives the file back, stripe by stripe.
//!
//! *Neither.* Speed.
#![tactic(auto)]

ghost use Rattle.std.specs.Prelude.{◌≡◌, ◌+◌, ◌^◌, ◌<◌, ◌≤◌, ℕ, List, All, IfOk, length, map};
ghost use Rattle.std.specs.Prelude.{slice_index};
ghost use Rattle.mf_code.specs.Chunks.{parity};
ghost use Rattle.mf_code.specs.Rows.{list_of, column, weighted_lists};
ghost use Rattle.mf_code.specs.Sums.{weighted};
ghost use Rattle.mf_code.specs.Stripes.{stripe};
ghost use Rattle.mf_kernel.specs.Dots.{rows, powers_of};

mod cutting;

pub use cutting::{cut, join, stripe_pieces};
pub use mf_kernel::{Chunk, Memory};
use mf_kernel::{combine_all, fill_powers, powers};
use std::alloc::Global;

/// The parities of a stripe of at most `width` pieces, one for each point. Pieces and parities have
/// `chunk` bytes each. A stripe with less than `width` pieces is the last of its file, and its
/// parities are those of the pieces that it has. The only error is want of memory.
pub fn encode(
    alloc: Global,
    points: &[u8],
    width: u32,
    chunk: u32,
    pieces: &[Chunk],
) -> Result<Vec<Vec<u8>>, Memory>
    requires count { length pieces.now ≤ width }
    requires lengths { All (λ piece. length piece ≡ chunk) pieces.now }
    ensures sums { IfOk result (λ parities. rows parities.items
        ≡ map (λ point. weighted_lists chunk point pieces.now) points.now) }

    // The parities of stripe j of a file are made from its chunks.
    ensures of_file { (file : List ℕ) (j : ℕ) → pieces.now ≡ stripe chunk file width j
        → IfOk result (λ parities. rows parities.items
        ≡ map (λ point. parity chunk file point width j) points.now) }
{
    let rows = power_rows(alloc, points, pieces.len())?;
    combine_all(alloc, &rows, pieces, chunk as usize)
}

/// Fills `out` with the bytes from `start` on of parity `p`, which is the one with the point
/// `points[p]`. There are at most `width` pieces, and each has the columns that are filled.
pub fn encode_block(
    points: &[u8],
    width: u32,
    p: u32,
    pieces: &[Chunk],
    start: usize,
    out: &mut [u8],
)
    requires count { length pieces.now ≤ width }
    requires point { p < length points.now }
    requires columns { All (λ piece. start + length out.old ≤ length piece) pieces.now }
    ensures { out.new ≡ list_of (length out.old)
        (λ x. weighted (slice_index points.now p) (column (start + x) pieces.now)) }
{
    fill_powers(points[p as usize], 1, pieces, start, out);
}

// The powers of each point with the exponents 0, 1 and so on, `count` of them.
fn power_rows(alloc: Global, points: &[u8], count: usize) -> Result<Vec<Vec<u8>>, Memory>
    requires { count < 2 ^ 32 }
    ensures { IfOk result (λ lists. rows lists.items ≡ map (powers_of count 1) points.now) }
{
    let mut lists = Vec::with_capacity(alloc, points.len())?;
    for point in points {
        lists.push(powers(alloc, *point, 1, count)?)?;
    }
    Ok(lists)
}
