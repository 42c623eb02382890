//! Merging: the parity of a wide stripe, from the parities of the narrow stripes that it holds. No
//! chunk of data takes part.
//!
//! `width` is that of the narrow stripes, 1 to 64. One to 64 parities of one length and one point
//! are handed in, in the order of their stripes, for as many stripes as the file has. Want of
//! memory is the one error.
//!
//! ```text
//! // the parities of point 2 of the stripes "ab" and "cd" are 0xa5 and 0xab
//! let wide = merge(alloc, 2, 2, &narrow)?;
//! // 0xa5 + 2^2 * 0xab = 0x33, the parity of "abcd"
//! ```
//!
//! *Proved.* `merge` of parities of narrow stripes is the parity of the wide stripe, for as many
//! narrow stripes as the file has; `merge_block` the same for a block of columns.
//!
//! *Neither.* Speed.
#![tactic(auto)]

ghost use Rattle.std.specs.Prelude.{◌≡◌, ◌+◌, ◌*◌, ◌<◌, ◌≤◌, ℕ, List, All, IfOk, length};
ghost use Rattle.mf_code.specs.Chunks.{parity};
ghost use Rattle.mf_code.specs.Rows.{list_of};
ghost use Rattle.mf_code.specs.Stripes.{narrow_parities};
ghost use Rattle.mf_merge.specs.Merged.{first_length, merged_byte};

pub use mf_kernel::{Chunk, Memory};
use mf_kernel::{BLOCK, fill_powers};
use std::alloc::Global;

/// The parity of a wide stripe with this point, from the parities with the same point of the
/// stripes of `width` places that it holds: at most 64, of one length, in the order of their
/// stripes, as far as the file has these. No data is read. The only error is want of memory.
pub fn merge(alloc: Global, point: u8, width: u32, parities: &[Chunk]) -> Result<Vec<u8>, Memory>
    requires some { 1 ≤ length parities.now }
    requires at_most { length parities.now ≤ 64 }
    requires wide { 1 ≤ width }
    requires narrow { width ≤ 64 }
    requires lengths { All (λ parity. length parity ≡ first_length parities.now) parities.now }
    ensures sum { IfOk result (λ merged. merged.items
        ≡ list_of (first_length parities.now) (merged_byte point width parities.now)) }

    // Of a file's parities it is the parity of the wide stripe.
    ensures of_file { (size : ℕ) (file : List ℕ) (factor j : ℕ) → All (λ b. b < 256) file
        → parities.now ≡ narrow_parities size file point width factor j
        → IfOk result (λ merged. merged.items ≡ parity size file point (factor * width) j) }
{
    let size = parities[0].bytes().len();
    let mut merged = Vec::with_capacity(alloc, size)?;
    let mut block = [0; BLOCK];
    let mut start = 0;
    while start < size {
        let count = BLOCK.min(size - start);
        merge_block(point, width, parities, start, &mut block[..count]);
        merged.extend_from_slice(&block[..count])?;
        start += count;
    }
    Ok(merged)
}

/// Fills `out` with the bytes from `start` on of the merged parity. Each of the parities has the
/// columns that are filled.
pub fn merge_block(point: u8, width: u32, parities: &[Chunk], start: usize, out: &mut [u8])
    requires some { 1 ≤ length parities.now }
    requires at_most { length parities.now ≤ 64 }
    requires wide { 1 ≤ width }
    requires narrow { width ≤ 64 }
    requires columns { All (λ parity. start + length out.old ≤ length parity) parities.now }
    ensures { out.new ≡ list_of (length out.old)
        (λ x. merged_byte point width parities.now (start + x)) }
{
    fill_powers(point, width, parities, start, out);
}
