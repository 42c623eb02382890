//! A file's bytes, cut into chunks and joined again.
ghost use Rattle.std.specs.Prelude.{◌≡◌, ◌+◌, ◌-◌, ◌*◌, ◌≤◌, ℕ, List, ◌++◌, IfOk, OnOk, All};
ghost use Rattle.std.specs.Prelude.{length, take, min, replicate, slice_range};
ghost use Rattle.std.specs.List.{concat};
ghost use Rattle.mf_code.specs.Chunks.{chunk_count, chunks};
ghost use Rattle.mf_code.specs.Stripes.{stripe};

use mf_kernel::{Chunk, Memory};
use std::alloc::Global;

/// The chunks of a file of these bytes: `chunk` bytes each, the last one filled with zero bytes. A
/// file of no bytes has none. The only error is want of memory.
pub fn cut(alloc: Global, bytes: &[u8], chunk: u32) -> Result<Vec<Chunk>, Memory>
    requires { 1 ≤ chunk }
    ensures value { IfOk result (λ cut. cut.items ≡ chunks chunk bytes.now) }
    ensures count { IfOk result (λ cut.
        length cut.items ≡ chunk_count chunk (length bytes.now)) }
    ensures lengths { IfOk result (λ cut. All (λ piece. length piece ≡ chunk) cut.items) }
{
    let size = chunk as usize;
    let count = bytes.len().div_ceil(size);
    let mut cut = Vec::with_capacity(alloc, count)?;
    for i in 0..count {
        let start = i * size;
        let end = bytes.len().min(start + size);
        cut.push(filled(alloc, &bytes[start..end], size)?)?;
    }
    Ok(cut)
}

// The chunk of these bytes, and zero bytes behind them.
fn filled(alloc: Global, bytes: &[u8], size: usize) -> Result<Chunk, Memory>
    requires { length bytes.now ≤ size }
    ensures { IfOk result (λ chunk. chunk
        ≡ bytes.now ++ replicate (size - length bytes.now) 0) }
{
    let mut all = Vec::with_capacity(alloc, size)?;
    all.extend_from_slice(bytes)?;
    all.resize(size, 0)?;
    Chunk::new(alloc, all)
}

/// The chunks of stripe j of this width, out of all chunks of a file.
pub fn stripe_pieces(all: &[Chunk], width: u32, j: u32) -> &[Chunk]
    requires { j * width ≤ length all.now }
    ensures value { result.now
        ≡ slice_range all.now (j * width) (min ((j + 1) * width) (length all.now)) }
    ensures few { length result.now ≤ width }
    ensures lengths { (size : ℕ) → All (λ piece. length piece ≡ size) all.now
        → All (λ piece. length piece ≡ size) result.now }
    ensures of_file { (size : ℕ) (file : List ℕ) → all.now ≡ chunks size file
        → result.now ≡ stripe size file width j }
{
    let start = j as usize * width as usize;
    let end = all.len().min(start + width as usize);
    &all[start..end]
}

/// Appends the bytes of these pieces, as far as there is room below `most` bytes.
///
/// The only error is want of memory; what is there then is a front of what would be there. A file
/// is joined from its stripes, one after the other, with its length as `most`.
pub fn join(out: &mut Vec<u8>, pieces: &[Chunk], most: usize) -> Result<(), Memory>
    requires { length out.old.items ≤ most }
    ensures joined { OnOk result
        (out.new.items ≡ take most (out.old.items ++ concat pieces.now)) }
    ensures front { (k : ℕ)
        × (out.new.items ≡ take k (take most (out.old.items ++ concat pieces.now))) }

    // A file's bytes up to a stripe, and the stripe, make its bytes up to the next stripe.
    ensures of_file { (size : ℕ) (file : List ℕ) (width : ℕ) (j : ℕ) → 1 ≤ size
        → length file ≡ most → out.old.items ≡ take (j * width * size) file
        → pieces.now ≡ stripe size file width j
        → OnOk result (out.new.items ≡ take ((j + 1) * width * size) file) }
{
    for piece in pieces {
        let bytes = piece.bytes();
        let room = most - out.len();
        out.extend_from_slice(&bytes[..room.min(bytes.len())])?;
    }
    Ok(())
}
