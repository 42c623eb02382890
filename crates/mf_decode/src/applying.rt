//! Decoding by a plan: the one data list that agrees with what was handed in.
ghost use Rattle.std.specs.Prelude.{◌≡◌, ℕ, ◌+◌, ◌^◌, ◌<◌, ◌≤◌, List, [], ◌∷◌, ◌++◌, length, map};
ghost use Rattle.std.specs.Prelude.{slice_index, bit_xor, All, IfOk, IfSome, OnOk, unwrap_or};
ghost use Rattle.std.specs.Option.{option_map};
ghost use Rattle.std.specs.List.{range_with_len};
ghost use Rattle.mf_code.specs.Field.{times};
ghost use Rattle.mf_code.specs.Sums.{sum_below};
ghost use Rattle.mf_code.specs.Rows.{column};
ghost use Rattle.mf_kernel.specs.Dots.{rows};
ghost use Rattle.mf_matrix.specs.Matrix.{entry};
ghost use Rattle.mf_decode.specs.Decoding.{Agrees, IsDecodedAt, gaps_from, filled, column_of};
ghost use Rattle.mf_decode.specs.Columns.{there, weight_of, row_entries, present};
ghost use Rattle.mf_decode.specs.Columns.{weights_from, decode_row};

use crate::planning::DecodePlan;
use mf_field::{add, mul, pow};
use mf_kernel::{Chunk, Memory, add_scaled, combine_all};
use mf_matrix::Matrix;
use std::alloc::Global;

/// The erased chunks of a stripe, in order, by its plan: with them the pieces are the one data list
/// that agrees with what was handed in. `pieces` has None exactly at the plan's erased places, and
/// may end before the plan's width where the stripe is short. `parities` are the plan's, in order.
/// Each chunk has `chunk` bytes. The only error is want of memory.
pub fn apply(
    alloc: Global,
    plan: &DecodePlan,
    chunk: u32,
    pieces: &[Option<Chunk>],
    parities: &[Chunk],
) -> Result<Vec<Vec<u8>>, Memory>
    requires count { length pieces.now ≤ plan.now.width }
    requires gaps { gaps_from 0 pieces.now ≡ plan.now.erased }
    requires parities { length parities.now ≡ length plan.now.parities }
    requires piece_sizes { All (λ piece. IfSome piece (λ bytes. length bytes ≡ chunk)) pieces.now }
    requires parity_sizes { All (λ bytes. length bytes ≡ chunk) parities.now }
    ensures count { IfOk result (λ chunks. length chunks.items ≡ length plan.now.erased) }
    ensures agrees { IfOk result
        (λ chunks. Agrees plan.now chunk pieces.now parities.now (filled [] pieces.now
        (rows chunks.items))) }
    ensures only { IfOk result (λ chunks. (list : List (List ℕ))
        → Agrees plan.now chunk pieces.now parities.now list
        → list ≡ filled [] pieces.now (rows chunks.items)) }
{
    let sources = sources_of(alloc, parities, pieces)?;
    let erased = plan.erased.len() as u32;
    let rows = decode_rows(alloc, &plan.inverse, erased, &plan.chosen, pieces)?;
    combine_all(alloc, &rows, &sources, chunk as usize)
}

/// Fills `out` with the bytes from `start` on of the e-th erased chunk. What is handed in is as for
/// `apply`; the chunks need to reach as far as `out` does.
pub fn apply_block(
    plan: &DecodePlan,
    e: u32,
    pieces: &[Option<Chunk>],
    parities: &[Chunk],
    start: usize,
    out: &mut [u8],
)
    requires count { length pieces.now ≤ plan.now.width }
    requires gaps { gaps_from 0 pieces.now ≡ plan.now.erased }
    requires parities { length parities.now ≡ length plan.now.parities }
    requires place { e < length plan.now.erased }
    requires piece_columns { All (λ piece. IfSome piece
        (λ bytes. start + length out.old ≤ length bytes)) pieces.now }
    requires parity_columns { All (λ bytes. start + length out.old ≤ length bytes) parities.now }
    ensures { (x : ℕ) → x < length out.old
        → IsDecodedAt plan.now pieces.now parities.now (start + x) (slice_index plan.now.erased e)
        (slice_index out.new x) }
{
    out.fill(0);
    add_parities(&plan.inverse, e, parities, start, out);
    add_pieces(&plan.inverse, e, &plan.chosen, pieces, start, out);
}

// Adds the parities, each times its entry of row e.
fn add_parities(inverse: &Matrix, e: u32, parities: &[Chunk], start: usize, out: &mut [u8])
    requires row { e < inverse.now.rows }
    requires entries { inverse.now.columns ≡ length parities.now }
    requires few { length parities.now ≤ 8 }
    requires columns { All (λ bytes. start + length out.old ≤ length bytes) parities.now }
    ensures sum { (x : ℕ) → x < length out.old
        → slice_index out.new x ≡ bit_xor (slice_index out.old x) (sum_below (length parities.now)
        (λ j. times (entry inverse.now e j) (slice_index (column (start + x) parities.now) j))) }
    ensures bytes { All (λ chunk. All (λ b. b < 256) chunk) parities.now }
{
    for (j, parity) in parities.iter().enumerate() {
        let bytes = parity.bytes();
        let end = start + out.len();
        add_scaled(out, inverse.at(e, j as u32), &bytes[start..end]);
    }
}

// Adds the pieces that are there, each times its weight.
fn add_pieces(
    inverse: &Matrix,
    e: u32,
    points: &[u8],
    pieces: &[Option<Chunk>],
    start: usize,
    out: &mut [u8],
)
    requires row { e < inverse.now.rows }
    requires entries { inverse.now.columns ≡ length points.now }
    requires few_points { length points.now ≤ 8 }
    requires few { length pieces.now < 2 ^ 32 }
    requires columns { All (λ piece. IfSome piece
        (λ bytes. start + length out.old ≤ length bytes)) pieces.now }
    ensures sum { (x : ℕ) → x < length out.old
        → slice_index out.new x ≡ bit_xor (slice_index out.old x) (sum_below (length pieces.now)
        (λ t. times (weight_of (row_entries inverse.now e) points.now t)
        (slice_index (there (column_of (start + x) pieces.now)) t))) }
    ensures bytes { All (λ piece. IfSome piece (λ chunk. All (λ b. b < 256) chunk)) pieces.now }
{
    for (t, piece) in pieces.iter().enumerate() {
        add_piece(weight(inverse, e, points, t as u32), piece, start, out);
    }
}

// Adds a piece, where it is there, times a factor.
fn add_piece(factor: u8, piece: &Option<Chunk>, start: usize, out: &mut [u8])
    requires { IfSome piece.now (λ bytes. start + length out.old ≤ length bytes) }
    ensures length { length out.new ≡ length out.old }
    ensures sum { (x : ℕ) → x < length out.old
        → slice_index out.new x ≡ bit_xor (slice_index out.old x)
        (times factor
        (unwrap_or (option_map (λ chunk. slice_index chunk (start + x)) piece.now) 0)) }
    ensures bytes { IfSome piece.now (λ chunk. All (λ b. b < 256) chunk) }
{
    if let Some(chunk) = piece {
        let bytes = chunk.bytes();
        let end = start + out.len();
        add_scaled(out, factor, &bytes[start..end]);
    }
}

// The weight of piece `t`: the sum, over the parities, of the entry of row e times the parity's
// point to the power of `t`.
pub(crate) fn weight(inverse: &Matrix, e: u32, points: &[u8], t: u32) -> u8
    requires row { e < inverse.now.rows }
    requires entries { inverse.now.columns ≡ length points.now }
    requires few { length points.now ≤ 8 }
    ensures { result ≡ weight_of (row_entries inverse.now e) points.now t }
{
    let mut sum = 0;
    for (j, point) in points.iter().enumerate() {
        sum = add(sum, mul(inverse.at(e, j as u32), pow(*point, t)));
    }
    sum
}

// What is there: the parities, and then the pieces.
fn sources_of(
    alloc: Global,
    parities: &[Chunk],
    pieces: &[Option<Chunk>],
) -> Result<Vec<Chunk>, Memory>
    ensures sources { IfOk result (λ all. all.items ≡ parities.now ++ present pieces.now) }
    ensures parity_bytes { IfOk result (λ _. All (λ chunk. All (λ b. b < 256) chunk) parities.now) }
    ensures piece_bytes { IfOk result (λ _. All (λ piece. IfSome piece
        (λ chunk. All (λ b. b < 256) chunk)) pieces.now) }
{
    let mut all = Vec::with_capacity(alloc, parities.len())?;
    for parity in parities {
        all.push(shared(parity)?)?;
    }
    for piece in pieces {
        push_present(&mut all, piece)?;
    }
    Ok(all)
}

/// A further owner of a chunk, whose bytes are below 256.
pub(crate) fn shared(chunk: &Chunk) -> Result<Chunk, Memory>
    ensures same { IfOk result (λ c. c ≡ chunk.now) }
    ensures bytes { All (λ b. b < 256) chunk.now }
{
    let _bytes = chunk.bytes();
    chunk.share()
}

// Adds a piece, where it is there.
fn push_present(all: &mut Vec<Chunk>, piece: &Option<Chunk>) -> Result<(), Memory>
    ensures items { OnOk result (all.new.items ≡ all.old.items ++ present (piece.now ∷ [])) }
    ensures bytes { OnOk result (IfSome piece.now (λ chunk. All (λ b. b < 256) chunk)) }
{
    match piece {
        Some(chunk) => {
            all.push(shared(chunk)?)?;
            Ok(())
        }
        None => Ok(()),
    }
}

// The row of coefficients of each erased chunk.
fn decode_rows(
    alloc: Global,
    inverse: &Matrix,
    count: u32,
    points: &[u8],
    pieces: &[Option<Chunk>],
) -> Result<Vec<Vec<u8>>, Memory>
    requires count { inverse.now.rows ≡ count }
    requires entries { inverse.now.columns ≡ length points.now }
    requires few_points { length points.now ≤ 8 }
    requires few { length pieces.now < 2 ^ 32 }
    ensures { IfOk result (λ lists. rows lists.items
        ≡ map (decode_row inverse.now points.now pieces.now) (range_with_len 0 count)) }
{
    let mut lists = Vec::with_capacity(alloc, count as usize)?;
    for e in 0..count {
        let mut row = entries_of(alloc, inverse, e, points.len())?;
        push_weights(&mut row, inverse, e, points, pieces)?;
        lists.push(row)?;
    }
    Ok(lists)
}

// The entries of row e.
pub(crate) fn entries_of(
    alloc: Global,
    inverse: &Matrix,
    e: u32,
    count: usize,
) -> Result<Vec<u8>, Memory>
    requires row { e < inverse.now.rows }
    requires entries { inverse.now.columns ≡ count }
    requires few { count ≤ 8 }
    ensures { IfOk result (λ row. row.items ≡ row_entries inverse.now e) }
{
    let mut row = Vec::with_capacity(alloc, count)?;
    for j in 0..count {
        row.push(inverse.at(e, j as u32))?;
    }
    Ok(row)
}

// Adds the weights of the pieces that are there.
fn push_weights(
    row: &mut Vec<u8>,
    inverse: &Matrix,
    e: u32,
    points: &[u8],
    pieces: &[Option<Chunk>],
) -> Result<(), Memory>
    requires row { e < inverse.now.rows }
    requires entries { inverse.now.columns ≡ length points.now }
    requires few_points { length points.now ≤ 8 }
    requires few { length pieces.now < 2 ^ 32 }
    ensures { OnOk result (row.new.items ≡ row.old.items
        ++ weights_from (row_entries inverse.now e) points.now 0 pieces.now) }
{
    for (t, piece) in pieces.iter().enumerate() {
        if piece.is_some() {
            row.push(weight(inverse, e, points, t as u32))?;
        }
    }
    Ok(())
}
