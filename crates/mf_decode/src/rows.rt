//! Rows of coefficients by which a plan that is kept decodes: each erased chunk is the sum of what
//! is there, by a row.
ghost use Rattle.std.specs.Prelude.{◌≡◌, ℕ, ◌<◌, ◌≤◌, List, Option, ◌++◌, length, slice_index, IfOk, OnOk};
ghost use Rattle.std.specs.Bool.{OnTrue, OnFalse};
ghost use Rattle.mf_decode.specs.Decoding.{gaps_from};
ghost use Rattle.mf_decode.specs.Columns.{row_entries, weights_from};
ghost use Rattle.mf_decode.specs.Rows.{IsDecodingRow};

use crate::applying::{entries_of, weight};
use crate::planning::DecodePlan;
use mf_kernel::Memory;
use mf_matrix::Matrix;
use std::alloc::Global;

/// The row of the e-th erased chunk of a stripe of `count` pieces: the coefficients of the plan's
/// parities, and then of the pieces that are there, each in order. The only error is want of
/// memory.
pub fn decode_row(alloc: Global, plan: &DecodePlan, e: u32, count: u32) -> Result<Vec<u8>, Memory>
    requires place { e < length plan.now.erased }
    requires count { count ≤ plan.now.width }
    ensures { IfOk result (λ row. IsDecodingRow plan.now e count row.items) }
{
    let mut row = entries_of(alloc, &plan.inverse, e, plan.chosen.len())?;
    push_left(
        &mut row,
        &plan.inverse,
        e,
        &plan.chosen,
        &plan.erased,
        count,
    )?;
    Ok(row)
}

// Adds the weights of the pieces that aren't erased.
fn push_left(
    row: &mut Vec<u8>,
    inverse: &Matrix,
    e: u32,
    points: &[u8],
    erased: &[u32],
    count: u32,
) -> Result<(), Memory>
    requires row { e < inverse.now.rows }
    requires entries { inverse.now.columns ≡ length points.now }
    requires few { length points.now ≤ 8 }
    ensures { OnOk result ((pieces : List (Option (List ℕ))) → length pieces ≡ count
        → gaps_from 0 pieces ≡ erased.now → row.new.items ≡ row.old.items
        ++ weights_from (row_entries inverse.now e) points.now 0 pieces) }
{
    let mut next = 0;
    for t in 0..count {
        if is_at(erased, next, t) {
            next += 1;
        } else {
            row.push(weight(inverse, e, points, t))?;
        }
    }
    Ok(())
}

// Whether place `t` stands at this index.
fn is_at(places: &[u32], index: usize, t: u32) -> bool
    ensures yes { OnTrue result ((index < length places.now)
        × (slice_index places.now index ≡ t)) }
    ensures no { OnFalse result (index < length places.now
        → slice_index places.now index ≡ t → ⊥) }
{
    index < places.len() && places[index] == t
}
