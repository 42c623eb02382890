//! Rows of coefficients that decode what a stripe has lost.
ghost use Rattle.std.specs.Prelude.{◌≡◌, ◌⊎◌, ◌<◌, ◌≤◌, length, IfOk, IfErr};
ghost use Rattle.mf_erasure.specs.Erasure.{entry, IsErasure};
ghost use Rattle.mf_decode.specs.Plans.{IsNoPlan};
ghost use Rattle.mf_decode.specs.Rows.{IsDecodingRow};
ghost use Rattle.morph_codes.specs.Decoded.{AreDecodingRows};
ghost use Rattle.morph_codes.specs.Handed.{plan_of};

use crate::{COUNT, DONE, POINTS, WIDTH};
use mf_decode::{NoPlan, decode_row, plan};
use mf_erasure::is_erasure;
use mf_shape::{MAX_PARITIES, MAX_WIDTH};
use std::alloc::Global;

/// Whether a stripe of `count` pieces may have lost these, with these parities in their stead.
pub(crate) fn loss_status(points: &[u8], count: u32, lost: &[u32], had: &[u32]) -> u32
    ensures count { result ≡ 0 → (1 ≤ count) × (count ≤ 64) }
    ensures points { result ≡ 0 → (1 ≤ length points.now) × (length points.now ≤ 4) }
    ensures erasure { result ≡ 0 → IsErasure count (length points.now) lost.now had.now }
    ensures width { result ≡ 1 → (count < 1) ⊎ (64 < count) }
    ensures no_erasure { result ≡ 2 → IsErasure count (length points.now) lost.now had.now → ⊥ }
    ensures other_points { result ≡ 4 → (length points.now < 1) ⊎ (4 < length points.now) }
    ensures known { (result ≤ 2) ⊎ (result ≡ 4) }
{
    if count == 0 || count > MAX_WIDTH {
        return WIDTH;
    }
    if points.is_empty() || points.len() > MAX_PARITIES as usize {
        return POINTS;
    }
    if !is_erasure(count, points.len() as u32, lost, had) {
        return COUNT;
    }
    DONE
}

/// The row of the e-th lost piece, or why there is none.
pub(crate) fn row_of(
    alloc: Global,
    points: &[u8],
    count: u32,
    lost: &[u32],
    had: &[u32],
    e: u32,
) -> Result<Vec<u8>, NoPlan>
    requires count { (1 ≤ count) × (count ≤ 64) }
    requires points { length points.now ≤ 4 }
    requires erasure { IsErasure count (length points.now) lost.now had.now }
    requires place { e < length lost.now }
    ensures row { IfOk result (λ row.
        IsDecodingRow (plan_of points.now count lost.now had.now) e count row.items) }
    ensures none { IfErr result (IsNoPlan (length lost.now) (entry points.now lost.now had.now)) }
{
    let plan = plan(alloc, points, count, lost, had)?;
    let row = decode_row(alloc, &plan, e, count)?;
    Ok(row)
}

/// The rows of all lost pieces, one behind the other, or why there are none.
pub(crate) fn rows_of(
    alloc: Global,
    points: &[u8],
    count: u32,
    lost: &[u32],
    had: &[u32],
) -> Result<Vec<u8>, NoPlan>
    requires count { (1 ≤ count) × (count ≤ 64) }
    requires points { length points.now ≤ 4 }
    requires erasure { IsErasure count (length points.now) lost.now had.now }
    ensures rows { IfOk result (λ rows.
        AreDecodingRows (plan_of points.now count lost.now had.now) count rows.items) }
    ensures none { IfErr result (IsNoPlan (length lost.now) (entry points.now lost.now had.now)) }
{
    let plan = plan(alloc, points, count, lost, had)?;
    let mut rows = Vec::new(alloc);
    for e in 0..lost.len() as u32 {
        let row = decode_row(alloc, &plan, e, count)?;
        rows.extend_from_slice(&row)?;
    }
    Ok(rows)
}
