//! The bridge between lost places and matrices: the matrix of an erasure, which a decoder inverts,
//! and which places a stripe can lose, said by codewords that agree outside of them and by this
//! matrix.
//!
//! A *place* t below the width is piece t, and place width + p is parity p. An *erasure* is a list
//! of lost data places and a list of as many kept parities, both ascending. At most 4 points and 4
//! lost places; none of its calls fails.
//!
//! ```text
//! is_erasure(4, 2, &[0, 3], &[0, 1]) == true    // width 4, two parities
//! is_erasure(4, 2, &[0, 3], &[0]) == false      // a parity for each lost place
//! ```
//!
//! *Proved.* `erasure_matrix` has the entries of the erasure's matrix; `is_erasure` is true exactly
//! for an erasure; laws: a set of places is decodable just where the matrix of its erasure sends
//! only zero to zero; sets and erasures belong together.
#![tactic(auto)]

ghost use Rattle.std.specs.Prelude.{◌≡◌, ℕ, ◌<◌, ◌≤◌, length, slice_index};
ghost use Rattle.mf_matrix.specs.Matrix.{IsGrid, entry as entry_of};
ghost use Rattle.std.specs.Bool.{OnTrue, OnFalse};
ghost use Rattle.mf_erasure.specs.Erasure.{entry, IsErasure, IsPlaces};
ghost use Rattle.mf_erasure.specs.Erasure.{DecodableByMatrix, SetsAreErasures};

use mf_field::pow;
use mf_matrix::{MAX_SIDE, Matrix};

/// The matrix of an erasure: a row for each kept parity, a column for each lost data place, and as
/// entry the parity's point to the power of the place. `kept` has the parities' numbers, each with
/// a point. No more than eight are lost or kept.
pub fn erasure_matrix(points: &[u8], lost: &[u32], kept: &[u32]) -> Matrix
    requires few_rows { length kept.now ≤ MAX_SIDE }
    requires few_columns { length lost.now ≤ MAX_SIDE }
    requires known { (i : ℕ) → i < length kept.now → slice_index kept.now i < length points.now }
    ensures size { (result.rows ≡ length kept.now) × (result.columns ≡ length lost.now) }
    ensures entries { (i j : ℕ) → i < length kept.now → j < length lost.now
        → entry_of result i j ≡ entry points.now lost.now kept.now i j }
    ensures kept { IsGrid result }
{
    let mut matrix = Matrix::zero(kept.len() as u32, lost.len() as u32);
    for i in 0..kept.len() {
        for j in 0..lost.len() {
            matrix.put(i as u32, j as u32, pow(points[kept[i] as usize], lost[j]));
        }
    }
    matrix
}

/// Whether these lists are an erasure of a stripe of `width` data places with `count` parities: as
/// many lost places as kept parities, both in ascending order, the places below the width and the
/// parities below the count.
pub fn is_erasure(width: u32, count: u32, lost: &[u32], kept: &[u32]) -> bool
    ensures yes { OnTrue result (IsErasure width count lost.now kept.now) }
    ensures no { OnFalse result (IsErasure width count lost.now kept.now → ⊥) }
{
    lost.len() == kept.len() && are_places(width, lost) && are_places(count, kept)
}

/// Whether these are places below `count`, in ascending order.
fn are_places(count: u32, places: &[u32]) -> bool
    ensures yes { OnTrue result (IsPlaces count places.now) }
    ensures no { OnFalse result (IsPlaces count places.now → ⊥) }
{
    for k in 0..places.len() {
        if places[k] >= count || (k > 0 && places[k] <= places[k - 1]) {
            return false;
        }
    }
    true
}

/// A set of places is decodable just where the matrix of its erasure sends only the zero list to
/// zero.
pub fn decodable_by_matrix()
    ensures { DecodableByMatrix }
{}

/// A set of as many places as there are parities belongs to an erasure, and each erasure to such a
/// set.
pub fn sets_are_erasures()
    ensures { SetsAreErasures }
{}
