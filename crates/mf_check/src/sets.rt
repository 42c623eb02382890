//! One set of places, and the matrix of its erasure.
ghost use Rattle.std.specs.Prelude.{◌≡◌, ◌≢◌, ℕ, ◌+◌, ◌-◌, ◌*◌, ◌^◌, ◌<◌, ◌≤◌, ◌++◌};
ghost use Rattle.std.specs.Prelude.{length, map, drop, slice_index, OnOk, IfOk};
ghost use Rattle.std.specs.Bool.{OnTrue, OnFalse};
ghost use Rattle.mf_code.specs.Decodable.{IsPlaceSet};
ghost use Rattle.mf_shape.specs.declared.TheConstants.{MAX_WIDTH, MAX_PARITIES};
ghost use Rattle.mf_erasure.specs.Erasure.{others_from};
ghost use Rattle.mf_check.specs.Search.{SetAnswer, IsDataFront};

use mf_erasure::erasure_matrix;
use mf_matrix::{KernelList, kernel};
use std::alloc::{AllocError, Global};

/// How many places are data places. They stand first.
fn data_count(places: &[u32], width: u32) -> usize
    ensures { IsDataFront width places.now result }
{
    let mut count = 0;
    for place in places {
        if *place >= width {
            return count;
        }
        count += 1;
    }
    count
}

/// Whether this place stands at this number of the list.
fn stands_at(places: &[u32], number: usize, place: u32) -> bool
    ensures yes { OnTrue result
        ((number < length places.now) × (slice_index places.now number ≡ place)) }
    ensures no { OnFalse result
        (number < length places.now → slice_index places.now number ≢ place) }
{
    number < places.len() && places[number] == place
}

/// Makes `kept` the numbers of the parities that are kept: those below `count` that aren't among
/// the places from `first` on, which are in ascending order.
fn list_kept(
    kept: &mut Vec<u32>,
    places: &[u32],
    first: usize,
    width: u32,
    count: u32,
) -> Result<(), AllocError>
    requires first_in { first ≤ length places.now }
    requires small { width + count < 2 ^ 32 }
    requires parities { (i : ℕ) → first ≤ i → i < length places.now
        → width ≤ slice_index places.now i }
    ensures { OnOk result (kept.new.items
        ≡ others_from 0 count (map (λ place. place - width) (drop first places.now))) }
{
    kept.clear();
    let mut next = first;
    for p in 0..count {
        if stands_at(places, next, width + p) {
            next += 1;
        } else {
            kept.push(p)?;
        }
    }
    Ok(())
}

/// The kernel list of the matrix of a set of places, or None where the set is decodable. `kept` is
/// room for the numbers of the parities that are kept.
pub fn kernel_at(
    alloc: Global,
    points: &[u8],
    width: u32,
    places: &[u32],
    kept: &mut Vec<u32>,
) -> Result<Option<KernelList>, AllocError>
    requires few { length points.now ≤ MAX_PARITIES }
    requires narrow { width ≤ MAX_WIDTH }
    requires set { IsPlaceSet (width + length points.now) (length points.now) places.now }
    ensures { IfOk result (SetAnswer points.now width places.now) }
{
    let split = data_count(places, width);
    list_kept(kept, places, split, width, points.len() as u32)?;
    kernel(alloc, &erasure_matrix(points, &places[..split], kept))
}
