//! The first set of places that isn't decodable, in the order of the sets.
ghost use Rattle.std.specs.Prelude.{◌≡◌, ◌≢◌, ℕ, ◌+◌, ◌<◌, ◌≤◌, [], ◌∷◌, length, slice_index};
ghost use Rattle.std.specs.Prelude.{vec_len, IfOk};
ghost use Rattle.mf_shape.specs.declared.TheConstants.{MAX_WIDTH, MAX_PARITIES};
ghost use Rattle.mf_check.specs.Search.{IsFront, SearchAnswer, StageAnswer};

use crate::sets::kernel_at;
use mf_matrix::KernelList;
use std::alloc::{AllocError, Global};

/// Tries each set that begins with `places` and goes on with places from `from` on, in order. At a
/// set that isn't decodable it ends with the set in `places`, and gives its kernel list. Where
/// there is none, `places` is as before. `kept` is room for the kept parities of a set.
pub fn first_continued(
    alloc: Global,
    points: &[u8],
    width: u32,
    places: &mut Vec<u32>,
    kept: &mut Vec<u32>,
    from: u32,
) -> Result<Option<KernelList>, AllocError>
    requires few { length points.now ≤ MAX_PARITIES }
    requires narrow { width ≤ MAX_WIDTH }
    requires front { IsFront (width + length points.now) (length points.now) from places.old.items }
    ensures { IfOk result (SearchAnswer points.now width places.old.items from places.new.items) }
{
    if places.len() == points.len() {
        return kernel_at(alloc, points, width, places, kept);
    }
    for place in from..width + points.len() as u32 {
        places.push(place)?;
        match first_continued(alloc, points, width, places, kept, place + 1)? {
            Some(kernel) => return Ok(Some(kernel)),
            None => {
                let _ = places.pop();
            }
        }
    }
    Ok(None)
}

/// The first set of places of a stripe that isn't decodable, with its kernel list. Only sets that
/// begin with the first data place are tried: moving the data places of a set to the front
/// multiplies each row of its matrix by a number that isn't zero. Memory is taken once a call, and
/// for the kernel list.
pub fn first_undecodable(
    alloc: Global,
    points: &[u8],
    width: u32,
) -> Result<Option<(Vec<u32>, KernelList)>, AllocError>
    requires few { length points.now ≤ MAX_PARITIES }
    requires some { 1 ≤ length points.now }
    requires narrow { width ≤ MAX_WIDTH }
    requires wide { 1 ≤ width }
    requires nonzero { (i : ℕ) → i < length points.now → slice_index points.now i ≢ 0 }
    ensures { IfOk result (StageAnswer points.now width) }
{
    let mut places = Vec::with_capacity(alloc, points.len())?;
    places.push(0)?;
    let mut kept = Vec::with_capacity(alloc, points.len())?;
    match first_continued(alloc, points, width, &mut places, &mut kept, 1)? {
        None => Ok(None),
        Some(kernel) => Ok(Some((places, kernel))),
    }
}
