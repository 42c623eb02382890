//! The faults of points alone.
ghost use Rattle.std.specs.Prelude.{◌≡◌, ◌≢◌, ℕ, ◌+◌, ◌<◌, ◌≤◌, ◌⊎◌, length};
ghost use Rattle.std.specs.Prelude.{slice_index, MatchOption};
ghost use Rattle.mf_shape.specs.declared.TheConstants.{MAX_PARITIES};
ghost use Rattle.mf_check.specs.Families.{ArePoints};
ghost use Rattle.mf_check.specs.Faults.{IsPointFault, IsFirstZero, IsFirstPair};

use crate::FamilyFault;

/// The first point that is 0.
fn first_zero(points: &[u8]) -> Option<u32>
    requires { length points.now ≤ MAX_PARITIES }
    ensures { MatchOption result
        ((i : ℕ) → i < length points.now → slice_index points.now i ≢ 0)
        (IsFirstZero points.now) }
{
    for i in 0..points.len() {
        if points[i] == 0 {
            return Some(i as u32);
        }
    }
    None
}

/// The first point after point i that is equal to it.
fn next_equal(points: &[u8], i: usize) -> Option<usize>
    requires { i < length points.now }
    ensures { MatchOption result
        ((b : ℕ) → i < b → b < length points.now
        → slice_index points.now i ≢ slice_index points.now b)
        (λ j. (i < j) × (j < length points.now)
        × (slice_index points.now i ≡ slice_index points.now j)
        × ((b : ℕ) → i < b → b < j → slice_index points.now i ≢ slice_index points.now b)) }
{
    for j in i + 1..points.len() {
        if points[i] == points[j] {
            return Some(j);
        }
    }
    None
}

/// The first pair of points that are equal.
fn first_pair(points: &[u8]) -> Option<(u32, u32)>
    requires { length points.now ≤ MAX_PARITIES }
    ensures { MatchOption result
        ((a b : ℕ) → a < b → b < length points.now
        → slice_index points.now a ≢ slice_index points.now b)
        (λ pair. IsFirstPair points.now pair.0 pair.1) }
{
    for i in 0..points.len() {
        if let Some(j) = next_equal(points, i) {
            return Some((i as u32, j as u32));
        }
    }
    None
}

/// The fault of points of which there are to be `count`, if they have one.
pub fn point_fault(points: &[u8], count: u32) -> Option<FamilyFault>
    requires { count ≤ MAX_PARITIES }
    ensures { MatchOption result (ArePoints count points.now) (IsPointFault count points.now) }
{
    if points.len() != count as usize {
        return Some(FamilyFault::PointCount(points.len().min(u32::MAX as usize) as u32));
    }
    if let Some(i) = first_zero(points) {
        return Some(FamilyFault::PointZero(i));
    }
    match first_pair(points) {
        Some((i, j)) => Some(FamilyFault::PointTwice(i, j)),
        None => None,
    }
}
