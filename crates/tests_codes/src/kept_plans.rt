//! Gatherings with plans that are kept, beside the same ones without.
ghost use Rattle.std.specs.Prelude.{◌≡◌, ◌≤◌, None};

use crate::gatherings::{family_of, gather_from, is_place};
use crate::plain::assert_no_row;
use crate::stores::Store;
use mf_check::Family;
use mf_decode::{Gathered, PlanCache, gather_kept};
use std::alloc::Global;
use std::test::Fail;

const POINTS: [u8; 3] = [2, 4, 8];

// What can be had of the store, with the plans of the cache.
fn gather_by(alloc: Global, cache: &mut PlanCache, family: &Family, store: &mut Store) -> Gathered
    requires points { store.old.points.now ≡ family.now.points }
    requires unbroken { store.old.failure ≡ None }
{
    let width = family.shape().stages()[0].width;
    let count = store.pieces.len();
    let size = store.size;
    if count > width as usize {
        return Gathered::Short;
    }
    gather_kept(
        alloc,
        cache,
        store,
        family.points(),
        width,
        count as u32,
        size,
    )
}

// Whether both gathered the same chunks, or both were short.
fn is_same(left: &Gathered, right: &Gathered) -> bool {
    match (left, right) {
        (Gathered::All(some), Gathered::All(others)) => {
            some.len() == others.len()
                && some
                    .iter()
                    .zip(others.as_slice())
                    .all(|(a, b)| a.bytes() == b.bytes())
        }
        (Gathered::Short, Gathered::Short) => true,
        _ => false,
    }
}

// Whether the same was asked for in both, with the same answers.
fn asked_alike(left: &Store, right: &Store) -> bool {
    left.asked.len() == right.asked.len()
        && left
            .asked
            .iter()
            .zip(right.asked.as_slice())
            .all(|(a, b)| a.had == b.had && is_place(a.place, b.place))
}

// A stripe of six pieces and three parities is gathered once for each set, without the pieces of
// its low six bits and the parities of the others. The answer is the first set at which a cache of
// this capacity changes what is gathered, or what is asked for.
fn first_changed(alloc: Global, capacity: u32, sets: &[u64]) -> Result<Option<usize>, Fail>
    requires { 1 ≤ capacity }
{
    let Some(family) = family_of(alloc, 6, &POINTS) else {
        return Ok(Some(0));
    };
    let mut cache = PlanCache::new(alloc, capacity)?;
    for (n, set) in sets.iter().enumerate() {
        let mut store = Store::new(alloc, family.points(), 6, 33, set & 63, set >> 6)?;
        let mut other = Store::new(alloc, family.points(), 6, 33, set & 63, set >> 6)?;
        let kept = gather_by(alloc, &mut cache, &family, &mut store);
        let made = gather_from(alloc, &family, &mut other);
        if !is_same(&kept, &made) || !asked_alike(&store, &other) {
            return Ok(Some(n));
        }
    }
    Ok(None)
}

// A hundred sets: three that come again and again, and one that is new each time.
#[test]
fn a_cache_of_two_plans(rt: HostRuntime) -> Result<(), Fail> {
    let mut sets = Vec::new(rt.alloc());
    for n in 0..25u64 {
        for set in [0b000_000011, 0b000_110000, n * 20, 0b001_010001] {
            sets.push(set)?;
        }
    }
    assert_no_row(&rt, first_changed(rt.alloc(), 2, sets.as_slice())?);
    Ok(())
}

#[test]
fn two_erasures_in_turn(rt: HostRuntime) -> Result<(), Fail> {
    let sets = [0b011, 0b101, 0b011, 0b101, 0b101, 0b011];
    assert_no_row(&rt, first_changed(rt.alloc(), 1, &sets)?);
    Ok(())
}
