//! The least time of gathering a stripe, in nanoseconds.
use crate::codes::{POINTS, Turns, nanoseconds_since};
use crate::stripe::Lossy;
use anyhow::{Result, bail};
use mf_check::{Family, check};
use mf_decode::{Gathered, PlanCache, gather_kept};
use mf_shape::{Shape, Stage};
use std::alloc::Global;
use std::rt::Clock;
use std::time::Instant;

/// The time of gathering a stripe of 6 chunks of which the first `lost` ones are lost, with the
/// plans of the cache.
pub fn least_gathering<R: Clock + AllocGlobal>(
    rt: &R,
    turns: Turns,
    lost: u32,
    size: u32,
    cache: &mut PlanCache,
) -> Result<u64> {
    let alloc = rt.alloc();
    let family = family_of_six(alloc)?;
    let mut least = u64::MAX;
    for _ in 0..turns.count {
        let mut stripe = Lossy::new(alloc, &POINTS, 6, lost, size)?;
        let start = Instant::now(rt)?;
        for _ in 0..turns.repeats {
            gather_from(alloc, &family, cache, &mut stripe)?;
        }
        least = least.min(nanoseconds_since(rt, &start)?);
    }
    Ok(least)
}

// The family of one stage of 6 chunks with three parities.
fn family_of_six(alloc: Global) -> Result<Family> {
    let stage = Stage {
        width: 6,
        parities: 3,
        copies: 0,
    };
    let Ok(shape) = Shape::new(alloc, &[stage], 9) else {
        bail!("there is no shape of this stage");
    };
    let Ok(family) = check(alloc, &shape, &POINTS) else {
        bail!("the points are no family");
    };
    Ok(family)
}

// Gathers the stripe.
fn gather_from(
    alloc: Global,
    family: &Family,
    cache: &mut PlanCache,
    stripe: &mut Lossy,
) -> Result<()> {
    let width = family.shape().stages()[0].width;
    let count = stripe.pieces.len();
    let size = stripe.size;
    let points = family.points();
    if count > width as usize || stripe.points != points {
        bail!("the stripe isn't one of the family");
    }
    if stripe.failure.is_some() {
        bail!("memory ran out before");
    }
    match gather_kept(alloc, cache, stripe, points, width, count as u32, size) {
        Gathered::All(_) => Ok(()),
        _ => bail!("too few chunks are there"),
    }
}
