//! The least time of the check of a family, in nanoseconds.
use crate::codes::{Turns, nanoseconds_since};
use anyhow::{Result, bail};
use mf_check::check;
use mf_shape::{Shape, Stage};
use std::rt::Clock;
use std::time::Instant;

/// The time of checking the worst family known that is accepted: four stages of width 33 with four
/// parities.
pub fn least_check<R: Clock + AllocGlobal>(rt: &R, turns: Turns) -> Result<u64> {
    let stage = Stage {
        width: 33,
        parities: 4,
        copies: 0,
    };
    let Ok(shape) = Shape::new(rt.alloc(), &[stage, stage, stage, stage], 37) else {
        bail!("there is no shape of these stages");
    };
    let mut least = u64::MAX;
    for _ in 0..turns.count {
        let start = Instant::now(rt)?;
        if check(rt.alloc(), &shape, &[1, 21, 208, 54]).is_err() {
            bail!("the points are no family");
        }
        least = least.min(nanoseconds_since(rt, &start)?);
    }
    Ok(least)
}
