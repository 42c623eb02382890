//! The parities of each width, counted.
ghost use Rattle.std.specs.Prelude.{◌≡◌, ℕ, ◌+◌, ◌*◌, ◌<◌, ◌≤◌, length, IfOk};
ghost use Rattle.mf_shape.specs.Chain.{IsChain};
ghost use Rattle.mf_places.specs.Names.{max_parities};
ghost use Rattle.mf_places.specs.Numbers.{parities_in};
ghost use Rattle.mf_places.specs.Rows.{IsFirsts};

use crate::MAX_CHUNKS;
use mf_shape::{MAX_PARITIES, MAX_WIDTH, Stage};
use std::alloc::{AllocError, Global};

/// The greatest number of parities among the stages of a width.
pub fn greatest_parities(stages: &[Stage], width: u32) -> u32
    ensures { result ≡ max_parities width stages.now }
{
    let mut greatest = 0;
    for stage in stages {
        let parities = if stage.width == width {
            stage.parities
        } else {
            0
        };
        greatest = parities.max(greatest);
    }
    greatest
}

// How many parities there are at a width.
fn parities_at(stages: &[Stage], chunks: u32, width: u32) -> u32
    requires chain { IsChain stages.now }
    requires chunks { chunks ≤ MAX_CHUNKS }
    ensures value { result ≡ parities_in chunks stages.now width }
    ensures bound { result ≤ MAX_CHUNKS * MAX_PARITIES }
{
    let parities = greatest_parities(stages, width);
    if parities == 0 {
        return 0;
    }
    chunks.div_ceil(width) * parities
}

/// The number of the first parity of each width up to the widest, and then the number of names.
pub fn first_numbers(
    alloc: Global,
    stages: &[Stage],
    chunks: u32,
    widest: u32,
) -> Result<Vec<u32>, AllocError>
    requires chain { IsChain stages.now }
    requires chunks { chunks ≤ MAX_CHUNKS }
    requires widest { widest ≤ MAX_WIDTH }
    ensures { IfOk result (λ firsts. IsFirsts chunks stages.now (widest + 2) firsts.items) }
{
    let mut firsts = Vec::with_capacity(alloc, widest as usize + 2)?;
    let mut first = chunks + stages[0].copies * chunks;
    firsts.push(first)?;
    for width in 0..widest + 1 {
        first += parities_at(stages, chunks, width);
        firsts.push(first)?;
    }
    Ok(firsts)
}
