//! The least time of a code, in nanoseconds.
ghost use Rattle.std.specs.Prelude.{◌≡◌, ◌≤◌, All, IfOk, IfSome, length};

use anyhow::{Result, bail};
use mf_decode::{apply, gaps_of, plan};
use mf_erasure::is_erasure;
use mf_kernel::{Chunk, Memory};
use mf_merge::merge;
use mf_stripe::encode;
use std::alloc::Global;
use std::rt::Clock;
use std::time::Instant;

/// How many turns are made, of which the best counts, and how often the work is repeated in each.
#[derive(Clone, Copy, Debug, PartialEq, Eq, Drop)]
pub struct Turns {
    pub count: u32,
    pub repeats: u32,
}

/// The points of the parities.
pub const POINTS: [u8; 3] = [1, 2, 4];

/// The time of encoding a stripe of this width.
pub fn least_encoding<R: Clock + AllocGlobal>(
    rt: &R,
    turns: Turns,
    width: u32,
    size: u32,
) -> Result<u64> {
    let pieces = chunks(rt.alloc(), width, size)?;
    let mut least = u64::MAX;
    for _ in 0..turns.count {
        let start = Instant::now(rt)?;
        for _ in 0..turns.repeats {
            encode(rt.alloc(), &POINTS, width, size, &pieces)?;
        }
        least = least.min(nanoseconds_since(rt, &start)?);
    }
    Ok(least)
}

/// The time of merging the parities of so many stripes of 6 chunks.
pub fn least_merging<R: Clock + AllocGlobal>(
    rt: &R,
    turns: Turns,
    count: u32,
    size: u32,
) -> Result<u64>
    requires some { 1 ≤ count }
    requires at_most { count ≤ 64 }
{
    let parities = chunks(rt.alloc(), count, size)?;
    let mut least = u64::MAX;
    for _ in 0..turns.count {
        let start = Instant::now(rt)?;
        for _ in 0..turns.repeats {
            merge(rt.alloc(), 2, 6, &parities)?;
        }
        least = least.min(nanoseconds_since(rt, &start)?);
    }
    Ok(least)
}

/// The time of decoding the first `lost` chunks of a stripe from its other pieces and as many
/// parities, by a plan that is there already.
pub fn least_decoding<R: Clock + AllocGlobal>(
    rt: &R,
    turns: Turns,
    width: u32,
    lost: u32,
    size: u32,
) -> Result<u64>
    requires some { 1 ≤ width }
    requires at_most { width ≤ 64 }
{
    let alloc = rt.alloc();
    let pieces = pieces_without(alloc, width, lost, size)?;
    let erased = gaps_of(alloc, &pieces)?;
    if !is_erasure(width, 3, &erased, &erased) {
        bail!("at most three pieces are lost, and as many as there are parities");
    }
    let Ok(plan) = plan(alloc, &POINTS, width, &erased, &erased) else {
        bail!("there is no plan for the first chunks");
    };
    let parities = chunks(alloc, erased.len() as u32, size)?;
    let mut least = u64::MAX;
    for _ in 0..turns.count {
        let start = Instant::now(rt)?;
        for _ in 0..turns.repeats {
            apply(alloc, &plan, size, &pieces, &parities)?;
        }
        least = least.min(nanoseconds_since(rt, &start)?);
    }
    Ok(least)
}

/// The pieces of a stripe, without the first ones.
pub fn pieces_without(
    alloc: Global,
    width: u32,
    lost: u32,
    size: u32,
) -> Result<Vec<Option<Chunk>>, Memory>
    ensures count { IfOk result (λ pieces. length pieces.items ≡ width) }
    ensures sizes { IfOk result (λ pieces. All (λ piece. IfSome piece
        (λ bytes. length bytes ≡ size)) pieces.items) }
{
    let mut pieces = Vec::new(alloc);
    for t in 0..width {
        pieces.push(piece_behind(alloc, lost, t, size)?)?;
    }
    Ok(pieces)
}

// Piece t, where it isn't one of the first ones.
fn piece_behind(alloc: Global, lost: u32, t: u32, size: u32) -> Result<Option<Chunk>, Memory>
    ensures { IfOk result (λ o. IfSome o (λ bytes. length bytes ≡ size)) }
{
    if t < lost {
        return Ok(None);
    }
    Ok(Some(chunk(alloc, t, size)?))
}

/// The nanoseconds since then.
pub fn nanoseconds_since(rt: &impl Clock, start: &Instant) -> Result<u64> {
    let nanoseconds = start.elapsed(rt)?.as_nanos();
    Ok(u64::try_from(nanoseconds).unwrap_or(u64::MAX))
}

/// So many chunks of this size.
pub fn chunks(alloc: Global, count: u32, size: u32) -> Result<Vec<Chunk>, Memory>
    ensures count { IfOk result (λ chunks. length chunks.items ≡ count) }
    ensures sizes { IfOk result (λ chunks. All (λ chunk. length chunk ≡ size) chunks.items) }
{
    let mut chunks = Vec::new(alloc);
    for i in 0..count {
        chunks.push(chunk(alloc, i, size)?)?;
    }
    Ok(chunks)
}

/// A chunk of this size, with other bytes for another number.
pub fn chunk(alloc: Global, number: u32, size: u32) -> Result<Chunk, Memory>
    ensures { IfOk result (λ chunk. length chunk ≡ size) }
{
    let mut bytes = vec![in alloc; 0; size as usize]?;
    fill(number, &mut bytes);
    Chunk::new(alloc, bytes)
}

// Fills a chunk with bytes that vary.
fn fill(number: u32, bytes: &mut [u8]) {
    for (x, byte) in bytes.iter_mut().enumerate() {
        *byte = ((x.wrapping_mul(167) ^ number as usize) & 0xff) as u8;
    }
}
