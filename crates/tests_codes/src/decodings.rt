//! Decodings by every set of erased data and had parities of two families, and of lengths around a
//! block's end.
ghost use Rattle.std.specs.Prelude.{◌≡◌, ◌≤◌, length, All, IfSome};
ghost use Rattle.std.specs.Bool.{OnTrue};

use crate::plain::{assert_no_row, parity, rows};
use crate::stores::chunks_left;
use mf_decode::{Chunk, Memory, NoPlan, apply, gaps_of, plan};
use std::alloc::{AllocError, Global};
use std::test::Fail;

// Points, a width and the bytes of a chunk. Every set of erased pieces is decoded by every set of
// as many parities.
static FAMILIES: [(&[u8], u32, u32); 2] = [(&[1, 2], 2, 3), (&[1, 2, 4], 6, 3)];

// The bytes of a chunk. Three pieces of six are decoded by three parities.
static SIZES: [u32; 3] = [4_095, 4_096, 4_097];

// Whether the pieces that are there have `size` bytes.
fn pieces_fit(pieces: &[Option<Chunk>], size: u32) -> bool
    ensures { OnTrue result (All (λ piece. IfSome piece
        (λ bytes. length bytes ≡ size)) pieces.now) }
{
    for piece in pieces {
        if let Some(chunk) = piece {
            if chunk.bytes().len() != size as usize {
                return false;
            }
        }
    }
    true
}

// Whether the parities have `size` bytes.
fn parities_fit(parities: &[Chunk], size: u32) -> bool
    ensures { OnTrue result (All (λ bytes. length bytes ≡ size) parities.now) }
{
    for parity in parities {
        if parity.bytes().len() != size as usize {
            return false;
        }
    }
    true
}

// What was erased, or nothing where there is no such decoding. `spare` has a chunk for each parity
// that isn't had.
fn decoded(
    alloc: Global,
    points: &[u8],
    pieces: &[Option<Chunk>],
    spare: &[Option<Chunk>],
    parities: &[Chunk],
    size: u32,
) -> Result<Vec<Vec<u8>>, Memory>
    requires points { (length points.now ≤ 4) × (length spare.now ≤ length points.now) }
    requires pieces { (1 ≤ length pieces.now) × (length pieces.now ≤ 64) }
{
    let erased = gaps_of(alloc, pieces)?;
    let had = gaps_of(alloc, spare)?;
    if erased.len() != had.len() || parities.len() != had.len() {
        return Ok(Vec::new(alloc));
    }
    if !pieces_fit(pieces, size) || !parities_fit(parities, size) {
        return Ok(Vec::new(alloc));
    }
    let width = pieces.len() as u32;
    match plan(alloc, points, width, erased.as_slice(), had.as_slice()) {
        Ok(plan) => apply(alloc, &plan, size, pieces, parities),
        Err(NoPlan::Kernel(_)) => Ok(Vec::new(alloc)),
        Err(NoPlan::Memory) => Err(AllocError),
    }
}

// The rows of the set.
fn rows_of(alloc: Global, rows: &[Vec<u8>], set: u64) -> Result<Vec<Vec<u8>>, Memory> {
    let mut chosen = Vec::new(alloc);
    let mut rest = set;
    for row in rows {
        if rest & 1 == 1 {
            chosen.push(row.clone()?)?;
        }
        rest >>= 1;
    }
    Ok(chosen)
}

// The rows as chunks.
fn chunks_of(alloc: Global, rows: &[Vec<u8>]) -> Result<Vec<Chunk>, Memory> {
    let mut chunks = Vec::new(alloc);
    for row in rows {
        chunks.push(Chunk::new(alloc, row.clone()?)?)?;
    }
    Ok(chunks)
}

// The parities of these rows with these points.
fn parities_of(
    alloc: Global,
    points: &[u8],
    data: &[Vec<u8>],
    size: u32,
) -> Result<Vec<Vec<u8>>, Memory> {
    let mut parities = Vec::new(alloc);
    for point in points {
        parities.push(parity(alloc, *point, data, size as usize)?)?;
    }
    Ok(parities)
}

// Whether the pieces of the set `lost` are decoded by the parities of the set `kept`.
fn decodes(
    alloc: Global,
    points: &[u8],
    width: u32,
    size: u32,
    lost: u64,
    kept: u64,
) -> Result<bool, Memory> {
    let data = rows(alloc, 0, width, size as usize)?;
    let all = parities_of(alloc, points, &data, size)?;
    let pieces = chunks_left(alloc, &data, lost)?;
    let spare = chunks_left(alloc, &all, kept)?;
    let parities = chunks_of(alloc, &rows_of(alloc, &all, kept)?)?;
    if pieces.is_empty() || pieces.len() > 64 || points.len() > 4 || spare.len() > points.len() {
        return Ok(false);
    }
    let chunks = decoded(alloc, points, &pieces, &spare, &parities, size)?;
    Ok(chunks == rows_of(alloc, &data, lost)?)
}

// Whether every set of erased pieces decodes by every set of as many parities.
fn family_decodes(alloc: Global, points: &[u8], width: u32, size: u32) -> Result<bool, Memory>
    requires { (length points.now ≤ 4) × (width ≤ 6) }
{
    for lost in 0..1u64 << width {
        for kept in 0..1u64 << points.len() {
            if lost.count_ones() == kept.count_ones()
                && !decodes(alloc, points, width, size, lost, kept)?
            {
                return Ok(false);
            }
        }
    }
    Ok(true)
}

fn first_other_family(alloc: Global) -> Result<Option<usize>, Memory> {
    for (row, (points, width, size)) in FAMILIES.iter().enumerate() {
        if points.len() > 4 || *width > 6 || !family_decodes(alloc, points, *width, *size)? {
            return Ok(Some(row));
        }
    }
    Ok(None)
}

fn first_other_size(alloc: Global) -> Result<Option<usize>, Memory> {
    for (row, size) in SIZES.iter().enumerate() {
        if !decodes(alloc, &[1, 2, 4], 6, *size, 0b010110, 0b111)? {
            return Ok(Some(row));
        }
    }
    Ok(None)
}

#[test]
fn every_erasable_set_is_decoded(rt: HostRuntime) -> Result<(), Fail> {
    assert_no_row(&rt, first_other_family(rt.alloc())?);
    assert_no_row(&rt, first_other_size(rt.alloc())?);
    Ok(())
}
