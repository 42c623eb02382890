//! Encodings and merges: by hand, and beside plain sums.
ghost use Rattle.std.specs.Prelude.{◌≡◌, ◌≤◌, ◌*◌, All, length};
ghost use Rattle.std.specs.Bool.{OnTrue};

use crate::plain::{assert_no_row, parity, rows};
use mf_merge::merge;
use mf_stripe::{Chunk, Memory, encode};
use std::alloc::Global;
use std::test::Fail;

static POINTS: [u8; 4] = [1, 2, 3, 0x8e];

// Chunks of one letter each, the width, and of what byte the parities by 1 and by 2 are.
static ENCODINGS: [(&[u8], u32, [u8; 2]); 4] = [
    (b"ab", 2, [0x03, 0xa5]),
    (b"cd", 2, [0x07, 0xab]),
    (b"abcd", 4, [0x04, 0x33]),
    (b"e", 2, [0x65, 0x65]),
];

// The point, of what bytes the parities of stripes of two are, and of what byte the merged one is.
static MERGES: [(u8, &[u8], u8); 3] = [
    (1, &[0x03, 0x07], 0x04),
    (2, &[0xa5, 0xab], 0x33),
    (2, &[0x65], 0x65),
];

// How many bytes a chunk has, in the rows worked by hand.
static SIZES: [u32; 4] = [1, 4_095, 4_096, 4_097];

// The width of the narrow stripes, how many of them make a wide one, the chunks that a wide one
// has, and their bytes.
static STRIPES: [(u32, u32, u32, u32); 18] = [
    (2, 2, 4, 1),
    (2, 2, 4, 31),
    (2, 2, 3, 1),
    (2, 2, 3, 31),
    (6, 2, 12, 1),
    (6, 2, 12, 31),
    (6, 2, 7, 1),
    (6, 2, 7, 31),
    (16, 4, 64, 1),
    (16, 4, 64, 31),
    (32, 2, 33, 1),
    (32, 2, 33, 31),
    (1, 64, 64, 1),
    (1, 64, 64, 31),
    (64, 1, 64, 1),
    (64, 1, 64, 31),
    (2, 2, 3, 4_096),
    (2, 2, 3, 4_097),
];

// Whether the chunks have `size` bytes.
fn fit(chunks: &[Chunk], size: u32) -> bool
    ensures { OnTrue result (All (λ bytes. length bytes ≡ size) chunks.now) }
{
    for chunk in chunks {
        if chunk.bytes().len() != size as usize {
            return false;
        }
    }
    true
}

// The chunks of these bytes.
pub fn chunks_of(alloc: Global, rows: &[Vec<u8>]) -> Result<Vec<Chunk>, Memory> {
    let mut chunks = Vec::new(alloc);
    for row in rows {
        chunks.push(Chunk::new(alloc, row.clone()?)?)?;
    }
    Ok(chunks)
}

// Chunks of `size` bytes, each of one letter again and again.
fn chunks_of_letters(alloc: Global, letters: &[u8], size: u32) -> Result<Vec<Chunk>, Memory> {
    let mut chunks = Vec::new(alloc);
    for letter in letters {
        chunks.push(Chunk::new(alloc, vec![in alloc; *letter; size as usize]?)?)?;
    }
    Ok(chunks)
}

// The merged parity, or no bytes where the parities aren't of one size.
fn merged(
    alloc: Global,
    point: u8,
    width: u32,
    parities: &[Chunk],
    size: u32,
) -> Result<Vec<u8>, Memory>
    requires { (1 ≤ width) × (width ≤ 64) }
{
    if parities.is_empty() || parities.len() > 64 || !fit(parities, size) {
        return Ok(Vec::new(alloc));
    }
    merge(alloc, point, width, parities)
}

// The parities of a stripe, or none where the pieces aren't of one size.
fn encoded(
    alloc: Global,
    points: &[u8],
    width: u32,
    pieces: &[Chunk],
    size: u32,
) -> Result<Vec<Vec<u8>>, Memory> {
    if pieces.len() > width as usize || !fit(pieces, size) {
        return Ok(Vec::new(alloc));
    }
    encode(alloc, points, width, size, pieces)
}

// Whether these are `size` times this byte.
fn are_all(bytes: &[u8], byte: u8, size: u32) -> bool {
    for other in bytes {
        if *other != byte {
            return false;
        }
    }
    bytes.len() == size as usize
}

fn first_other_encoding(alloc: Global, size: u32) -> Result<Option<usize>, Memory> {
    for (row, (letters, width, wanted)) in ENCODINGS.iter().enumerate() {
        let pieces = chunks_of_letters(alloc, letters, size)?;
        let parities = encoded(alloc, &[1, 2], *width, &pieces, size)?;
        for (parity, byte) in parities.iter().zip(wanted) {
            if !are_all(parity.as_slice(), *byte, size) {
                return Ok(Some(row));
            }
        }
        if parities.len() != 2 {
            return Ok(Some(row));
        }
    }
    Ok(None)
}

fn first_other_merge(alloc: Global, size: u32) -> Result<Option<usize>, Memory> {
    for (row, (point, letters, byte)) in MERGES.iter().enumerate() {
        let parities = chunks_of_letters(alloc, letters, size)?;
        if !are_all(
            merged(alloc, *point, 2, &parities, size)?.as_slice(),
            *byte,
            size,
        ) {
            return Ok(Some(row));
        }
    }
    Ok(None)
}

fn first_other_size(alloc: Global) -> Result<Option<usize>, Memory> {
    for (row, size) in SIZES.iter().enumerate() {
        if first_other_encoding(alloc, *size)?.is_some() {
            return Ok(Some(row));
        }
        if first_other_merge(alloc, *size)?.is_some() {
            return Ok(Some(row));
        }
    }
    Ok(None)
}

#[test]
fn stripes_by_hand(rt: HostRuntime) -> Result<(), Fail> {
    assert_no_row(&rt, first_other_size(rt.alloc())?);
    Ok(())
}

// The parities with this point of the narrow stripes of these rows.
fn narrow_parities(
    alloc: Global,
    point: u8,
    data: &[Vec<u8>],
    narrow: u32,
    size: u32,
) -> Result<Vec<Chunk>, Memory>
    requires { 1 ≤ narrow }
{
    let mut parities = Vec::new(alloc);
    for stripe in data.chunks(narrow as usize) {
        parities.push(parity(alloc, point, stripe, size as usize)?)?;
    }
    chunks_of(alloc, &parities)
}

// A wide stripe of the first `count` rows of `size` bytes, encoded, and merged from its narrow
// stripes.
fn is_sum(alloc: Global, narrow: u32, factor: u32, count: u32, size: u32) -> Result<bool, Memory>
    requires narrow { (1 ≤ narrow) × (narrow ≤ 64) }
    requires factor { factor ≤ 64 }
{
    let data = rows(alloc, 0, count, size as usize)?;
    let pieces = chunks_of(alloc, &data)?;
    let wide = encoded(alloc, &POINTS, narrow * factor, &pieces, size)?;
    for (point, had) in POINTS.iter().zip(wide.as_slice()) {
        let want = parity(alloc, *point, &data, size as usize)?;
        let parities = narrow_parities(alloc, *point, &data, narrow, size)?;
        if *had != want || merged(alloc, *point, narrow, &parities, size)? != want {
            return Ok(false);
        }
    }
    Ok(wide.len() == POINTS.len())
}

fn first_other_stripe(alloc: Global) -> Result<Option<usize>, Memory> {
    for (row, (narrow, factor, count, size)) in STRIPES.iter().enumerate() {
        if *narrow < 1 || *narrow > 64 || *factor > 64 {
            return Ok(Some(row));
        }
        if !is_sum(alloc, *narrow, *factor, *count, *size)? {
            return Ok(Some(row));
        }
    }
    Ok(None)
}

#[test]
fn encodings_and_merges_are_plain_sums(rt: HostRuntime) -> Result<(), Fail> {
    assert_no_row(&rt, first_other_stripe(rt.alloc())?);
    Ok(())
}
