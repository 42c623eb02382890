//! Blocks of parities and of merged ones, beside plain sums: at both ends of a chunk, across lanes,
//! and of a chunk that is shorter than a block.
ghost use Rattle.std.specs.Prelude.{◌+◌, ◌≤◌, All, length};
ghost use Rattle.std.specs.Bool.{OnTrue};

use crate::merges::chunks_of;
use crate::plain::{assert_no_row, parity, rows};
use mf_merge::merge_block;
use mf_stripe::{Chunk, Memory, encode_block};
use std::alloc::Global;
use std::test::Fail;

// The bytes of a chunk, where a block begins, and its columns.
static BLOCKS: [(u32, u32, u32); 11] = [
    (1, 0, 1),
    (31, 0, 31),
    (65, 31, 2),
    (100, 0, 33),
    (100, 20, 33),
    (100, 67, 33),
    (4_095, 0, 4_095),
    (4_097, 0, 4_096),
    (4_097, 1, 4_096),
    (4_097, 4_096, 1),
    (4_097, 4_097, 0),
];

// Whether each chunk has so many bytes.
fn reach(chunks: &[Chunk], end: usize) -> bool
    ensures { OnTrue result (All (λ bytes. end ≤ length bytes) chunks.now) }
{
    for chunk in chunks {
        if chunk.bytes().len() < end {
            return false;
        }
    }
    true
}

// Whether these are the bytes of a list from `start` on.
fn are_part(bytes: &[u8], list: &[u8], start: usize) -> bool {
    let mut at = start;
    for byte in bytes {
        if list.get(at) != Some(byte) {
            return false;
        }
        at = at.saturating_add(1);
    }
    true
}

// A block of a parity of three pieces, encoded, and merged from stripes of one piece each.
fn is_sum(alloc: Global, size: usize, start: usize, count: usize) -> Result<bool, Memory>
    requires { start + count ≤ 8192 }
{
    let data = rows(alloc, 0, 3, size)?;
    let pieces = chunks_of(alloc, &data)?;
    let want = parity(alloc, 2, &data, size)?;
    if pieces.is_empty() || pieces.len() > 64 || !reach(&pieces, start + count) {
        return Ok(false);
    }
    let mut out = vec![in alloc; 0; count]?;
    encode_block(&[1, 2], 64, 1, &pieces, start, &mut out);
    let encoded = are_part(&out, want.as_slice(), start);
    out.fill(0x77);
    merge_block(2, 1, &pieces, start, &mut out);
    Ok(encoded && are_part(&out, want.as_slice(), start))
}

fn first_other_block(alloc: Global) -> Result<Option<usize>, Memory> {
    for (row, (size, start, count)) in BLOCKS.iter().enumerate() {
        let (size, start, count) = (*size as usize, *start as usize, *count as usize);
        if start > 4_097 || count > 4_095 + 1 || !is_sum(alloc, size, start, count)? {
            return Ok(Some(row));
        }
    }
    Ok(None)
}

#[test]
fn blocks(rt: HostRuntime) -> Result<(), Fail> {
    assert_no_row(&rt, first_other_block(rt.alloc())?);
    Ok(())
}
