//! The kernels: by hand, and beside plain sums at lengths round the lanes and the blocks, from
//! unaligned starts; and a chunk's owners.
ghost use Rattle.std.specs.Prelude.{◌+◌, ◌≤◌, length};

use crate::plain::{assert_no_row, product, row};
use mf_kernel::{Chunk, add_into, add_scaled, scale};
use std::alloc::{AllocError, Global};
use std::test::Fail;

static SIZES: [usize; 11] = [0, 1, 15, 16, 17, 31, 32, 33, 4_095, 4_096, 4_097];

// Where the rows begin in their buffers.
static STARTS: [(usize, usize); 3] = [(0, 0), (1, 0), (5, 3)];

static FACTORS: [u8; 6] = [0, 1, 2, 0x1d, 0x8e, 0xff];

// Whether `after` has from `start` on `change` of the byte before and of the byte of `src` that
// goes with it, and else the bytes before.
fn is_changed<F: Fn(u8, u8) -> u8>(
    before: &[u8],
    after: &[u8],
    start: usize,
    src: &[u8],
    change: F,
) -> bool
    requires { F.IsAlwaysCallable change }
{
    for i in 0..before.len().min(after.len()) {
        let want = if start <= i && i - start < src.len() {
            change(before[i], src[i - start])
        } else {
            before[i]
        };
        if after[i] != want {
            return false;
        }
    }
    after.len() == before.len()
}

// The kernel without a factor, on the bytes of `before` from `to` on.
fn adds(alloc: Global, before: &[u8], to: usize, src: &[u8]) -> Result<bool, AllocError>
    requires { to + length src.now ≤ length before.now }
{
    let mut after = Vec::from_slice(alloc, before)?;
    add_into(&mut after[to..to + src.len()], src);
    Ok(is_changed(before, &after, to, src, |d, s| d ^ s))
}

// The kernels with this factor.
fn scales(alloc: Global, before: &[u8], to: usize, src: &[u8], c: u8) -> Result<bool, AllocError>
    requires { to + length src.now ≤ length before.now }
{
    let mut after = Vec::from_slice(alloc, before)?;
    add_scaled(&mut after[to..to + src.len()], c, src);
    if !is_changed(before, &after, to, src, |d, s| d ^ product(c, s)) {
        return Ok(false);
    }
    let mut after = Vec::from_slice(alloc, before)?;
    scale(&mut after[to..to + src.len()], c);
    Ok(is_changed(before, &after, to, src, |d, _| product(c, d)))
}

// Each kernel on `size` bytes from these starts on.
fn are_sums(alloc: Global, size: usize, to: usize, from: usize) -> Result<bool, AllocError>
    requires { (size ≤ 5000) × (to ≤ 8) × (from ≤ 8) }
{
    let before = row(alloc, 1, to + size + 3)?;
    let whole = row(alloc, 2, from + size + 3)?;
    let src = &whole[from..from + size];
    for c in &FACTORS {
        if !scales(alloc, &before, to, src, *c)? {
            return Ok(false);
        }
    }
    adds(alloc, &before, to, src)
}

fn first_other_size(alloc: Global, to: usize, from: usize) -> Result<Option<usize>, AllocError>
    requires { (to ≤ 8) × (from ≤ 8) }
{
    for (row, size) in SIZES.iter().enumerate() {
        if *size > 5_000 || !are_sums(alloc, *size, to, from)? {
            return Ok(Some(row));
        }
    }
    Ok(None)
}

fn first_other_start(alloc: Global) -> Result<Option<usize>, AllocError> {
    for (row, (to, from)) in STARTS.iter().enumerate() {
        if *to > 8 || *from > 8 || first_other_size(alloc, *to, *from)?.is_some() {
            return Ok(Some(row));
        }
    }
    Ok(None)
}

// 4 times ab is 96, and a5 and 96 together are 33.
fn are_by_hand() -> bool {
    let mut row = [0xa5, 0x00, 0x07];
    add_scaled(&mut row, 4, &[0xab, 0xab, 0x00]);
    let is_scaled = row == [0x33, 0x96, 0x07];
    add_into(&mut row, &[0x33, 0x00, 0xff]);
    let is_added = row == [0x00, 0x96, 0xf8];
    let mut row = [0xab, 0x00, 0x01];
    scale(&mut row, 4);
    is_scaled && is_added && row == [0x96, 0x00, 0x04]
}

fn outlives_its_first_owner(alloc: Global) -> Result<bool, AllocError> {
    let first = Chunk::new(alloc, [1, 2, 3].to_vec(alloc)?)?;
    let second = first.share()?;
    drop(first);
    Ok(second.bytes() == [1, 2, 3].as_slice())
}

#[test]
fn kernels_and_chunks(rt: HostRuntime) -> Result<(), Fail> {
    assert!(rt; are_by_hand());
    assert_no_row(&rt, first_other_start(rt.alloc())?);
    assert!(rt; outlives_its_first_owner(rt.alloc())?);
    Ok(())
}
