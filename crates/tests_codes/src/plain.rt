//! Products and sums by plain loops, the bytes of the tests, and how a wrong row is told.
ghost use Rattle.std.specs.Prelude.{◌≡◌, IfOk};
ghost use Rattle.std.specs.Vec.{vec_len};

use std::alloc::{AllocError, Global};
use std::process::Abort;

// The product of two bytes: their carry-less product, and its remainder by 0x11D.
pub fn product(a: u8, b: u8) -> u8 {
    let mut long = 0u32;
    for bit in 0..8u32 {
        if b >> bit & 1 == 1 {
            long ^= (a as u32) << bit;
        }
    }
    for bit in (0..7u32).rev() {
        if long >> (bit + 8) & 1 == 1 {
            long ^= 0x11d << bit;
        }
    }
    (long & 255) as u8
}

// `size` bytes that differ from row to row.
pub fn row(alloc: Global, row: u32, size: usize) -> Result<Vec<u8>, AllocError>
    ensures { IfOk result (λ bytes. vec_len bytes ≡ size) }
{
    let mut bytes = Vec::with_capacity(alloc, size)?;
    let mut byte = ((row & 255) as u8).wrapping_mul(37) ^ 0xa7;
    for _ in 0..size {
        bytes.push(byte)?;
        byte = byte.wrapping_mul(5).wrapping_add(29);
    }
    Ok(bytes)
}

// The first `count` rows from row `first` on, of `size` bytes each.
pub fn rows(
    alloc: Global,
    first: u32,
    count: u32,
    size: usize,
) -> Result<Vec<Vec<u8>>, AllocError> {
    let mut rows = Vec::new(alloc);
    for t in 0..count {
        rows.push(row(alloc, first.wrapping_add(t), size)?)?;
    }
    Ok(rows)
}

// The parity with this point of a stripe of these rows of `size` bytes: the sum of `point ^ t`
// times row t.
pub fn parity(
    alloc: Global,
    point: u8,
    rows: &[Vec<u8>],
    size: usize,
) -> Result<Vec<u8>, AllocError> {
    let mut sum = vec![in alloc; 0; size]?;
    let mut weight = 1;
    for row in rows {
        for (total, byte) in sum.iter_mut().zip(row.as_slice()) {
            *total ^= product(weight, *byte);
        }
        weight = product(weight, point);
    }
    Ok(sum)
}

// Fails where there is a wrong row, and tells its number.
pub fn assert_no_row(rt: &impl Abort, row: Option<usize>) {
    assert_eq!(rt; row, None, "the first wrong row");
}
