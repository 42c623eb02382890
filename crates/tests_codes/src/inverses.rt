//! Inverses and kernels of the greatest matrices, of eight rows.
ghost use Rattle.std.specs.Prelude.{◌≡◌, IfOk};

use mf_matrix::{Matrix, NoInverse, invert, kernel};
use std::alloc::{AllocError, Global};
use std::test::Fail;

// A matrix of ones and zeros: row r has a one in column c where bit 8r + c is set.
fn matrix_of(alloc: Global, ones: u64) -> Result<Matrix, AllocError>
    ensures { IfOk result (λ m. (m.rows ≡ 8) × (m.columns ≡ 8)) }
{
    let mut entries = [0; 64];
    for (at, entry) in entries.iter_mut().enumerate() {
        *entry = (ones >> (at & 63) & 1) as u8;
    }
    Ok(Matrix::new(8, 8, Vec::from_array(alloc, entries)?))
}

// The bits of a matrix that has a one in each row, in the column as far from the last as the row
// from the first, and so is its own inverse.
const TURNED: u64 = 0x0102_0408_1020_4080;

fn has_ones(matrix: &Matrix, ones: u64) -> bool
    requires { (matrix.now.rows ≡ 8) × (matrix.now.columns ≡ 8) }
{
    for row in 0..8 {
        for column in 0..8 {
            if u64::from(matrix.at(row, column)) != ones >> (8 * row + column) & 1 {
                return false;
            }
        }
    }
    true
}

fn is_its_own_inverse(alloc: Global, ones: u64) -> Result<bool, AllocError> {
    match invert(alloc, &matrix_of(alloc, ones)?) {
        Ok(inverse) => Ok(has_ones(&inverse, ones)),
        Err(_fault) => Ok(false),
    }
}

// Bits of matrices, and the kernel lists.
static KERNELS: [(u64, [u8; 8]); 3] = [
    (0, [1, 0, 0, 0, 0, 0, 0, 0]),
    (u64::MAX, [1, 1, 0, 0, 0, 0, 0, 0]),
    (0x0040_2010_0804_0201, [0, 0, 0, 0, 0, 0, 0, 1]),
];

fn has_kernel(alloc: Global, ones: u64, wanted: &[u8]) -> Result<bool, AllocError> {
    match &kernel(alloc, &matrix_of(alloc, ones)?)? {
        Some(list) => Ok(list.as_slice() == wanted),
        None => Ok(false),
    }
}

fn is_told(alloc: Global, ones: u64, wanted: &[u8]) -> Result<bool, AllocError> {
    match invert(alloc, &matrix_of(alloc, ones)?) {
        Err(NoInverse::Kernel(list)) => Ok(list.as_slice() == wanted),
        _ => Ok(false),
    }
}

fn first_other(alloc: Global) -> Result<Option<usize>, AllocError> {
    for (at, (ones, wanted)) in KERNELS.iter().enumerate() {
        if !has_kernel(alloc, *ones, wanted)? || !is_told(alloc, *ones, wanted)? {
            return Ok(Some(at));
        }
    }
    Ok(None)
}

#[test]
fn the_greatest_matrices(rt: HostRuntime) -> Result<(), Fail> {
    assert!(rt; is_its_own_inverse(rt.alloc(), TURNED)?);
    assert_eq!(rt; first_other(rt.alloc())?, None);
    Ok(())
}
