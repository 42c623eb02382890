//! Inverses and kernels of matrices of two rows, worked by hand.
ghost use Rattle.std.specs.Prelude.{◌≡◌, IfOk};

use crate::plain::assert_no_row;
use mf_matrix::{Matrix, invert, kernel};
use std::alloc::{AllocError, Global};
use std::test::Fail;

// Entries row by row, and the kernel list, where there is one.
static KERNELS: [([u8; 4], Option<[u8; 2]>); 3] = [
    ([1, 2, 1, 2], Some([0x01, 0x8e])),
    ([0, 7, 0, 9], Some([1, 0])),
    ([0, 1, 1, 0], None),
];

// A matrix and its inverse.
static INVERSES: [([u8; 4], [u8; 4]); 1] = [([1, 1, 1, 2], [0xf5, 0xf4, 0xf4, 0xf4])];

fn matrix_of(alloc: Global, entries: [u8; 4]) -> Result<Matrix, AllocError>
    ensures { IfOk result (λ m. (m.rows ≡ 2) × (m.columns ≡ 2)) }
{
    Ok(Matrix::new(2, 2, Vec::from_array(alloc, entries)?))
}

fn first_other_kernel(alloc: Global) -> Result<Option<usize>, AllocError> {
    for (row, (entries, wanted)) in KERNELS.iter().enumerate() {
        let matrix = matrix_of(alloc, *entries)?;
        let is_wanted = match (&kernel(alloc, &matrix)?, wanted) {
            (Some(list), Some(wanted)) => list.as_slice() == wanted.as_slice(),
            (None, None) => true,
            _ => false,
        };
        if !is_wanted {
            return Ok(Some(row));
        }
    }
    Ok(None)
}

fn has_entries(matrix: &Matrix, wanted: [u8; 4]) -> bool
    requires { (matrix.now.rows ≡ 2) × (matrix.now.columns ≡ 2) }
{
    let [a, b, c, d] = wanted;
    matrix.at(0, 0) == a && matrix.at(0, 1) == b && matrix.at(1, 0) == c && matrix.at(1, 1) == d
}

fn first_other_inverse(alloc: Global) -> Result<Option<usize>, AllocError> {
    for (row, (entries, wanted)) in INVERSES.iter().enumerate() {
        let is_wanted = match invert(alloc, &matrix_of(alloc, *entries)?) {
            Ok(inverse) => has_entries(&inverse, *wanted),
            Err(_fault) => false,
        };
        if !is_wanted {
            return Ok(Some(row));
        }
    }
    Ok(None)
}

#[test]
fn kernels_and_inverses(rt: HostRuntime) -> Result<(), Fail> {
    assert_no_row(&rt, first_other_kernel(rt.alloc())?);
    assert_no_row(&rt, first_other_inverse(rt.alloc())?);
    Ok(())
}
