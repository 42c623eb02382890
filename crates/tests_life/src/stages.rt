//! The family of a file that grows from copies and narrow stripes to wide ones, and a file that is
//! not created.
ghost use Rattle.std.specs.Prelude.{◌≡◌, ◌≤◌, [], length, IfOk};
ghost use Rattle.mf_vault.specs.Conditions.{IsOfFamily};
ghost use Rattle.tests_life.specs.Mendings.{IsFileOf};

use mf_check::{Family, check};
use mf_plain::Plain;
use mf_shape::{Shape, Stage};
use mf_vault::{Book, Memory};
use std::alloc::{AllocError, Global};
use std::process::Abort;

const STAGES: [Stage; 2] = [
    Stage {
        width: 2,
        parities: 2,
        copies: 1,
    },
    Stage {
        width: 4,
        parities: 2,
        copies: 0,
    },
];

// The family of these stages over six servers, with the points 1 and 2.
pub(crate) fn family(alloc: Global) -> Result<Family, Memory> {
    family_of(alloc, &STAGES, 6)
}

// The family of stages of two parities over so many servers, with the points 1 and 2.
pub(crate) fn family_of(alloc: Global, stages: &[Stage], servers: u32) -> Result<Family, Memory> {
    let Ok(shape) = Shape::new(alloc, stages, servers) else {
        return Err(AllocError);
    };
    match check(alloc, &shape, &[1, 2]) {
        Ok(family) => Ok(family),
        Err(_fault) => Err(AllocError),
    }
}

// The file of these bytes in chunks of this size, not created.
pub(crate) fn file(
    alloc: Global,
    family: &Family,
    chunk: u32,
    bytes: &[u8],
) -> Result<Plain, Memory>
    requires chunk { (1 ≤ chunk) × (chunk ≤ 64) }
    requires bytes { length bytes.now ≤ 64 }
    ensures family { IfOk result (λ plain.
        IsOfFamily family.now.shape family.now.points plain.book) }
    ensures file { IfOk result (λ plain. IsFileOf plain.book bytes.now [] plain) }
    ensures fresh { IfOk result (λ plain. plain.born ≡ 0) }
{
    let length = bytes.len() as u32;
    let book = Book::new(alloc, family.shape(), family.points(), chunk, 0, length)?;
    Plain::new(alloc, book, bytes)
}

// Fails where there is a wrong row, and tells its number.
pub(crate) fn assert_no_row(rt: &impl Abort, row: Option<usize>) {
    assert_eq!(rt; row, None, "the first wrong row");
}
