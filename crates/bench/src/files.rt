//! A small file whose chunks are got from.
ghost use Rattle.std.specs.Prelude.{◌≡◌, IfOk};
ghost use Rattle.bench.specs.Files.{IsFresh, MayFill};

use crate::codes::POINTS;
use anyhow::{Result, bail};
use mf_check::{Family, check};
use mf_convert::{Change, create};
use mf_plain::Plain;
use mf_shape::{Shape, Stage};
use mf_vault::{Book, Fetch};
use std::alloc::Global;

/// How many chunks such a file has: those of one stripe.
pub const CHUNKS: u32 = 6;

// Stripes of 6 chunks with one copy, and then of 12 without.
const STAGES: [Stage; 2] = [
    Stage {
        width: CHUNKS,
        parities: 3,
        copies: 1,
    },
    Stage {
        width: 12,
        parities: 3,
        copies: 0,
    },
];

/// The family of the file.
pub fn family(alloc: Global) -> Result<Family> {
    let Ok(shape) = Shape::new(alloc, &STAGES, 16) else {
        bail!("there is no shape of these stages");
    };
    let Ok(family) = check(alloc, &shape, &POINTS) else {
        bail!("the points are no family");
    };
    Ok(family)
}

/// The file of these bytes, in chunks of so many, not created.
pub fn file(alloc: Global, family: &Family, bytes: &[u8], chunk: u32) -> Result<Plain>
    ensures { IfOk result (IsFresh family.now bytes.now) }
{
    if chunk == 0 || chunk > 65_536 || bytes.len() > 1_048_576 {
        bail!("a file has chunks of up to 65,536 bytes, and up to 1,048,576 bytes");
    }
    let length = bytes.len() as u32;
    if length.div_ceil(chunk) > 1_024 {
        bail!("a file has up to 1,024 chunks");
    }
    let book = Book::new(alloc, family.shape(), family.points(), chunk, 0, length)?;
    let plain = Plain::new(alloc, book, bytes)?;
    Ok(plain)
}

/// Creates the file of these bytes: whether it was made.
pub fn fill<A: Fetch>(alloc: Global, access: &mut A, family: &Family, bytes: &[u8]) -> bool
    requires { MayFill family.now bytes.now (A.actor access.old) }
    ensures { (A.actor access.new).facts ≡ (A.actor access.old).facts }
{
    is_created(create(alloc, access, family, bytes))
}

// Whether the file was made.
fn is_created(change: Change) -> bool {
    matches!(&change, Change::Created)
}
