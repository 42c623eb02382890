//! Files that are cut into chunks, and joined from their stripes.
ghost use Rattle.std.specs.Prelude.{◌≡◌, ◌≤◌};

use crate::plain::{assert_no_row, row};
use mf_stripe::{Chunk, Memory, cut, join, stripe_pieces};
use std::alloc::Global;
use std::test::Fail;

// The bytes of a file, of a chunk, and the number of chunks.
static FILES: [(usize, u32, usize); 9] = [
    (0, 5, 0),
    (1, 5, 1),
    (4, 5, 1),
    (5, 5, 1),
    (6, 5, 2),
    (1_023, 1, 1_023),
    (65_537, 65_536, 2),
    (1_048_575, 1_024, 1_024),
    (1_048_576, 1_024, 1_024),
];

// Widths of the stripes from which a file is joined.
static WIDTHS: [u32; 3] = [1, 3, 64];

// Whether each byte of the file stands in its chunk, and zeros behind the last.
fn are_cut(file: &[u8], chunks: &[Chunk], chunk: u32) -> bool {
    let mut bytes = file.iter();
    for piece in chunks {
        if piece.bytes().len() != chunk as usize {
            return false;
        }
        for byte in piece.bytes() {
            if *byte != bytes.next().copied().unwrap_or(0) {
                return false;
            }
        }
    }
    bytes.next().is_none()
}

// The bytes of the stripes of this width, up to this length.
fn joined(alloc: Global, chunks: &[Chunk], width: u32, length: usize) -> Result<Vec<u8>, Memory>
    requires { (1 ≤ width) × (width ≤ 64) }
{
    let mut joined = Vec::new(alloc);
    for j in 0..1_024 {
        if j as usize * width as usize >= chunks.len() || joined.len() > length {
            break;
        }
        join(&mut joined, stripe_pieces(chunks, width, j), length)?;
    }
    Ok(joined)
}

// Whether a file of so many bytes is cut into so many chunks, and its stripes give it back.
fn is_whole(alloc: Global, length: usize, chunk: u32, count: usize) -> Result<bool, Memory>
    requires { 1 ≤ chunk }
{
    let file = row(alloc, 7, length)?;
    let chunks = cut(alloc, &file, chunk)?;
    for width in &WIDTHS {
        if *width < 1 || *width > 64 || joined(alloc, &chunks, *width, length)? != file {
            return Ok(false);
        }
    }
    Ok(chunks.len() == count && are_cut(&file, &chunks, chunk))
}

fn first_other(alloc: Global) -> Result<Option<usize>, Memory> {
    for (row, (length, chunk, count)) in FILES.iter().enumerate() {
        if *chunk < 1 || !is_whole(alloc, *length, *chunk, *count)? {
            return Ok(Some(row));
        }
    }
    Ok(None)
}

#[test]
fn files_are_cut_and_joined(rt: HostRuntime) -> Result<(), Fail> {
    assert_no_row(&rt, first_other(rt.alloc())?);
    Ok(())
}
