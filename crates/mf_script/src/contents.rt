//! The bytes of files.

ghost use Rattle.std.specs.Prelude.{◌≡◌, IfOk};
ghost use Rattle.mf_script.specs.Contents.{pattern_bytes, bytes_in};

use mf_lines::Content;
use std::alloc::{AllocError, Global};

const PERIOD: u32 = 251;

// `length` bytes, of which byte x is (x + `start`) mod 251: whole periods, and the front of one.
fn pattern(alloc: Global, length: u32, start: u32) -> Result<Vec<u8>, AllocError>
    ensures { IfOk result (λ v. v.items ≡ pattern_bytes length start) }
{
    let period = period(alloc, start)?;
    let mut bytes = Vec::with_capacity(alloc, length as usize)?;
    for _k in 0..length / PERIOD {
        bytes.extend_from_slice(&period)?;
    }
    bytes.extend_from_slice(&period[..(length % PERIOD) as usize])?;
    Ok(bytes)
}

// The first period.
fn period(alloc: Global, start: u32) -> Result<Vec<u8>, AllocError>
    ensures { IfOk result (λ v. v.items ≡ pattern_bytes 251 start) }
{
    let mut bytes = Vec::with_capacity(alloc, PERIOD as usize)?;
    for x in 0..PERIOD {
        bytes.push(((u64::from(x) + u64::from(start)) % 251) as u8)?;
    }
    Ok(bytes)
}

/// The bytes of a file. Fails only where memory runs out.
pub fn content_bytes(alloc: Global, content: &Content) -> Result<Vec<u8>, AllocError>
    ensures { IfOk result (λ v. v.items ≡ bytes_in content.now) }
{
    match content {
        Content::Empty => Ok(Vec::new(alloc)),
        Content::Text(bytes) | Content::Hex(bytes) => Vec::from_slice(alloc, bytes.as_slice()),
        Content::Pattern { length, start } => pattern(alloc, *length, *start),
    }
}
