//! The floor of a store: the least time of what can't be left out where files are created and read.
ghost use Rattle.std.specs.Prelude.{◌≡◌, All, length};

use crate::codes::{POINTS, chunk, nanoseconds_since};
use anyhow::{Result, bail};
use mf_kernel::{Chunk, Memory};
use mf_stripe::{cut, encode, stripe_pieces};
use sha2::{Digest, Sha256};
use std::alloc::Global;
use std::rt::Clock;
use std::time::Instant;

// How many files there are, of how many bytes, in chunks of how many.
const FILES: u32 = 64;

const LENGTH: u32 = 1_048_576;

const CHUNK: u32 = 65_536;

// The chunks of a file, and its stripes of so many chunks.
const CHUNKS: usize = 16;

const STRIPES: u32 = 3;

const WIDTH: u32 = 6;

/// The time of the SHA-256 of each file, and of encoding all of their stripes, in nanoseconds.
pub fn least_floor<R: Clock + AllocGlobal>(rt: &R, turns: u32) -> Result<u64> {
    let mut least = u64::MAX;
    for _ in 0..turns {
        let mut sum = 0u64;
        for number in 0..FILES {
            sum = sum.saturating_add(time_file(rt, number)?);
        }
        least = least.min(sum);
    }
    Ok(least)
}

// The time of one file.
fn time_file<R: Clock + AllocGlobal>(rt: &R, number: u32) -> Result<u64> {
    let alloc = rt.alloc();
    let file = chunk(alloc, number, LENGTH)?;
    let chunks = cut(alloc, file.bytes(), CHUNK)?;
    if chunks.len() != CHUNKS {
        bail!("a file has 16 chunks");
    }
    let start = Instant::now(rt)?;
    let digest = digest_of(file.bytes());
    encode_all(alloc, &chunks)?;
    let time = nanoseconds_since(rt, &start)?;
    if digest == [0; 32] {
        bail!("no bytes are known that have this digest");
    }
    Ok(time)
}

// The SHA-256 of the bytes.
#[inline(never)]
fn digest_of(bytes: &[u8]) -> [u8; 32] {
    let mut hasher = Sha256::new();
    hasher.update(bytes);
    hasher.finalize()
}

// Encodes each stripe of the chunks.
fn encode_all(alloc: Global, chunks: &[Chunk]) -> Result<(), Memory>
    requires count { length chunks.now ≡ CHUNKS }
    requires lengths { All (λ chunk. length chunk ≡ CHUNK) chunks.now }
{
    for j in 0..STRIPES {
        let pieces = stripe_pieces(chunks, WIDTH, j);
        encode(alloc, &POINTS, WIDTH, CHUNK, pieces)?;
    }
    Ok(())
}
