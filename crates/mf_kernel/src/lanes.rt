//! Lanes of a slice.
ghost use Rattle.std.specs.Prelude.{◌≡◌, ◌+◌, ◌≤◌, length};
ghost use lib.Lanes.{chunk, put_chunk};

use std::simd::prelude::*;

/// The most columns of a block: so many bytes of each chunk of a stripe stay in the first cache.
pub const BLOCK: usize = 4_096;

/// The bytes of so many lanes.
pub(crate) const LANES: usize = 32;

/// The lanes from `at` on.
#[inline(always)]
pub(crate) fn lanes_at(bytes: &[u8], at: usize) -> u8x32
    requires { at + 32 ≤ length bytes.now }
    ensures { result ≡ chunk at 32 bytes.now }
{
    u8x32::from_slice(&bytes[at..])
}

/// Writes the lanes from `at` on.
#[inline(always)]
pub(crate) fn put_lanes(bytes: &mut [u8], at: usize, lanes: u8x32)
    requires { at + 32 ≤ length bytes.old }
    ensures { bytes.new ≡ put_chunk at bytes.old lanes }
{
    lanes.copy_to_slice(&mut bytes[at..]);
}
