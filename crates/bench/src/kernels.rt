//! The least time of a kernel, in nanoseconds, beside a plain loop and a copy.
ghost use Rattle.std.specs.Prelude.{◌≡◌, length};

use crate::codes::{Turns, nanoseconds_since};
use anyhow::Result;
use mf_kernel::{add_into, add_scaled, scale};
use std::rt::Clock;
use std::time::Instant;

/// What is done with one chunk, or with two.
#[derive(Clone, Copy, Debug, PartialEq, Eq, Drop)]
pub enum Kernel {
    Xor,
    Copy,
    AddInto,
    Scale,
    AddScaled,
}

// A coefficient that is neither 0 nor 1.
const FACTOR: u8 = 0x8e;

/// The time of a kernel.
pub fn least_kernel<R: Clock>(
    rt: &R,
    turns: Turns,
    kernel: Kernel,
    dst: &mut [u8],
    src: &[u8],
) -> Result<u64>
    requires { length dst.old ≡ length src.now }
{
    let mut least = u64::MAX;
    for _ in 0..turns.count {
        let start = Instant::now(rt)?;
        for _ in 0..turns.repeats {
            run(kernel, dst, src);
        }
        least = least.min(nanoseconds_since(rt, &start)?);
    }
    Ok(least)
}

#[inline(never)]
fn run(kernel: Kernel, dst: &mut [u8], src: &[u8])
    requires { length dst.old ≡ length src.now }
    ensures { length dst.new ≡ length dst.old }
{
    match kernel {
        Kernel::Xor => xor(dst, src),
        Kernel::Copy => dst.copy_from_slice(src),
        Kernel::AddInto => add_into(dst, src),
        Kernel::Scale => scale(dst, FACTOR),
        Kernel::AddScaled => add_scaled(dst, FACTOR, src),
    }
}

// A plain loop of exclusive or.
fn xor(dst: &mut [u8], src: &[u8])
    requires { length dst.old ≡ length src.now }
    ensures { length dst.new ≡ length dst.old }
{
    for i in 0..dst.len() {
        dst[i] ^= src[i];
    }
}
