//! Sums and products over byte slices, by lanes as far as they go and then byte by byte.
ghost use Rattle.std.specs.Prelude.{◌≡◌, ◌+◌, ◌<◌, ◌≤◌, ℕ, length, slice_index, bit_xor};
ghost use Rattle.mf_code.specs.Field.{times};
ghost use Rattle.mf_code.specs.Rows.{added, scaled, added_scaled};

use crate::factor::Factor;
use crate::lanes::{LANES, lanes_at, put_lanes};
use mf_field::{add, mul};

/// Adds `src` to `dst`, byte by byte. The two have one length.
pub fn add_into(dst: &mut [u8], src: &[u8])
    requires { length dst.old ≡ length src.now }
    ensures { dst.new ≡ added dst.old src.now }
{
    let blocks = src.len() / LANES;
    for block in 0..blocks {
        add_lanes(dst, src, block * LANES);
    }
    for i in blocks * LANES..src.len() {
        dst[i] = add(dst[i], src[i]);
    }
}

/// Multiplies each byte of `dst` by `c`.
pub fn scale(dst: &mut [u8], c: u8)
    ensures { dst.new ≡ scaled c dst.old }
{
    match c {
        0 => dst.fill(0),
        1 => {}
        _ => multiply(dst, &Factor::new(c)),
    }
}

/// Adds `c` times `src` to `dst`, byte by byte. The two have one length.
pub fn add_scaled(dst: &mut [u8], c: u8, src: &[u8])
    requires { length dst.old ≡ length src.now }
    ensures { dst.new ≡ added_scaled dst.old c src.now }
{
    match c {
        0 => {}
        1 => add_into(dst, src),
        _ => add_products(dst, &Factor::new(c), src),
    }
}

// Multiplies each byte of `dst` by the factor.
fn multiply(dst: &mut [u8], factor: &Factor)
    ensures { dst.new ≡ scaled factor.now dst.old }
{
    let blocks = dst.len() / LANES;
    for block in 0..blocks {
        multiply_lanes(dst, factor, block * LANES);
    }
    for i in blocks * LANES..dst.len() {
        dst[i] = mul(factor.value(), dst[i]);
    }
}

// Adds the factor times `src` to `dst`. Two blocks at a time are a tenth faster than one.
fn add_products(dst: &mut [u8], factor: &Factor, src: &[u8])
    requires { length dst.old ≡ length src.now }
    ensures { dst.new ≡ added_scaled dst.old factor.now src.now }
{
    let pairs = src.len() / (2 * LANES);
    for pair in 0..pairs {
        let at = pair * 2 * LANES;
        add_product_lanes(dst, factor, src, at);
        add_product_lanes(dst, factor, src, at + LANES);
    }
    let blocks = src.len() / LANES;
    for block in pairs * 2..blocks {
        add_product_lanes(dst, factor, src, block * LANES);
    }
    for i in blocks * LANES..src.len() {
        dst[i] = add(dst[i], mul(factor.value(), src[i]));
    }
}

// Adds the lanes of `src` from `at` on to those of `dst`.
#[inline(always)]
fn add_lanes(dst: &mut [u8], src: &[u8], at: usize)
    requires lengths { length dst.old ≡ length src.now }
    requires room { at + 32 ≤ length src.now }
    ensures length { length dst.new ≡ length dst.old }
    ensures lanes { (k : ℕ) → at ≤ k → k < at + 32 → slice_index dst.new k
        ≡ bit_xor (slice_index dst.old k) (slice_index src.now k) }
    ensures below { (k : ℕ) → k < at → slice_index dst.new k ≡ slice_index dst.old k }
    ensures above { (k : ℕ) → at + 32 ≤ k → slice_index dst.new k ≡ slice_index dst.old k }
{
    let sums = lanes_at(dst, at) ^ lanes_at(src, at);
    put_lanes(dst, at, sums);
}

// Multiplies the lanes of `dst` from `at` on by the factor.
#[inline(always)]
fn multiply_lanes(dst: &mut [u8], factor: &Factor, at: usize)
    requires { at + 32 ≤ length dst.old }
    ensures length { length dst.new ≡ length dst.old }
    ensures lanes { (k : ℕ) → at ≤ k → k < at + 32 → slice_index dst.new k
        ≡ times factor.now (slice_index dst.old k) }
    ensures below { (k : ℕ) → k < at → slice_index dst.new k ≡ slice_index dst.old k }
    ensures above { (k : ℕ) → at + 32 ≤ k → slice_index dst.new k ≡ slice_index dst.old k }
{
    let products = factor.product(lanes_at(dst, at));
    put_lanes(dst, at, products);
}

// Adds the factor times the lanes of `src` from `at` on to those of `dst`.
#[inline(always)]
fn add_product_lanes(dst: &mut [u8], factor: &Factor, src: &[u8], at: usize)
    requires lengths { length dst.old ≡ length src.now }
    requires room { at + 32 ≤ length src.now }
    ensures length { length dst.new ≡ length dst.old }
    ensures lanes { (k : ℕ) → at ≤ k → k < at + 32 → slice_index dst.new k
        ≡ bit_xor (slice_index dst.old k) (times factor.now (slice_index src.now k)) }
    ensures below { (k : ℕ) → k < at → slice_index dst.new k ≡ slice_index dst.old k }
    ensures above { (k : ℕ) → at + 32 ≤ k → slice_index dst.new k ≡ slice_index dst.old k }
{
    let sums = factor.add_product(lanes_at(dst, at), lanes_at(src, at));
    put_lanes(dst, at, sums);
}
