//! Sums of pieces by two or three rows at a time, kept in lanes while the pieces are gone through.
ghost use Rattle.std.specs.Prelude.{◌≡◌, ◌+◌, ◌*◌, ◌<◌, ◌≤◌, ℕ, All, length, map, slice_index};
ghost use Rattle.std.specs.Bool.{OnTrue};
ghost use Rattle.mf_code.specs.Rows.{list_of, column, added_scaled};
ghost use Rattle.mf_kernel.specs.Dots.{dot};

use crate::columns::{Bytes, fill_row};
use crate::lanes::{LANES, lanes_at, put_lanes};
use crate::row::Row;
use std::simd::prelude::*;

/// Fills `a` and `b` with the bytes from `start` on of the sums of pieces by two rows. Each piece
/// has the columns that are filled.
pub fn fill_two<'r, P: Bytes>(
    first: &Row<'r>,
    second: &Row<'r>,
    pieces: &[P],
    start: usize,
    a: &mut [u8],
    b: &mut [u8],
)
    requires first { length first.now ≡ length pieces.now }
    requires second { length second.now ≡ length pieces.now }
    requires lengths { length b.old ≡ length a.old }
    requires columns { All (λ piece. start + length a.old ≤ length piece) (map P.list pieces.now) }
    ensures first { a.new ≡ list_of (length a.old)
        (λ x. dot first.now (column (start + x) (map P.list pieces.now))) }
    ensures second { b.new ≡ list_of (length a.old)
        (λ x. dot second.now (column (start + x) (map P.list pieces.now))) }
{
    let ones = first.ones().min(second.ones());
    if a.len() < LANES {
        fill_row(first.coefficients(), pieces, start, a);
        fill_row(second.coefficients(), pieces, start, b);
    } else if first.ones() == pieces.len() {
        fill_two_by_lanes(true, ones, first, second, pieces, start, a, b);
    } else {
        fill_two_by_lanes(false, ones, first, second, pieces, start, a, b);
    }
}

/// Fills `a`, `b` and `c` with the bytes from `start` on of the sums of pieces by three rows. Each
/// piece has the columns that are filled.
pub fn fill_three<'r, P: Bytes>(
    first: &Row<'r>,
    second: &Row<'r>,
    third: &Row<'r>,
    pieces: &[P],
    start: usize,
    a: &mut [u8],
    b: &mut [u8],
    c: &mut [u8],
)
    requires first { length first.now ≡ length pieces.now }
    requires second { length second.now ≡ length pieces.now }
    requires third { length third.now ≡ length pieces.now }
    requires lengths { (length b.old ≡ length a.old) × (length c.old ≡ length a.old) }
    requires columns { All (λ piece. start + length a.old ≤ length piece) (map P.list pieces.now) }
    ensures first { a.new ≡ list_of (length a.old)
        (λ x. dot first.now (column (start + x) (map P.list pieces.now))) }
    ensures second { b.new ≡ list_of (length a.old)
        (λ x. dot second.now (column (start + x) (map P.list pieces.now))) }
    ensures third { c.new ≡ list_of (length a.old)
        (λ x. dot third.now (column (start + x) (map P.list pieces.now))) }
{
    let ones = first.ones().min(second.ones()).min(third.ones());
    if a.len() < LANES {
        fill_row(first.coefficients(), pieces, start, a);
        fill_row(second.coefficients(), pieces, start, b);
        fill_row(third.coefficients(), pieces, start, c);
    } else if first.ones() == pieces.len() {
        fill_three_by_lanes(true, ones, first, second, third, pieces, start, a, b, c);
    } else {
        fill_three_by_lanes(false, ones, first, second, third, pieces, start, a, b, c);
    }
}

// The same of two rows, by lanes. `is_plain` says that the first has ones alone, and each begins
// with so many ones.
#[inline(always)]
fn fill_two_by_lanes<'r, P: Bytes>(
    is_plain: bool,
    ones: usize,
    first: &Row<'r>,
    second: &Row<'r>,
    pieces: &[P],
    start: usize,
    a: &mut [u8],
    b: &mut [u8],
)
    requires plain { OnTrue is_plain
        ((t : ℕ) → t < length first.now → slice_index first.now t ≡ 1) }
    requires few { ones ≤ length pieces.now }
    requires ones { (t : ℕ) → t < ones → (slice_index first.now t ≡ 1)
        × (slice_index second.now t ≡ 1) }
    requires first { length first.now ≡ length pieces.now }
    requires second { length second.now ≡ length pieces.now }
    requires lengths { length b.old ≡ length a.old }
    requires columns { All (λ piece. start + length a.old ≤ length piece) (map P.list pieces.now) }
    requires lanes { 32 ≤ length a.old }
    ensures first { a.new ≡ list_of (length a.old)
        (λ x. dot first.now (column (start + x) (map P.list pieces.now))) }
    ensures second { b.new ≡ list_of (length a.old)
        (λ x. dot second.now (column (start + x) (map P.list pieces.now))) }
{
    for block in 0..a.len().div_ceil(LANES) {
        let at = block_start(block, a.len());
        let sums = lane_sums(is_plain, ones, first, second, second, pieces, start, at);
        put_lanes(a, at, sums.first);
        put_lanes(b, at, sums.second);
    }
}

// The same of three rows, by lanes.
#[inline(always)]
fn fill_three_by_lanes<'r, P: Bytes>(
    is_plain: bool,
    ones: usize,
    first: &Row<'r>,
    second: &Row<'r>,
    third: &Row<'r>,
    pieces: &[P],
    start: usize,
    a: &mut [u8],
    b: &mut [u8],
    c: &mut [u8],
)
    requires plain { OnTrue is_plain
        ((t : ℕ) → t < length first.now → slice_index first.now t ≡ 1) }
    requires few { ones ≤ length pieces.now }
    requires ones { (t : ℕ) → t < ones → (slice_index first.now t ≡ 1)
        × (slice_index second.now t ≡ 1) × (slice_index third.now t ≡ 1) }
    requires first { length first.now ≡ length pieces.now }
    requires second { length second.now ≡ length pieces.now }
    requires third { length third.now ≡ length pieces.now }
    requires lengths { (length b.old ≡ length a.old) × (length c.old ≡ length a.old) }
    requires columns { All (λ piece. start + length a.old ≤ length piece) (map P.list pieces.now) }
    requires lanes { 32 ≤ length a.old }
    ensures first { a.new ≡ list_of (length a.old)
        (λ x. dot first.now (column (start + x) (map P.list pieces.now))) }
    ensures second { b.new ≡ list_of (length a.old)
        (λ x. dot second.now (column (start + x) (map P.list pieces.now))) }
    ensures third { c.new ≡ list_of (length a.old)
        (λ x. dot third.now (column (start + x) (map P.list pieces.now))) }
{
    for block in 0..a.len().div_ceil(LANES) {
        let at = block_start(block, a.len());
        let sums = lane_sums(is_plain, ones, first, second, third, pieces, start, at);
        put_lanes(a, at, sums.first);
        put_lanes(b, at, sums.second);
        put_lanes(c, at, sums.third);
    }
}

// Where a block begins: the last one ends with the bytes, and may begin within the one before it.
#[inline(always)]
fn block_start(block: usize, size: usize) -> usize
    requires lanes { 32 ≤ size }
    requires begins { block * 32 < size }
    ensures within { result + 32 ≤ size }
    ensures joined { result ≤ block * 32 }
    ensures reach { (k : ℕ) → k < (block + 1) * 32 → k < size → k < result + 32 }
{
    (block * LANES).min(size - LANES)
}

// The lanes of three sums.
#[derive(Drop)]
struct LaneSums {
    first: u8x32,
    second: u8x32,
    third: u8x32,
}

// The sums of the pieces' lanes from `start + at` on, by three rows, each of which begins with so
// many ones. `is_plain` says that the first has ones alone.
#[inline(always)]
fn lane_sums<'r, P: Bytes>(
    is_plain: bool,
    ones: usize,
    first: &Row<'r>,
    second: &Row<'r>,
    third: &Row<'r>,
    pieces: &[P],
    start: usize,
    at: usize,
) -> LaneSums
    requires plain { OnTrue is_plain
        ((t : ℕ) → t < length first.now → slice_index first.now t ≡ 1) }
    requires few { ones ≤ length pieces.now }
    requires ones { (t : ℕ) → t < ones → (slice_index first.now t ≡ 1)
        × (slice_index second.now t ≡ 1) × (slice_index third.now t ≡ 1) }
    requires first { length first.now ≡ length pieces.now }
    requires second { length second.now ≡ length pieces.now }
    requires third { length third.now ≡ length pieces.now }
    requires columns { All (λ piece. start + at + 32 ≤ length piece) (map P.list pieces.now) }
    ensures lengths { (length result.first ≡ 32) × (length result.second ≡ 32)
        × (length result.third ≡ 32) }
    ensures first { (x : ℕ) → x < 32 → slice_index result.first x
        ≡ dot first.now (column (start + (at + x)) (map P.list pieces.now)) }
    ensures second { (x : ℕ) → x < 32 → slice_index result.second x
        ≡ dot second.now (column (start + (at + x)) (map P.list pieces.now)) }
    ensures third { (x : ℕ) → x < 32 → slice_index result.third x
        ≡ dot third.now (column (start + (at + x)) (map P.list pieces.now)) }
{
    let mut plain = u8x32::splat(0);
    for t in 0..ones {
        plain = add_plain(plain, lanes_at(pieces[t].bytes(), start + at));
    }
    let (mut a, mut b, mut c) = (plain, plain, plain);
    for t in ones..pieces.len() {
        let lanes = lanes_at(pieces[t].bytes(), start + at);
        a = add_first(is_plain, first, t, a, lanes);
        b = second.add_product(t, b, lanes);
        c = third.add_product(t, c, lanes);
    }
    LaneSums {
        first: a,
        second: b,
        third: c,
    }
}

// The sums with the products by coefficient t, of a row of ones alone or of another one.
#[inline(always)]
fn add_first(is_plain: bool, row: &Row, t: usize, sums: u8x32, lanes: u8x32) -> u8x32
    requires place { t < length row.now }
    requires plain { OnTrue is_plain (slice_index row.now t ≡ 1) }
    ensures { result ≡ added_scaled sums (slice_index row.now t) lanes }
{
    if is_plain {
        add_plain(sums, lanes)
    } else {
        row.add_product(t, sums, lanes)
    }
}

// The sums with the lanes, which is with 1 times the lanes.
#[inline(always)]
fn add_plain(sums: u8x32, lanes: u8x32) -> u8x32
    ensures { result ≡ added_scaled sums 1 lanes }
{
    sums ^ lanes
}
