//! Sums of chunks by rows of coefficients: a matrix times chunks, block by block. Up to three rows
//! are taken in one pass over a block.
ghost use Rattle.std.specs.Prelude.{◌≡◌, ◌*◌, ◌^◌, ◌<◌, ◌≤◌, ◌++◌, [], ◌∷◌, All, IfOk};
ghost use Rattle.std.specs.Prelude.{length, map, take};
ghost use Rattle.mf_kernel.specs.Dots.{rows as bytes_of, combined, powers_of};

use crate::chunk::{Chunk, Memory};
use crate::columns::fill_row;
use crate::filling::{fill_three, fill_two};
use crate::lanes::BLOCK;
use crate::row::{MOST, Row, TABLES, fill_tables};
use mf_field::pow;
use std::alloc::Global;

/// The sums of chunks by rows of coefficients, one for each row. The only error is want of memory.
pub fn combine_all(
    alloc: Global,
    rows: &[Vec<u8>],
    chunks: &[Chunk],
    size: usize,
) -> Result<Vec<Vec<u8>>, Memory>
    requires coefficients { All (λ row. length row ≡ length chunks.now) (bytes_of rows.now) }
    requires columns { All (λ chunk. size ≤ length chunk) chunks.now }
    ensures { IfOk result (λ lists. bytes_of lists.items
        ≡ map (combined size chunks.now) (bytes_of rows.now)) }
{
    let mut lists = Vec::with_capacity(alloc, rows.len())?;
    let mut done = 0;
    while done < rows.len() {
        done += push_sums(alloc, &rows[done..], chunks, size, &mut lists)?;
    }
    Ok(lists)
}

/// The row of the powers of a point with the exponents 0, `step`, 2 * `step` and so on, `count` of
/// them. The only error is want of memory.
pub fn powers(alloc: Global, point: u8, step: u32, count: usize) -> Result<Vec<u8>, Memory>
    requires count { count < 2 ^ 32 }
    requires exponents { count * step < 2 ^ 32 }
    ensures { IfOk result (λ row. row.items ≡ powers_of count step point) }
{
    let mut row = Vec::with_capacity(alloc, count)?;
    for t in 0..count {
        row.push(pow(point, t as u32 * step))?;
    }
    Ok(row)
}

// Adds the sums by the first one, two or three rows, as many as one pass makes, and tells how many.
fn push_sums(
    alloc: Global,
    rows: &[Vec<u8>],
    chunks: &[Chunk],
    size: usize,
    lists: &mut Vec<Vec<u8>>,
) -> Result<usize, Memory>
    requires some { 1 ≤ length rows.now }
    requires coefficients { All (λ row. length row ≡ length chunks.now) (bytes_of rows.now) }
    requires columns { All (λ chunk. size ≤ length chunk) chunks.now }
    ensures some { IfOk result (λ n. 1 ≤ n) }
    ensures within { IfOk result (λ n. n ≤ length rows.now) }
    ensures sums { IfOk result (λ n. bytes_of lists.new.items ≡ bytes_of lists.old.items
        ++ map (combined size chunks.now) (take n (bytes_of rows.now))) }
{
    if chunks.len() > MOST || rows.len() == 1 {
        lists.push(one_sum(alloc, &rows[0], chunks, size)?)?;
        Ok(1)
    } else if rows.len() == 2 {
        push_two(alloc, &rows[0], &rows[1], chunks, size, lists)?;
        Ok(2)
    } else {
        push_three(alloc, &rows[0], &rows[1], &rows[2], chunks, size, lists)?;
        Ok(3)
    }
}

// The sum by a row.
fn one_sum(alloc: Global, row: &[u8], chunks: &[Chunk], size: usize) -> Result<Vec<u8>, Memory>
    requires coefficients { length row.now ≡ length chunks.now }
    requires columns { All (λ chunk. size ≤ length chunk) chunks.now }
    ensures { IfOk result (λ bytes. bytes.items ≡ combined size chunks.now row.now) }
{
    let mut sum = Vec::with_capacity(alloc, size)?;
    let mut block = [0; BLOCK];
    let mut start = 0;
    while start < size {
        let count = BLOCK.min(size - start);
        fill_row(row, chunks, start, &mut block[..count]);
        sum.extend_from_slice(&block[..count])?;
        start += count;
    }
    Ok(sum)
}

// Adds the sums by two rows.
fn push_two(
    alloc: Global,
    first: &[u8],
    second: &[u8],
    chunks: &[Chunk],
    size: usize,
    lists: &mut Vec<Vec<u8>>,
) -> Result<(), Memory>
    requires few { length chunks.now ≤ 64 }
    requires first { length first.now ≡ length chunks.now }
    requires second { length second.now ≡ length chunks.now }
    requires columns { All (λ chunk. size ≤ length chunk) chunks.now }
    ensures { IfOk result (λ _. bytes_of lists.new.items ≡ bytes_of lists.old.items
        ++ map (combined size chunks.now) (first.now ∷ second.now ∷ [])) }
{
    let (mut one, mut two) = ([0; TABLES], [0; TABLES]);
    fill_tables(first, &mut one);
    fill_tables(second, &mut two);
    let sums = two_sums(
        alloc,
        &Row::new(first, &one),
        &Row::new(second, &two),
        chunks,
        size,
    )?;
    lists.push(sums.first)?;
    lists.push(sums.second)?;
    Ok(())
}

// Adds the sums by three rows.
fn push_three(
    alloc: Global,
    first: &[u8],
    second: &[u8],
    third: &[u8],
    chunks: &[Chunk],
    size: usize,
    lists: &mut Vec<Vec<u8>>,
) -> Result<(), Memory>
    requires few { length chunks.now ≤ 64 }
    requires first { length first.now ≡ length chunks.now }
    requires second { length second.now ≡ length chunks.now }
    requires third { length third.now ≡ length chunks.now }
    requires columns { All (λ chunk. size ≤ length chunk) chunks.now }
    ensures { IfOk result (λ _. bytes_of lists.new.items ≡ bytes_of lists.old.items
        ++ map (combined size chunks.now) (first.now ∷ second.now ∷ third.now ∷ [])) }
{
    let (mut one, mut two, mut three) = ([0; TABLES], [0; TABLES], [0; TABLES]);
    fill_tables(first, &mut one);
    fill_tables(second, &mut two);
    fill_tables(third, &mut three);
    let first = Row::new(first, &one);
    let sums = three_sums(
        alloc,
        &first,
        &Row::new(second, &two),
        &Row::new(third, &three),
        chunks,
        size,
    )?;
    lists.push(sums.first)?;
    lists.push(sums.second)?;
    lists.push(sums.third)?;
    Ok(())
}

#[derive(Drop)]
struct Two {
    first: Vec<u8>,
    second: Vec<u8>,
}

// The sums by two rows.
fn two_sums(
    alloc: Global,
    first: &Row,
    second: &Row,
    chunks: &[Chunk],
    size: usize,
) -> Result<Two, Memory>
    requires first { length first.now ≡ length chunks.now }
    requires second { length second.now ≡ length chunks.now }
    requires columns { All (λ chunk. size ≤ length chunk) chunks.now }
    ensures first { IfOk result (λ sums. sums.first.items ≡ combined size chunks.now first.now) }
    ensures second { IfOk result (λ sums. sums.second.items ≡ combined size chunks.now second.now) }
{
    let mut a = Vec::with_capacity(alloc, size)?;
    let mut b = Vec::with_capacity(alloc, size)?;
    let (mut x, mut y) = ([0; BLOCK], [0; BLOCK]);
    let mut start = 0;
    while start < size {
        let count = BLOCK.min(size - start);
        let (one, two) = (&mut x[..count], &mut y[..count]);
        fill_two(&*first, &*second, chunks, start, one, two);
        a.extend_from_slice(&x[..count])?;
        b.extend_from_slice(&y[..count])?;
        start += count;
    }
    Ok(Two {
        first: a,
        second: b,
    })
}

#[derive(Drop)]
struct Three {
    first: Vec<u8>,
    second: Vec<u8>,
    third: Vec<u8>,
}

// The sums by three rows.
fn three_sums(
    alloc: Global,
    first: &Row,
    second: &Row,
    third: &Row,
    chunks: &[Chunk],
    size: usize,
) -> Result<Three, Memory>
    requires first { length first.now ≡ length chunks.now }
    requires second { length second.now ≡ length chunks.now }
    requires third { length third.now ≡ length chunks.now }
    requires columns { All (λ chunk. size ≤ length chunk) chunks.now }
    ensures first { IfOk result (λ sums. sums.first.items ≡ combined size chunks.now first.now) }
    ensures second { IfOk result (λ sums. sums.second.items ≡ combined size chunks.now second.now) }
    ensures third { IfOk result (λ sums. sums.third.items ≡ combined size chunks.now third.now) }
{
    let mut a = Vec::with_capacity(alloc, size)?;
    let mut b = Vec::with_capacity(alloc, size)?;
    let mut c = Vec::with_capacity(alloc, size)?;
    let (mut x, mut y, mut z) = ([0; BLOCK], [0; BLOCK], [0; BLOCK]);
    let mut start = 0;
    while start < size {
        let count = BLOCK.min(size - start);
        let (one, two, three) = (&mut x[..count], &mut y[..count], &mut z[..count]);
        fill_three(&*first, &*second, &*third, chunks, start, one, two, three);
        a.extend_from_slice(&x[..count])?;
        b.extend_from_slice(&y[..count])?;
        c.extend_from_slice(&z[..count])?;
        start += count;
    }
    Ok(Three {
        first: a,
        second: b,
        third: c,
    })
}
