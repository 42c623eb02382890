//! Rows of coefficients with tables: the products of each coefficient with the two halves of a
//! byte, which lanes look up. The tables stand in room of the caller's, so that they take no
//! memory.
ghost use Rattle.std.specs.Prelude.{◌≡◌, ◌+◌, ◌*◌, ◌<◌, ◌≤◌, ℕ, length, slice_index};
ghost use Rattle.mf_code.specs.Rows.{added_scaled};
ghost use Rattle.mf_kernel.specs.Tables.{AreTables, IsTable};

use crate::factor::{Factor, by_lower, by_upper};
use crate::lanes::put_lanes;
use std::marker::Model;
use std::simd::prelude::*;

/// The most coefficients of a row that has tables.
pub const MOST: usize = 64;

/// The bytes of the tables of so many coefficients.
pub const TABLES: usize = 2_048;

// The bytes of the tables of one coefficient.
const EACH: usize = 32;

/// A row of coefficients with its tables. It is seen as the coefficients.
#[derive(Drop)]
pub struct Row<'a> {
    coefficients: &'a [u8],
    tables: &'a [u8],
}

impl<'a> Model for Row<'a> {
    ghost use Rattle.std.specs.Prelude.{List, ℕ};
    ghost use Rattle.mf_kernel.specs.Tables.{AreTables};

    ghost Value = { List ℕ };

    ghost view = { λ row. row.coefficients.now };

    ghost invariant = { λ row. AreTables row.coefficients.now row.tables.now };
}

impl<'a> Row<'a> {
    /// The row of these coefficients, of which these are the tables.
    pub fn new(coefficients: &'a [u8], tables: &'a [u8]) -> Row<'a>
        requires { AreTables coefficients.now tables.now }
        ensures { result ≡ coefficients.now }
    {
        Row {
            coefficients,
            tables,
        }
    }

    /// The coefficients.
    pub(crate) fn coefficients(&self) -> &[u8]
        ensures { result.now ≡ self.now }
    {
        self.coefficients
    }

    /// How many ones it begins with.
    pub(crate) fn ones(&self) -> usize
        ensures within { result ≤ length self.now }
        ensures ones { (t : ℕ) → t < result → slice_index self.now t ≡ 1 }
    {
        leading_ones(self.coefficients)
    }

    /// The sums with the products by coefficient t, lane by lane.
    #[inline(always)]
    pub(crate) fn add_product(&self, t: usize, sums: u8x32, lanes: u8x32) -> u8x32
        requires { t < length self.now }
        ensures { result ≡ added_scaled sums (slice_index self.now t) lanes }
    {
        let low = twice(self.tables, t * EACH);
        let high = twice(self.tables, t * EACH + 16);
        sums ^ by_lower(low, lanes) ^ by_upper(high, lanes)
    }
}

/// Writes the tables of a row.
pub fn fill_tables(row: &[u8], tables: &mut [u8])
    requires { length row.now * 32 ≤ length tables.old }
    ensures length { length tables.new ≡ length tables.old }
    ensures tables { AreTables row.now tables.new }
{
    for (t, coefficient) in row.iter().enumerate() {
        put_lanes(tables, t * EACH, Factor::new(*coefficient).tables());
    }
}

// How many ones a list begins with.
fn leading_ones(coefficients: &[u8]) -> usize
    ensures within { result ≤ length coefficients.now }
    ensures ones { (t : ℕ) → t < result → slice_index coefficients.now t ≡ 1 }
{
    for (t, coefficient) in coefficients.iter().enumerate() {
        if *coefficient != 1 {
            return t;
        }
    }
    coefficients.len()
}

// The 16 bytes from `at` on, twice.
#[inline(always)]
fn twice(bytes: &[u8], at: usize) -> u8x32
    requires { at + 16 ≤ length bytes.now }
    ensures { (f : ℕ → ℕ) → ((n : ℕ) → n < 16 → slice_index bytes.now (at + n) ≡ f n)
        → IsTable f result }
{
    u8x16::from_slice(&bytes[at..]).swizzle([
        0, 1, 2, 3, 4, 5, 6, 7, 8, 9, 10, 11, 12, 13, 14, 15, 0, 1, 2, 3, 4, 5, 6, 7, 8, 9, 10, 11,
        12, 13, 14, 15,
    ])
}
