//! A factor of many bytes: its products with the two halves of a byte stand in tables, which lanes
//! look up.
ghost use Rattle.std.specs.Prelude.{◌≡◌, ◌+◌, ◌*◌, ◌/◌, ◌^◌, ◌<◌, ◌++◌, ℕ, List, bit_xor};
ghost use Rattle.std.specs.Prelude.{bit_and, length, map, slice_index};
ghost use Rattle.mf_code.specs.Field.{times};
ghost use Rattle.mf_code.specs.Rows.{scaled, added_scaled};
ghost use Rattle.mf_kernel.specs.Tables.{IsTable, entries};

use mf_field::mul;
use std::marker::Model;
use std::simd::prelude::*;

/// A factor with its tables. It is seen as the byte that it is.
#[derive(Drop)]
pub(crate) struct Factor {
    value: u8,
    low: u8x32,
    high: u8x32,
}

impl Model for Factor {
    ghost use Rattle.std.specs.Prelude.{ℕ, ◌*◌, ◌^◌};
    ghost use Rattle.mf_code.specs.Field.{times};
    ghost use Rattle.mf_kernel.specs.Tables.{IsTable};

    ghost Value = { ℕ };

    ghost view = { λ f. f.value };

    ghost invariant = { λ f. IsTable (λ n. times f.value n) f.low
        × IsTable (λ n. times f.value (n * 2 ^ 4)) f.high };
}

impl Factor {
    /// The factor of this value.
    pub(crate) fn new(value: u8) -> Factor
        ensures { result ≡ value }
    {
        let low = table(value, mul(value, 2), mul(value, 4), mul(value, 8));
        let high = table(
            mul(value, 16),
            mul(value, 32),
            mul(value, 64),
            mul(value, 128),
        );
        Factor { value, low, high }
    }

    /// The factor as a byte.
    #[inline(always)]
    pub(crate) fn value(&self) -> u8
        ensures { result ≡ self.now }
    {
        self.value
    }

    /// The products with 0 to 15, and then with 16 times these.
    pub(crate) fn tables(&self) -> u8x32
        ensures length { length result ≡ 32 }
        ensures lower { (n : ℕ) → n < 16 → slice_index result n ≡ times self.now n }
        ensures upper { (n : ℕ) → n < 16 → slice_index result (16 + n)
            ≡ times self.now (n * 2 ^ 4) }
    {
        self.low.shuffle(
            self.high,
            [
                0, 1, 2, 3, 4, 5, 6, 7, 8, 9, 10, 11, 12, 13, 14, 15, 48, 49, 50, 51, 52, 53, 54,
                55, 56, 57, 58, 59, 60, 61, 62, 63,
            ],
        )
    }

    /// The products by the factor, lane by lane.
    #[inline(always)]
    pub(crate) fn product(&self, lanes: u8x32) -> u8x32
        ensures { result ≡ scaled self.now lanes }
    {
        by_lower(self.low, lanes) ^ by_upper(self.high, lanes)
    }

    /// The sums with the products by the factor, lane by lane.
    #[inline(always)]
    pub(crate) fn add_product(&self, sums: u8x32, lanes: u8x32) -> u8x32
        ensures { result ≡ added_scaled sums self.now lanes }
    {
        sums ^ by_lower(self.low, lanes) ^ by_upper(self.high, lanes)
    }
}

// The sums of the four bytes, twice: entry n has those at whose places n has a one.
fn table(a: u8, b: u8, c: u8, d: u8) -> u8x32
    ensures { result ≡ entries a b c d ++ entries a b c d }
{
    let (ab, cd) = (b ^ a, d ^ c);
    let (ac, bc, abc) = (c ^ a, c ^ b, c ^ ab);
    let (ad, bd, abd) = (d ^ a, d ^ b, d ^ ab);
    let (acd, bcd, abcd) = (cd ^ a, cd ^ b, cd ^ ab);
    u8x32::from_array([
        0, a, b, ab, c, ac, bc, abc, d, ad, bd, abd, cd, acd, bcd, abcd, 0, a, b, ab, c, ac, bc,
        abc, d, ad, bd, abd, cd, acd, bcd, abcd,
    ])
}

/// What a table has for the lower half of each lane.
#[inline(always)]
pub(crate) fn by_lower(table: u8x32, lanes: u8x32) -> u8x32
    ensures { (f : ℕ → ℕ) → IsTable f table → result ≡ map (λ b. f (bit_and b 15)) lanes }
{
    table.swizzle_dyn_within::<16>(lanes & u8x32::splat(15))
}

/// What a table has for the upper half of each lane.
#[inline(always)]
pub(crate) fn by_upper(table: u8x32, lanes: u8x32) -> u8x32
    ensures { (f : ℕ → ℕ) → IsTable f table → result ≡ map (λ b. f (b / 16)) lanes }
{
    table.swizzle_dyn_within::<16>(lanes >> u8x32::splat(4))
}
