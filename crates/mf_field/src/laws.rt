//! The laws of the field. Each is a function that does nothing, whose contract is the law at its
//! arguments: a call costs nothing and tells the caller the law. `times` and `power` are what `mul`
//! and `pow` answer, and `bit_xor` is what `add` answers.
ghost use Rattle.std.specs.Prelude.{◌≡◌, ◌⊎◌, ℕ, ◌+◌, ◌*◌, ◌<◌, ◌≤◌, bit_xor, length, slice_index};
ghost use Rattle.mf_code.specs.Field.{times, power};
ghost use Rattle.mf_code.specs.Sums.{sum_below, weighted};
ghost use Rattle.mf_field.specs.Unique.{OneBelow};

/// The order of two terms is free.
pub fn add_commutes(a: u8, b: u8)
    ensures { bit_xor a b ≡ bit_xor b a }
{}

/// The grouping of three terms is free.
pub fn add_associates(a: u8, b: u8, c: u8)
    ensures { bit_xor (bit_xor a b) c ≡ bit_xor a (bit_xor b c) }
{}

/// 0 is neutral, and each element is its own opposite.
pub fn add_neutral(a: u8)
    ensures neutral { bit_xor a 0 ≡ a }
    ensures opposite { bit_xor a a ≡ 0 }
{}

/// The order of two factors is free.
pub fn mul_commutes(a: u8, b: u8)
    ensures { times a b ≡ times b a }
{}

/// The grouping of three factors is free.
pub fn mul_associates(a: u8, b: u8, c: u8)
    ensures { times (times a b) c ≡ times a (times b c) }
{}

/// 1 is neutral on both sides.
pub fn mul_neutral(a: u8)
    ensures right { times a 1 ≡ a }
    ensures left { times 1 a ≡ a }
{}

/// A product with a sum is the sum of the products.
pub fn mul_distributes(a: u8, b: u8, c: u8)
    ensures right { times a (bit_xor b c) ≡ bit_xor (times a b) (times a c) }
    ensures left { times (bit_xor b c) a ≡ bit_xor (times b a) (times c a) }
{}

/// A product is 0 only where a factor is, and with 0 always.
pub fn no_zero_divisors(a: u8, b: u8)
    ensures product { times a b ≡ 0 → (a ≡ 0) ⊎ (b ≡ 0) }
    ensures right { times a 0 ≡ 0 }
    ensures left { times 0 a ≡ 0 }
{}

/// Each element but 0 has exactly one inverse.
pub fn inverse_is_unique(a: u8)
    requires { 0 < a }
    ensures { OneBelow 256 (λ b. times a b ≡ 1) }
{}

/// Each element but 0 is the power of 2 with exactly one exponent below 255.
pub fn two_generates(a: u8)
    requires { 0 < a }
    ensures { OneBelow 255 (λ e. power 2 e ≡ a) }
{}

/// A power with a sum of exponents is the product of the powers.
pub fn pow_of_sum(a: u8, m: u32, n: u32)
    ensures { power a (m + n) ≡ times (power a m) (power a n) }
{}

/// A power with a product of exponents is a power of a power.
pub fn pow_of_product(a: u8, m: u32, n: u32)
    ensures { power a (m * n) ≡ power (power a m) n }
{}

/// Merging: let x be a list of bytes, with zeros behind it. The sum, over n blocks b of k bytes
/// each, of `point ^ (b * k)` times the sum of the block by the point, is the sum of all n * k
/// bytes by the point. Where the blocks reach the end of the list, this is the sum of the list by
/// the point.
pub fn merging(point: u8, x: &[u8], n: usize, k: usize)
    ensures blocks { sum_below n (λ b. times (power point (b * k))
        (sum_below k (λ i. times (power point i) (slice_index x.now (b * k + i)))))
        ≡ sum_below (n * k) (λ t. times (power point t) (slice_index x.now t)) }
    ensures whole { length x.now ≤ n * k
        → sum_below (n * k) (λ t. times (power point t) (slice_index x.now t))
        ≡ weighted point x.now }
{}
