//! The field of 256 elements, which are the bytes. Addition is exclusive or, and multiplication is
//! that of polynomials over the field of two elements modulo `x^8 + x^4 + x^3 + x^2 + 1`, which is
//! 0x11D. No call takes memory, and none fails; `inv` has no answer for 0 alone.
//!
//! The arguments are bytes, 0 to 255; an exponent is a u32. `pow(a, 0)` is 1, also for a = 0.
//! `laws` has the laws of the field and the merging identity, each as the contract of a function
//! that does nothing.
//!
//! ```text
//! mul(2, 128) == 29      // 2^8 is 0x11D without its highest bit
//! inv(2) == Some(142)
//! inv(0) == None
//! ```
//!
//! *Proved.* `add`, `mul`, `pow` are exclusive or, *product* and *power*; `inv` is None exactly for
//! 0 and else the inverse; `laws` has the field's laws, that 2 generates all 255 elements, the laws
//! of powers, and the merging identity, each as the contract of a function.
//!
//! *Neither.* Speed.
#![tactic(auto)]

ghost use Rattle.std.specs.Prelude.{◌≡◌, ◌↔◌, bit_xor, IsNone, IfSome};
ghost use Rattle.mf_code.specs.Field.{times, power};

pub mod laws;
mod tables;

use tables::{exponent, power_of_two};

/// The sum of two elements, which is also their difference.
pub fn add(a: u8, b: u8) -> u8
    ensures { result ≡ bit_xor a b }
{
    a ^ b
}

/// The product of two elements.
pub fn mul(a: u8, b: u8) -> u8
    ensures { result ≡ times a b }
{
    if a == 0 || b == 0 {
        0
    } else {
        power_of_two(exponent(a) + exponent(b))
    }
}

/// The product of e factors a. It is 1 where e is 0, also for a = 0.
pub fn pow(a: u8, e: u32) -> u8
    ensures { result ≡ power a e }
{
    if e == 0 {
        1
    } else if a == 0 {
        0
    } else {
        power_of_two(exponent(a) * e as usize % 255)
    }
}

/// The element whose product with a is 1. There is none exactly for 0.
pub fn inv(a: u8) -> Option<u8>
    ensures none { IsNone result ↔ (a ≡ 0) }
    ensures product { IfSome result (λ b. times a b ≡ 1) }
{
    if a == 0 {
        None
    } else {
        Some(power_of_two(255 - exponent(a)))
    }
}
