//! Decimal numbers of 64 bits.

ghost use Rattle.std.specs.Prelude.{◌≡◌, ◌≢◌, ◌↔◌, IsTrue, ℕ, ◌+◌, ◌<◌, ◌^◌, ◌++◌, Some};
ghost use Rattle.std.specs.Prelude.{IfSome, IfNone, OnOk, OnErr};
ghost use Rattle.mf_text.specs.Decimal.{Leads, decimal_text, decimal_of};

use std::alloc::AllocError;

// Whether a word begins as a number does: with a digit, and with `0` only where it is the whole
// word.
fn leads(word: &[u8]) -> bool
    ensures { IsTrue result ↔ Leads word.now }
{
    !word.is_empty() && word[0].is_ascii_digit() && (word[0] != b'0' || word.len() == 1)
}

/// The number that a word spells: one or more digits without a leading zero, but for `0` itself, of
/// at most the greatest u64. Any other word is None.
pub fn decimal(word: &[u8]) -> Option<u64>
    ensures value { result ≡ decimal_of word.now }
    ensures some { IfSome result (λ n. word.now ≡ decimal_text n) }
    ensures none { IfNone result ((n : ℕ) → n < 2 ^ 64 → word.now ≢ decimal_text n) }

    // What is written for a number reads back as that number.
    ensures reads_back { (n : ℕ) → n < 2 ^ 64 → word.now ≡ decimal_text n → result ≡ Some n }
{
    if !leads(word) {
        return None;
    }
    str::from_utf8(word).ok()?.parse().ok()
}

#[tactic(auto, unfolding(crate::specs::Decimal::decimal_text))]
/// Writes a number at the end, without leading zeros. Fails only where memory runs out, and then
/// `out` is as before.
pub fn push_decimal(out: &mut Vec<u8>, n: u64) -> Result<(), AllocError>
    ensures ok { OnOk result (out.new.items ≡ out.old.items ++ decimal_text n) }
    ensures err { OnErr result (out.new.items ≡ out.old.items) }
{
    let mut digits = itoa::Buffer::new();
    out.extend_from_slice(digits.format(n).as_bytes())
}
