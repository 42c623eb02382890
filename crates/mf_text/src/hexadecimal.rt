//! Bytes in hexadecimal.

ghost use Rattle.std.specs.Prelude.{◌≡◌, ◌+◌, ◌*◌, ◌<◌, ◌&&◌, ◌++◌, true, false, MatchOption};
ghost use Rattle.std.specs.Prelude.{IfOk, IfErr, OnOk, OnErr, Some};
ghost use Rattle.mf_text.specs.Hex.{hex_digit, is_hex_digit, hex_digit_value};
ghost use Rattle.mf_text.specs.Hex.{hex_text, hex_of, IsHexFault};

use std::alloc::{AllocError, AllocFailed, Global};
use std::fmt;

/// Why a word has no bytes.
#[derive(Drop)]
pub enum HexFault {
    /// The word is empty, of odd length, or has a byte outside `0` to `9` and `a` to `f`.
    Shape,
    /// Memory ran out.
    Memory,
}

impl From<AllocError> for HexFault {
    ghost use Rattle.mf_text.specs.declared.hexadecimal.HexFault.TheVariants.{Memory};

    ghost from_gives = { λ _ e. e ≡ Memory };

    fn from(_e: AllocError) -> HexFault {
        HexFault::Memory
    }
}

impl<T: Drop> From<AllocFailed<T>> for HexFault {
    ghost use Rattle.mf_text.specs.declared.hexadecimal.HexFault.TheVariants.{Memory};

    ghost from_gives = { λ _ e. e ≡ Memory };

    fn from(_e: AllocFailed<T>) -> HexFault {
        HexFault::Memory
    }
}

fn digit_of(value: u8) -> u8
    requires { value < 16 }
    ensures { result ≡ hex_digit value }
{
    if value < 10 {
        b'0' + value
    } else {
        b'a' - 10 + value
    }
}

fn value_of(digit: u8) -> Option<u8>
    ensures { MatchOption result (is_hex_digit digit ≡ false)
        (λ v. (is_hex_digit digit ≡ true) × (v ≡ hex_digit_value digit) × (v < 16)) }
{
    match digit {
        b'0'..=b'9' => Some(digit - b'0'),
        b'a'..=b'f' => Some(digit - b'a' + 10),
        _ => None,
    }
}

// The byte of two digits, the high one first.
fn byte_of(high: u8, low: u8) -> Option<u8>
    ensures { MatchOption result ((is_hex_digit high && is_hex_digit low) ≡ false)
        (λ b. ((is_hex_digit high && is_hex_digit low) ≡ true)
        × (b ≡ 16 * hex_digit_value high + hex_digit_value low)) }
{
    Some(16 * value_of(high)? + value_of(low)?)
}

/// The bytes that a word spells, two lower-case digits each.
///
/// # Errors
/// `Shape` exactly where the word is empty, of odd length, or has a byte outside `0` to `9` and `a`
/// to `f`; `Memory` where memory ran out.
pub fn hex_bytes(alloc: Global, word: &[u8]) -> Result<Vec<u8>, HexFault>
    ensures value { IfOk result (λ v. hex_of word.now ≡ Some v.items) }
    ensures spelled { IfOk result (λ v. word.now ≡ hex_text v.items) }
    ensures fault { IfErr result (IsHexFault word.now) }
{
    if word.is_empty() || word.len() % 2 != 0 {
        return Err(HexFault::Shape);
    }
    let mut bytes = Vec::new(alloc);
    let mut rest = word;
    while let [high, low, after @ ..] = rest {
        let Some(byte) = byte_of(*high, *low) else {
            return Err(HexFault::Shape);
        };
        bytes.push(byte)?;
        rest = after;
    }
    Ok(bytes)
}

/// Writes bytes at the end, two lower-case digits each. Fails only where memory runs out, and then
/// `out` is as before.
pub fn push_hex(out: &mut Vec<u8>, bytes: &[u8]) -> Result<(), AllocError>
    ensures ok { OnOk result (out.new.items ≡ out.old.items ++ hex_text bytes.now) }
    ensures err { OnErr result (out.new.items ≡ out.old.items) }
{
    let len = out.len();
    for byte in bytes {
        let digits = [digit_of(*byte / 16), digit_of(*byte % 16)];
        if out.extend_from_slice(&digits).is_err() {
            out.truncate(len);
            return Err(AllocError);
        }
    }
    Ok(())
}

/// Bytes as they are spelled: two lower-case digits each.
#[derive(Clone, Copy)]
pub struct Hex<'a> {
    pub bytes: &'a [u8],
}

impl fmt::Display for Hex<'_> {
    ghost use Rattle.std.specs.Prelude.{Some};
    ghost use Rattle.mf_text.specs.Hex.{hex_text};

    ghost output = { λ hex. Some (hex_text hex.bytes.now) };

    fn fmt<W: fmt::Write>(&self, f: &mut fmt::Formatter<W>) -> fmt::Result {
        for byte in self.bytes {
            let high = *byte / 16;
            let low = *byte % 16;
            write!(f, "{high:x}{low:x}")?;
        }
        Ok(())
    }
}
