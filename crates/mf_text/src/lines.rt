//! The lines of a text.

ghost use Rattle.std.specs.Prelude.{◌≡◌, ◌+◌, ◌<◌, ◌≤◌, ◌==◌, not, position, length, map, All};
ghost use Rattle.std.specs.Prelude.{IfOk, IfErr, OnOk, None};
ghost use Rattle.mf_text.specs.Lines.{lines_of, line_spans, piece, IsWithin, IsFirstLine};
ghost use Rattle.mf_text.specs.Lines.{is_printable, text_fault, IsSplitFault};

use std::alloc::{AllocError, AllocFailed, Global};

/// The greatest number of bytes of a text.
pub const TEXT_LIMIT: usize = 1_048_576;

const LF: u8 = b'\n';

const CR: u8 = b'\r';

/// A part of a text or of a line: from the byte at `start` to before the byte at `end`.
#[derive(Clone, Copy)]
pub struct Span {
    pub start: usize,
    pub end: usize,
}

/// The place of a byte that may not stand in a line, both from 1.
#[derive(Clone, Copy)]
pub struct TextFault {
    pub line: u32,
    pub column: u32,
}

/// Why a text has no lines.
#[derive(Drop)]
pub enum SplitFault {
    /// The first byte outside 32 to 126 that is no part of a line's end.
    Text(TextFault),
    /// Memory ran out.
    Memory,
}

impl From<AllocError> for SplitFault {
    ghost use Rattle.mf_text.specs.declared.lines.SplitFault.TheVariants.{Memory};

    ghost from_gives = { λ _ e. e ≡ Memory };

    fn from(_e: AllocError) -> SplitFault {
        SplitFault::Memory
    }
}

impl<T: Drop> From<AllocFailed<T>> for SplitFault {
    ghost use Rattle.mf_text.specs.declared.lines.SplitFault.TheVariants.{Memory};

    ghost from_gives = { λ _ e. e ≡ Memory };

    fn from(_e: AllocFailed<T>) -> SplitFault {
        SplitFault::Memory
    }
}

// The place of the first LF.
fn line_feed(text: &[u8]) -> Option<usize>
    ensures { result ≡ position (λ b. b == 10) text.now }
{
    text.iter().position(|b| *b == LF)
}

// The place of the first byte of a line that may not stand there.
fn bad_byte(line: &[u8]) -> Option<usize>
    ensures { result ≡ position (λ b. not (is_printable b)) line.now }
{
    line.iter().position(|b| !(32..=126).contains(b))
}

/// How many bytes the first line of a text has, and how many it has with its end, for a caller that
/// goes over the lines one by one. The text isn't empty.
pub fn first_line(text: &[u8]) -> (usize, usize)
    requires { 0 < length text.now }
    ensures progress { 0 < result.1 }
    ensures ordered { result.0 ≤ result.1 }
    ensures bounded { result.1 ≤ length text.now }
    ensures first { IsFirstLine text.now result.0 result.1 }
{
    match line_feed(text) {
        None => (text.len(), text.len()),
        Some(0) => (0, 1),
        Some(k) if text[k - 1] == CR => (k - 1, k + 1),
        Some(k) => (k, k + 1),
    }
}

/// The lines of a text of at most `TEXT_LIMIT` bytes, in order, without their ends. A line ends
/// with LF or CR LF, and the last one may have no end.
///
/// # Errors
/// `Text` exactly where a byte outside 32 to 126 is no part of a line's end, with the place of the
/// first one; `Memory` where memory ran out.
pub fn split_lines(alloc: Global, text: &[u8]) -> Result<Vec<Span>, SplitFault>
    requires { length text.now ≤ TEXT_LIMIT }
    ensures spans { IfOk result (λ v. v.items ≡ line_spans text.now) }
    ensures lines { IfOk result (λ v. map (piece text.now) v.items ≡ lines_of text.now) }
    ensures within { IfOk result (λ v. All (IsWithin (length text.now)) v.items) }
    ensures clean { OnOk result (text_fault text.now ≡ None) }
    ensures fault { IfErr result (IsSplitFault text.now) }
{
    let mut spans = Vec::new(alloc);
    let mut start = 0;
    while start < text.len() {
        let (len, whole) = first_line(&text[start..]);
        let end = start + len;
        if let Some(k) = bad_byte(&text[start..end]) {
            let line = spans.len() as u32 + 1;
            let column = k as u32 + 1;
            return Err(SplitFault::Text(TextFault { line, column }));
        }
        spans.push(Span { start, end })?;
        start += whole;
    }
    Ok(spans)
}
