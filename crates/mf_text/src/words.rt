//! The words of a line.

ghost use Rattle.std.specs.Prelude.{◌≡◌, ◌==◌, position, length, map, All, IfOk};
ghost use Rattle.mf_text.specs.Lines.{piece, IsWithin};
ghost use Rattle.mf_text.specs.Words.{words_of, word_spans};

use crate::lines::Span;
use std::alloc::{AllocError, Global};

// The place of the first space.
fn space(line: &[u8]) -> Option<usize>
    ensures { result ≡ position (λ b. b == 32) line.now }
{
    line.iter().position(|b| *b == b' ')
}

/// The words of a line, in order. One space stands between each two, so two spaces make an empty
/// word, and an empty line has one empty word. Fails only where memory runs out.
pub fn split_words(alloc: Global, line: &[u8]) -> Result<Vec<Span>, AllocError>
    ensures spans { IfOk result (λ v. v.items ≡ word_spans line.now) }
    ensures words { IfOk result (λ v. map (piece line.now) v.items ≡ words_of line.now) }
    ensures within { IfOk result (λ v. All (IsWithin (length line.now)) v.items) }
{
    let mut spans = Vec::new(alloc);
    let mut start = 0;
    while let Some(len) = space(&line[start..]) {
        let end = start + len;
        spans.push(Span { start, end })?;
        start = end + 1;
    }
    let end = line.len();
    spans.push(Span { start, end })?;
    Ok(spans)
}
