//! File lines.

ghost use Rattle.std.specs.Prelude.{◌≡◌, true, IfOk};
ghost use Rattle.mf_lines.specs.Names.{is_name};
ghost use Rattle.mf_lines.specs.Words.{behind};
ghost use Rattle.mf_lines.specs.Lines.{Says, within, content_length, starts_high, file_limits};
ghost use Rattle.mf_lines.specs.Lines.{text_in, hex_in, pattern_in, content_in, file_form};
ghost use Rattle.mf_lines.specs.Drafts.{so_in, IsDraft};

use crate::draft::Draft;
use crate::forms::{Form, within};
use crate::names::is_name;
use crate::parts::{Bytes, Content, FileLine, FileName, Kind, LimitName};
use crate::words::{
    ContentWord, content_word, end_words, last_two_words, last_word, next_word, small, spelled,
};
use mf_places::{MAX_CHUNKS, MAX_LENGTH};
use mf_text::{HexFault, hex_bytes};
use std::alloc::{AllocError, Global};

const MAX_FILES: usize = 64;

const MAX_START: u32 = 250;

// These bytes.
fn copied(alloc: Global, bytes: &[u8]) -> Result<Bytes, AllocError>
    ensures { IfOk result (λ copy. copy ≡ bytes.now) }
{
    Ok(Bytes::new(Vec::from_slice(alloc, bytes)?))
}

// The rest of a line, which isn't empty.
fn text_content(alloc: Global, rest: Option<&[u8]>) -> Result<Content, Kind>
    ensures { Says result (text_in (behind rest.entry)) }
{
    let Some(bytes) = rest else {
        return Err(Kind::Arity);
    };
    if bytes.is_empty() {
        return Err(Kind::Arity);
    }
    Ok(Content::Text(copied(alloc, bytes)?))
}

// The bytes that a word of hexadecimal digits spells.
fn hex_content(alloc: Global, rest: Option<&[u8]>) -> Result<Content, Kind>
    ensures { Says result (hex_in (behind rest.entry)) }
{
    match hex_bytes(alloc, last_word(rest)?) {
        Ok(bytes) => Ok(Content::Hex(Bytes::new(bytes))),
        Err(HexFault::Shape) => Err(Kind::Number),
        Err(HexFault::Memory) => Err(Kind::Memory),
    }
}

// A pattern's length and start.
fn pattern_content(rest: Option<&[u8]>) -> Result<Content, Kind>
    ensures { result ≡ pattern_in (behind rest.entry) }
{
    let (length, start) = last_two_words(rest)?;
    let length = spelled(length)?;
    let start = spelled(start)?;
    Ok(Content::Pattern {
        length: small(length)?,
        start: small(start)?,
    })
}

// How a file's bytes are given, by what stands behind the content's word.
fn content_of(alloc: Global, word: ContentWord, rest: Option<&[u8]>) -> Result<Content, Kind>
    ensures { Says result (content_in word (behind rest.entry)) }
{
    match word {
        ContentWord::Empty => {
            end_words(rest)?;
            Ok(Content::Empty)
        }
        ContentWord::Text => text_content(alloc, rest),
        ContentWord::Hex => hex_content(alloc, rest),
        ContentWord::Pattern => pattern_content(rest),
    }
}

// The number of a file's bytes.
fn content_length(content: &Content) -> u64
    ensures { result ≡ content_length content.now }
{
    match content {
        Content::Empty => 0,
        Content::Text(bytes) | Content::Hex(bytes) => bytes.as_slice().len() as u64,
        Content::Pattern { length, .. } => u64::from(*length),
    }
}

// Whether a pattern starts too high.
fn starts_high(content: &Content) -> bool
    ensures { result ≡ starts_high content.now }
{
    match content {
        Content::Pattern { start, .. } => *start > MAX_START,
        _ => false,
    }
}

// Nothing, where a file of this name and content passes no limit.
fn file_limits(draft: &Draft, name: &[u8], content: &Content) -> Result<(), Kind>
    ensures { result ≡ within (file_limits (so_in draft.now) name.now content.now) }
{
    let length = content_length(content);
    let chunk = u64::from(draft.chunk);
    within(&[
        (!is_name(name), LimitName::Name),
        (draft.files.len() >= MAX_FILES, LimitName::Files),
        (starts_high(content), LimitName::Pattern),
        (length > u64::from(MAX_LENGTH), LimitName::Length),
        (
            chunk > 0 && length.div_ceil(chunk) > u64::from(MAX_CHUNKS),
            LimitName::Chunks,
        ),
    ])
}

// The name that these bytes are.
fn file_name(alloc: Global, bytes: &[u8]) -> Result<FileName, AllocError>
    requires { is_name bytes.now ≡ true }
    ensures { IfOk result (λ name. name ≡ bytes.now) }
{
    let text = String::from_utf8(Vec::from_slice(alloc, bytes)?).unwrap();
    Ok(FileName::new(text))
}

/// What a file line says, by what stands behind its first word.
pub fn file_line(alloc: Global, draft: &Draft, rest: Option<&[u8]>) -> Result<Form, Kind>
    requires { IsDraft draft.now }
    ensures { Says result (file_form (so_in draft.now) (behind rest.entry)) }
{
    let (name, rest) = next_word(rest)?;
    let (word, rest) = next_word(rest)?;
    let word = content_word(word).ok_or(Kind::Unknown)?;
    let content = content_of(alloc, word, rest)?;
    file_limits(draft, name, &content)?;
    if draft.has_file(name) {
        return Err(Kind::Twice);
    }
    let name = file_name(alloc, name)?;
    Ok(Form::File(FileLine { name, content }))
}
