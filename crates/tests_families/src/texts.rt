//! Lines, words, numbers and bytes in texts.
ghost use Rattle.std.specs.Prelude.{◌≤◌, length};

use crate::rows::assert_no_row;
use mf_text::{
    HexFault, Memory, Span, SplitFault, decimal, hex_bytes, push_decimal, push_hex, split_lines,
    split_words,
};
use std::alloc::Global;
use std::test::Fail;

// A text, and from where to where its lines go.
static LINES: [(&[u8], &[(usize, usize)]); 3] = [
    (b"", &[]),
    (b"ab\r\n\nc", &[(0, 2), (4, 4), (5, 6)]),
    (b"c\n", &[(0, 1)]),
];

// A text, and line and column of its first bad byte.
static BAD: [(&[u8], u32, u32); 5] = [
    (b"ab\nc\td", 2, 2),
    (b"a\rb\n", 1, 2),
    (b"ab\n\x7f", 2, 1),
    (b"a\r", 1, 2),
    (b"a\r\r\n", 1, 2),
];

// A line, and from where to where its words go.
static WORDS: [(&[u8], &[(usize, usize)]); 2] = [
    (b"a  bc ", &[(0, 1), (2, 2), (3, 5), (6, 6)]),
    (b"", &[(0, 0)]),
];

static NUMBERS: [(&[u8], Option<u64>); 6] = [
    (b"0", Some(0)),
    (b"18446744073709551615", Some(u64::MAX)),
    (b"18446744073709551616", None),
    (b"06", None),
    (b"+6", None),
    (b"", None),
];

// A word, and the bytes that it spells, where it spells some.
static BYTES: [(&[u8], Option<&[u8]>); 5] = [
    (b"61ff", Some(&[0x61, 0xff])),
    (b"6", None),
    (b"6G", None),
    (b"FF", None),
    (b"", None),
];

fn are_at(spans: &[Span], wanted: &[(usize, usize)]) -> bool {
    for (span, place) in spans.iter().zip(wanted) {
        if (span.start, span.end) != *place {
            return false;
        }
    }
    spans.len() == wanted.len()
}

// Whether the lines of a text lie there.
fn has_lines(alloc: Global, text: &[u8], wanted: &[(usize, usize)]) -> bool
    requires { length text.now ≤ 1048576 }
{
    match split_lines(alloc, text) {
        Ok(spans) => are_at(spans.as_slice(), wanted),
        Err(_) => false,
    }
}

// Whether the first bad byte of a text stands there.
fn is_bad_at(alloc: Global, text: &[u8], line: u32, column: u32) -> bool
    requires { length text.now ≤ 1048576 }
{
    match split_lines(alloc, text) {
        Err(SplitFault::Text(fault)) => fault.line == line && fault.column == column,
        _ => false,
    }
}

fn first_other_lines(alloc: Global) -> Option<usize> {
    for (row, (text, wanted)) in LINES.iter().enumerate() {
        if text.len() > 100 || !has_lines(alloc, text, wanted) {
            return Some(row);
        }
    }
    None
}

fn first_other_fault(alloc: Global) -> Option<usize> {
    for (row, (text, line, column)) in BAD.iter().enumerate() {
        if text.len() > 100 || !is_bad_at(alloc, text, *line, *column) {
            return Some(row);
        }
    }
    None
}

fn first_other_words(alloc: Global) -> Result<Option<usize>, Memory> {
    for (row, (line, wanted)) in WORDS.iter().enumerate() {
        if !are_at(split_words(alloc, line)?.as_slice(), wanted) {
            return Ok(Some(row));
        }
    }
    Ok(None)
}

#[test]
fn lines_and_words(rt: HostRuntime) -> Result<(), Fail> {
    assert_no_row(&rt, first_other_lines(rt.alloc()));
    assert_no_row(&rt, first_other_fault(rt.alloc()));
    assert_no_row(&rt, first_other_words(rt.alloc())?);
    Ok(())
}

fn first_other_number() -> Option<usize> {
    for (row, (word, wanted)) in NUMBERS.iter().enumerate() {
        if decimal(word) != *wanted {
            return Some(row);
        }
    }
    None
}

fn first_other_bytes(alloc: Global) -> Option<usize> {
    for (row, (word, wanted)) in BYTES.iter().enumerate() {
        let is_wanted = match (&hex_bytes(alloc, word), wanted) {
            (Ok(bytes), Some(wanted)) => bytes.as_slice() == *wanted,
            (Err(HexFault::Shape), None) => true,
            _ => false,
        };
        if !is_wanted {
            return Some(row);
        }
    }
    None
}

fn printed(alloc: Global) -> Result<Vec<u8>, Memory> {
    let mut out = Vec::new(alloc);
    push_decimal(&mut out, 1070)?;
    push_hex(&mut out, &[0x61, 0xff])?;
    Ok(out)
}

#[test]
fn numbers_and_bytes(rt: HostRuntime) -> Result<(), Fail> {
    assert_no_row(&rt, first_other_number());
    assert_no_row(&rt, first_other_bytes(rt.alloc()));
    assert!(rt; printed(rt.alloc())?.as_slice() == b"107061ff".as_slice());
    Ok(())
}
