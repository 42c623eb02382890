//! Texts: their lines and words, and the spellings of numbers and bytes. Lines and words are handed
//! out as spans of the text that they lie in.
//!
//! A line ends with LF or CR LF, and the last may have no end; a text has at most 1,048,576 bytes,
//! each of them 32 to 126 but for line ends. Words are separated by one space. A number is decimal,
//! without leading zeros, below 2^64. Bytes are spelled as pairs of lower-case hexadecimal digits.
//!
//! `SplitFault::Text` has line and column, from 1, of the first bad byte; `HexFault::Shape` says
//! that a word spells no bytes. Else only want of memory fails, and then what was written to is as
//! before.
//!
//! ```text
//! decimal(b"42") == Some(42)
//! decimal(b"042") == None
//! hex_bytes(alloc, b"61ff")? == [97, 255]
//! ```
//!
//! *Proved.* `split_lines`, `split_words`, `decimal`, `hex_bytes`, `push_decimal`, `push_hex` are
//! exact; numbers and bytes that are written read back.
#![tactic(auto)]

mod decimals;
mod hexadecimal;
mod lines;
mod words;

pub use decimals::{decimal, push_decimal};
pub use hexadecimal::{Hex, HexFault, hex_bytes, push_hex};
pub use lines::{Span, SplitFault, TEXT_LIMIT, TextFault, first_line, split_lines};
pub use std::alloc::AllocError as Memory;
pub use words::split_words;
