//! All that the program writes: the report of a run, the lines of families, and the lines that
//! refuse a script or the words of a call.
//!
//! A report has a line for each command, the dumps that the script asks for, and the sums over all
//! commands and over those that convert. Names, numbers and digests are spelled as
//! `docs/FORMATS.md` says.
//!
//! `ReportFault::Sink` says that a write failed, and then a front of the text was written; want of
//! memory comes before anything is written.
//!
//! ```text
//! report(alloc, &mut sink, &script, &done, &files)?;
//! let line = refused_line(alloc, &fault)?;
//! ```
//!
//! *Proved.* `report`: the text of the report, each outcome with its one text, the lines of a
//! sweep's parts, the dumps of files at rest, and the sums over all commands and over those that
//! convert; or the same as one JSON object, whose texts are those of the lines. Where a write
//! failed a front of it was written, where memory ran out nothing. `summary_line`: the line that
//! sums up the run of a seed's script. Law: the line of a chunk that is here, of a file at rest,
//! has the digest of the bytes that the plain encoding of the file gives it. `accepted_lines`,
//! `refused_line`, `too_long_line`, `words_line`: the lines of a script's families, and the refusals
//! of a script and of words, with the text of every kind of fault.
#![tactic(auto)]

mod commands;
mod counts;
mod dumps;
mod json;
mod laws;
mod summary;
mod totals;
mod verdicts;
mod writing;

pub use std::alloc::AllocError as Memory;
pub use summary::summary_line;
pub use verdicts::{accepted_lines, refused_line, too_long_line, words_line};
pub use writing::{ReportFault, report};
