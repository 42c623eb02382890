//! The lines of a script: what a line says behind those before it, or its fault, and what the lines
//! so far add up to.
//!
//! Limits: 64 files, 64 phases, 8 clients a phase, 1,024 commands, numbers below 2^32, a name of 1
//! to 32 bytes out of `a-z`, `0-9`, `_`, `-`, `.`; the rest stands in `docs/FORMATS.md`.
//!
//! A `Kind` is the first fault of a line by the order of kinds. Want of memory may come at any
//! line.
//!
//! ```text
//! let form = read_line(alloc, &draft, b"read a without 2 5")?;
//! draft.add_line(alloc, b"read a without 2 5")?;
//! ```
//!
//! *Proved.* A line's form behind the lines so far, or the first kind of its fault; what the lines
//! so far add up to. `lines_keep`, a law: what each line that has a form keeps. `faults_in_order`,
//! a law: the fault of a line is the first row of the table of faults that comes.
#![tactic(auto)]

mod ages;
mod draft;
mod faults;
mod files;
mod forms;
mod laws;
mod names;
mod parts;
mod texts;
mod words;

pub use draft::Draft;
pub use forms::Form;
pub use laws::{faults_in_order, lines_keep};
pub use names::is_name;
pub use parts::{
    Act, Bytes, Client, Clients, Command, Commands, Content, FileLine, FileName, Item, Kind,
    LimitName, ScriptFault,
};
pub use texts::{ActText, name_of};
pub use words::{ContentWord, LineWord, Verb};
