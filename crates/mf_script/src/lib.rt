//! Scripts, read from their texts and printed again.
//!
//! A text has at most 1,048,576 bytes. Phases, clients and lines are numbered from 1, files from 0.
//!
//! `ScriptFault` has the first line with a fault and its kind; a fault of the shape or family is
//! told at the first `stage` line; line 0 is that of a text that is too long. Else only want of
//! memory fails.
//!
//! ```text
//! let script = read_script(alloc, text)?;
//! let losses = script.losses(alloc, 1)?;      // the lose lines up to the end of phase 1
//! let again = print_script(alloc, &script)?;
//! ```
//!
//! *Proved.* `read_script`: a script exactly where no line of the text has a fault and its shape
//! and family are accepted, with what its lines say; else, a text that is too long before all else,
//! the fault of the first line that has one, by the order of the kinds, and then that of the shape
//! or family; a text that is refused so is no script. `print_script`: a text that is this script
//! again, where some text is; every text that is this script has its lines, but for the order of
//! servers behind `without`, so none is shorter. `losses`: the lose lines up to the end of a phase.
//! `clients`: those of a phase, which are one to eight. `ticks_before`: the sum over the tick lines
//! in front of a phase, which fits in 64 bits. `policy`: a threshold for each stage. `one_answer`,
//! a law: a text is one script or has one fault (the kernel list of a set of places aside), and
//! never both. `content_bytes`: the bytes of a file's line. `from_seed`: the script of the text
//! that the draws of a number write. `seeds_are_scripts`, a law: each such text is a script, so
//! only want of memory keeps `from_seed` from its answer. `scripts_keep_limits`, a law: the numbers
//! of a text's script are within its limits. A `Script` keeps that it is sound, and
//! `scripts_are_sound`, a law: each text's script is. A sound script has one family, to which each
//! file belongs, and each of its commands is on one of its files.
//!
//! *Neither.* How long reading takes.
#![tactic(auto)]

mod contents;
mod families;
mod laws;
mod losses;
mod phases;
mod printing;
mod reading;
mod script;
mod seeds;

pub use contents::content_bytes;
pub use laws::{one_answer, scripts_are_sound, scripts_keep_limits, seeds_are_scripts};
pub use mf_lines::{
    Act, ActText, Bytes, Client, Clients, Command, Commands, Content, FileLine, FileName, Item,
    Kind, LimitName, ScriptFault, is_name, name_of,
};
pub use printing::print_script;
pub use reading::read_script;
pub use script::Script;
pub use seeds::from_seed;
pub use std::alloc::AllocError as Memory;
