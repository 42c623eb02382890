//! One client's commands: what is done, and what came of it.
//!
//! Phases, clients and commands are numbered from 1. A `Done` has the command's place, its act, its
//! outcome, and the counts of the chunk operations that it added in all files, each below 2^32.
//!
//! `run_client` answers want of memory before the first command alone; later it is the outcome of
//! one command, and the next one runs. A `Turnstile` is told of the client before each of its
//! commands. A read's bytes are hashed stripe by stripe, and up to 32 plans are kept for those of
//! which chunks are missing.
//!
//! ```text
//! let done = run_client(alloc, &mut accesses, &script, 1, 1, &Free)?;
//! done[0].outcome       // what came of command 1
//! done[0].io.writes     // how many chunks it wrote
//! ```
//!
//! *Proved.* `run_client`, over any accesses: one entry a command, with its place, its outcome by
//! the licence of its engine, and the counts of the entries that it added in all files (`Runs`);
//! each count is below 2^32; the files are idle again and have their facts; memory ran out before
//! the first command, and then nothing was done, or it is the outcome of one command. A law: of
//! files whose states are told, a client's commands have one result, want of memory aside.
//! `lacks_memory` is true exactly where memory ran out in a command or in a part.
//!
//! *Neither.* That the turnstile is told of each command.
#![tactic(auto)]

mod acting;
mod came;
mod done;
mod finding;
mod hashing;
mod lacks;
mod laws;
mod losing;
mod running;
mod sweeping;
mod texts;
mod turnstile;

pub use done::{Done, Outcome, Part, Parts, Place};
pub use laws::run_has_one_result;
pub use mf_convert::Change;
pub use mf_read::ReadOutcome;
pub use mf_reclaim::ReclaimOutcome;
pub use mf_repair::RepairOutcome;
pub use running::run_client;
pub use turnstile::{Free, Turnstile};
