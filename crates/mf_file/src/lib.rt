//! A disk over a file of the system, and a journal in it across a crash.
//!
//! A `FileDisk` keeps the file's bytes in memory and answers reads from there; writes and syncs go
//! to the file. From the first call that fails on each call fails: open the file again. A file is
//! opened for one handle alone; another that wants it is answered `Busy`, where it asks.
//!
//! ```text
//! let (mut journal, records) = open_journal(&rt, "journal")?;
//! journal.append(rt.alloc(), b"next")?;      // lasting once it is Ok
//! ```
//!
//! *Proved.* A `FileDisk` is a disk as `mf_journal` has it: what a read gives, what a crash may
//! leave by the calls that were made, and that each call that is told was asked of the file, with
//! its answer. Of these the law `finds_again`: where the file has again what its calls allow, the
//! next run finds the records from before and the first of the new ones, among them each that was
//! acknowledged by the call since which the crash came.
//!
//! *Neither.* That a file has again what its calls allow (`IsHonest`). It means that a write
//! changes nothing outside its range; that a sync that answers Ok made all before it lasting; that
//! what is read as the file is opened is what the disk has; that nobody else writes; that nothing
//! decays.
//! That `Host` makes the calls that it notes: read `Host::put`, `Host::flush` and `open`.
#![tactic(auto)]

mod file;
mod kept;
mod opening;
mod raw;

pub use file::FileDisk;
pub use kept::{KeptFault, append_to_file, finds_again, is_honest, open_journal};
pub use opening::{FileFault, open};
pub use raw::{Asked, Host, RawFile};
