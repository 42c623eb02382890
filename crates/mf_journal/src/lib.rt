//! A journal of records on a disk, which no crash spoils.
//!
//! A `Disk` is written at places and made lasting by a sync. Between two syncs each written range,
//! and the part past the old end, may hold any bytes after a crash. Bytes outside stay. After a
//! sync that succeeds a crash leaves what a read gives.
//!
//! A journal is the bytes `MORPHJL1`, then records, then a gate byte that isn't 0xA5. A record is
//! the gate byte 0xA5, the length of its payload in four bytes, the highest first, and the payload.
//! A record is written behind a shut gate, and the gate is opened by a write of its own once the
//! record is lasting. What a payload means is its user's affair.
//!
//! A `Journal` is at most 268,435,456 bytes long, its last gate included. `append` and `open` take
//! memory, and want of it is answered before any write. `Disk` is answered only where a call of the
//! disk failed; open the journal again then.
//!
//! ```text
//! let mut journal = Journal::format(MemoryDisk::new(alloc, 0))?;
//! journal.append(alloc, b"first")?;
//! let crashed = journal.into_disk().after_crash();
//! let (journal, records) = Journal::open(alloc, crashed)?;     // records == [b"first"]
//! ```
//!
//! *Proved.* A crash at any moment of `append` leaves a journal of the records from before it, with
//! the new one or without; once it has answered Ok, with it (`any_moment`, `acknowledged`). A crash
//! at any moment of `append_all` leaves the records from before and the first of the new ones,
//! among them each one that was acknowledged by then (`HasAcknowledged`). `open` answers just the
//! records that the bytes are a journal of, and refuses no such bytes (`keeps`, `never`). Each
//! makes the calls of the disk that it names, in order, up to the first that fails (`Ran`). A
//! `MemoryDisk` is such a disk, and its record of calls says which of them failed and what its
//! crash leaves (`tells`, `after_crash`).
//!
//! *Neither.* That a real file is such a disk; speed.
#![tactic(auto)]

mod commit;
mod contents;
mod disk;
mod history;
mod journal;
mod log;
mod memory;
mod opening;
mod run;

pub use disk::{Disk, Failed};
pub use history::History;
pub use journal::{Journal, JournalFault};
pub use log::{Log, Origin, Write};
pub use memory::MemoryDisk;
pub use opening::OpenFault;
pub use run::append_all;
