//! One actor's hold on one file: what every access does and tells, for an actor alone and for many.
//!
//! `Access` has the calls that wait for nobody, and `Fetch` beside them `get` and `lose`, which may
//! wait for another actor's get. A generation is below the number of stages, and a published number
//! is 1 above its generation. `count_io` counts the entries of a ledger: reads of data, copies and
//! parities, misses, writes, probes, drops.
//!
//! Only `reserve` and `get` can answer want of memory. Each call is one row of the file machine,
//! and appends its one entry to the ledger.
//!
//! ```text
//! access.reserve(1)?;
//! if let Pinned::At(g) = access.pin(Slot::Work) {
//!     let state = access.probe(Name::Data(0));    // Here, Lost(line), Away(server)
//! ```
//!
//! *Proved.* The traits `Access` and `Fetch`: each call leads from one actor to the next by its row
//! of the file machine, appends its entry and leaves all else, with what is promised of its answer;
//! `count_io` counts each entry by its kind. Laws, over any access: what is seen only grows; what is
//! made and met is just what the entries say, with the numbers, begins and pins beside them; a
//! generation is pinned only where its number was looked at; the numbers looked at never fall; an
//! actor alone is never refused the right, and has one answer to a call, want of memory aside.
#![tactic(auto)]

mod access;
mod answers;
mod created;
mod fetch;
mod io;
mod law;
mod ledger;
mod note;

pub use access::Access;
pub use answers::{Answer, Entry, Got, Op, Pinned, Rest};
pub use created::birth;
pub use fetch::Fetch;
pub use io::{Io, count_io};
pub use law::{
    alone_has_one_answer, alone_is_never_refused, entries_tell, looks_never_fall,
    pins_are_looked_at, seen_only_grows, work_stays_free,
};
pub use ledger::{append, enter, enter_get};
pub use mf_kernel::{Chunk, Memory};
pub use mf_machine::{Closed, Slot, State};
pub use mf_places::{Book, LoseLine, Losses, Name, Servers};
pub use note::Note;
