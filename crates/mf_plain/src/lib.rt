//! A file at rest, and the access of its only actor.
//!
//! A `Plain` has no pin, no right and no name Taken. `PlainAccess` answers each call from the state
//! that is stored, and its `begin` is always answered true. `born` and `now` are ticks.
//!
//! `Plain::new` and `rest` take memory, and want of it is their one error; `PlainAccess::new` and
//! `finish` take none.
//!
//! ```text
//! let plain = Plain::new(alloc, book, b"abcd")?;    // not created
//! let mut access = PlainAccess::new(alloc, plain, 0, &losses);
//! let (plain, ledger) = access.finish();
//! ```
//!
//! *Proved.* `Plain` is a file at rest by its type. `PlainAccess` is an access of the only actor:
//! it always tells its whole state, computed from what is stored, and each call is its row there,
//! both ways. `PlainAccess::new` begins from the file at rest, and `finish` leaves one, with just
//! the state and ledger that are told. `Plain::apart` and `Plain::together` take a file at rest
//! apart and put it together again.
//!
//! *Neither.* Speed.
#![tactic(auto)]

mod access;
mod answering;
mod calls;
mod fetch;
mod known;
mod parts;
mod plain;

pub use access::PlainAccess;
pub use known::Told;
pub use parts::Parts;
pub use plain::Plain;
