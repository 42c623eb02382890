//! A file among many actors, and each one's access to it. With it the engines, which are generic
//! over an access, run over a file that others change meanwhile.
//!
//! A `Seat` is one actor's place at the file between two accesses, without pin, right or chunk. The
//! first seat has the whole share, 2^30; `split` needs a share of at least 2 and hands on half of
//! it; `into_plain` needs the seat that has the whole share again.
//!
//! `of_plain` answers want of memory alone, and hands the file back. The calls of `Access` wait for
//! nobody; `get` and `lose` wait while another actor has the chunk Taken.
//!
//! ```text
//! let (shared, mut first) = Shared::of_plain(alloc, plain, 0, &losses)?;
//! let mut access = SharedAccess::new(rt, alloc, &shared, shared.split(&mut first));
//! let (seat, ledger) = access.finish();    // then join, and into_plain
//! ```
//!
//! *Proved.* `SharedAccess` is an access of one among any number of actors, over the table of
//! `mf_gate`: each call's view and entry are those of its row by its answer, which is the row's to
//! the value that a step of this very call met (`CallMeets`); Away alone comes without a step. Of
//! its calls only `get` and `lose` wait. `Shared::of_plain` begins from a file at rest, with a seat
//! whose actor has seen all that the file holds, or hands the file back; `split` and `join` are the
//! machine's; `finish` gives the seat back, with pins and right free. `into_plain` leaves a file at
//! rest of the same book and bytes, for whose state the last seat's Made accounts, with the causes
//! of its Mets.
//!
//! *Only tested.* A file handed to two actors and brought back.
//!
//! *Neither.* That threads run beside each other, progress and speed.
#![tactic(auto)]

mod access;
mod answering;
mod calls;
mod entering;
mod fetching;
mod law;
mod resting;
mod seat;
mod shared;

pub use access::SharedAccess;
pub use law::{a_get_meets_its_word, a_pin_waits_for_nobody};
pub use seat::Seat;
pub use shared::Shared;
