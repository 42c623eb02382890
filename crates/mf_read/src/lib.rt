//! Reads of a file, stripe by stripe, from whatever can be had of it.
//!
//! A read goes through the generation of the Hold slot, or through one that it pins itself. `from`
//! is the number of chunks that were got.
//!
//! A `ReadOutcome` is the bytes; Absent or Removed; DataLost, which lists the lost names of a
//! stripe with their lines, more than the generation bears; Unreachable, with the first name on a
//! server that the command can't reach; or Memory.
//!
//! ```text
//! match read(alloc, &mut access, &family) {
//!     ReadOutcome::Bytes { g, bytes, from } => ..,
//!     ReadOutcome::DataLost { g, stripe, lost } => ..,
//! ```
//!
//! `read_into` hands the bytes on to a `Taker`, stripe by stripe, and has an `IntoOutcome`, which is
//! the same without the bytes. It takes a `PlanCache` for the stripes of which chunks are missing.
//!
//! *Proved.* `read`, over any access: the calls that it made, with their answers, are those of its
//! outcome (`Reads`). It goes through the Hold slot's generation, or through a Work pin of its own
//! that it frees. Bytes are the file's, each chunk had once; data is lost only where more names of
//! one stripe were found lost than the generation bears, and all are listed as found; a name is
//! unreachable only where no more are lost. `read_into` does what such a read does (`ReadsInto`). It
//! has handed on the file's bytes; where a stripe couldn't be had, those of the stripes before; where
//! memory ran out, a front. Laws: a short asking without a name that is away lacks more than is
//! borne; Made and Met grow just by its entries and its pin; a read of an actor alone has one outcome
//! and leaves one actor, want of memory aside.
//!
//! *Neither.* Speed.
#![tactic(auto)]

mod asker;
mod asking;
mod gathering;
mod law;
mod outcome;
mod reading;
mod short;
mod taking;
mod texts;

pub use gathering::gather_stripe;
pub use law::{read_has_one_result, reads_gain, short_has_lost};
pub use mf_check::Family;
pub use mf_decode::{Memory, PlanCache};
pub use mf_vault::{Fetch, Name};
pub use outcome::{IntoOutcome, LostNames, ReadOutcome};
pub use reading::{read, read_into};
pub use taking::Taker;
