//! Reclaiming: generations that nobody reads any more are closed, and what only they hold goes.
//!
//! Each generation below the published one is closed where it has no pin; of a removed file each
//! one is. Then each name is dropped that only closed generations hold. `pinned` lists the
//! generations that have pins, with how many.
//!
//! A `ReclaimOutcome` is Reclaimed; Absent, for a file that isn't created; or Memory, with nothing
//! done.
//!
//! ```text
//! match reclaim(alloc, &mut access) {
//!     ReclaimOutcome::Reclaimed { closed, dropped, pinned } => ..,
//!     ReclaimOutcome::Absent | ReclaimOutcome::Memory => ..,
//! ```
//!
//! *Proved.* `reclaim`, over any access: the calls that it made, with their answers, are those of
//! its outcome (`Reclaims`): each generation below the published one is closed, ascending, or each
//! where the file is removed, and then each name that only closed ones hold is discarded, in order;
//! so a parity that an open generation holds stays, and nothing is discarded before the closes. Its
//! counts and the generations with pins are those of the answers. Want of memory comes before all
//! else. The Work slot is free at each close. Laws: no name of the generation that its own client
//! holds is discarded; Made and Met grow just by its entries and its pin; a reclaim of an actor alone
//! has one outcome and leaves one actor, want of memory aside.
#![tactic(auto)]

mod laws;
mod outcome;
mod reclaiming;

pub use laws::{held_stays, reclaim_has_one_result, reclaims_gain};
pub use outcome::{PinCounts, ReclaimOutcome};
pub use reclaiming::reclaim;
