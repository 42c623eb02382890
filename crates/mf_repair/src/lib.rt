//! Repairs of a file: what a stripe has lost is made from what can be had of it.
//!
//! `restored` counts the names that were brought back, and `skipped` those on servers that the
//! command can't reach.
//!
//! A `RepairOutcome` is Repaired; Absent, Removed or Busy; DataLost or Unreachable as of a read; or
//! Memory. What was restored before a refusal stays, and the right and the Work pin are given back
//! each time.
//!
//! ```text
//! match repair(alloc, &mut access, &family) {
//!     RepairOutcome::Repaired { restored, skipped } => ..,
//!     RepairOutcome::DataLost { g, stripe, lost } => ..,
//! ```
//!
//! *Proved.* `repair`, over any access: the calls that it made, with their answers, are those of
//! its outcome (`Repairs`): per stripe a probe of each name; where one was lost, an asking as a
//! reader's and, where that has all data, a restore of just the names whose probe said lost. Data
//! is lost only where more names were found lost than the generation bears, each listed once, in
//! the order found by probes and gets; else the first name found away is named. Restored bytes are
//! their cells. The Work slot and the right are free again. Laws: Made and Met grow just by its
//! entries, its begin and its pin; a repair of an actor alone has one outcome and leaves one actor,
//! want of memory aside.
//!
//! *Neither.* Speed.
#![tactic(auto)]

mod cells;
mod counting;
mod laws;
mod outcome;
mod probing;
mod repairing;
mod restoring;
mod short;

pub use laws::{repair_has_one_result, repairs_gain};
pub use mf_check::Family;
pub use mf_read::LostNames;
pub use mf_vault::{Fetch, Name};
pub use outcome::RepairOutcome;
pub use repairing::repair;
