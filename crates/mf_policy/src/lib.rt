//! Which stage a file is due for, by its age.
//!
//! A `Policy` has one threshold for each stage, in ticks: the first is 0, and they grow strictly.
//! The *due stage* is the greatest one whose threshold is at most the age. An age is a u64.
//!
//! A family of files has a policy, or none; files of a family without one are due for stage 0.
//! `sweep_list` takes memory, and want of it is its one error; files that are due for stage 0
//! aren't in the list.
//!
//! ```text
//! let policy = Policy::new(thresholds);     // 0 7 30
//! due(&policy, 29) == 1
//! let policies = [Some(policy), None];
//! sweep_list(alloc, &policies, &[0, 0, 1], &[3, 40, 50])? == [(1, 2)]
//! ```
//!
//! *Proved.* `due` is the greatest stage whose threshold is at most the age; `sweep_list` has each
//! file whose due stage by its family's policy isn't 0, with it, by number; a `Policy` keeps by its
//! type that its thresholds begin with 0 and rise.
#![tactic(auto)]

mod ages;
mod policy;

pub use ages::{due, sweep_list};
pub use policy::Policy;
pub use std::alloc::AllocError as Memory;
