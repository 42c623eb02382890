//! Decoding: the data of a stripe from what is left of it, and the order in which what is left is
//! asked for.
//!
//! A width is 1 to 64; at most four points; a piece t is below the stripe's number of pieces, and a
//! parity p below the number of points. `plan` takes the erased places and as many parities,
//! ascending, and has no plan exactly where the matrix has no inverse.
//!
//! `gather` asks a `Pieces` for each piece, ascending, and then for parities until as many were had
//! as pieces are missing. `Short` says that all were asked and too few had. Else only want of
//! memory fails.
//!
//! ```text
//! match gather(alloc, &mut pieces, points, width, count, size) {
//!     Gathered::All(chunks) => ..,    // the data of the stripe
//!     Gathered::Short => ..,          // all parities were asked
//! ```
//!
//! `gather_kept` does the same with a `PlanCache`, which keeps the plans that were used last.
//!
//! *Proved.* `plan` has none exactly where the matrix has no inverse, and then gives the kernel;
//! `apply` gives the one data list that agrees with what was handed in; `gather` asks in the order
//! of an asking, is Short exactly where the asking is short, and answers All with the data list
//! with which the answers agree; `gather_kept` has the contract of `gather`.
//!
//! `decode_row` gives a row of coefficients by which what is there gives an erased chunk, of every
//! stripe that has lost what the plan says.
//!
//! *Neither.* Speed, and which plans a cache keeps.
#![tactic(auto)]

mod applying;
mod asking;
mod caching;
mod gathering;
mod pieces;
mod planning;
mod rows;

pub use applying::{apply, apply_block};
pub use caching::PlanCache;
pub use gathering::{Gathered, gaps_of, gather, gather_kept};
pub use mf_kernel::{Chunk, Memory};
pub use mf_matrix::KernelList;
pub use pieces::{Asked, Pieces, Place};
pub use planning::{DecodePlan, NoPlan, plan};
pub use rows::decode_row;
