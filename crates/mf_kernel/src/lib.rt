//! Chunks, and the sums and products of byte slices that codes are made of. A `Chunk` is shared by
//! a count of its holders, so that sharing copies no byte.
//!
//! Slices that are added have one length, and it may be any. `scale` and `add_scaled` take a factor
//! of the field, 0 to 255. `combine_all` gives the sums of chunks, each times its coefficient of a
//! row, one for each row; `powers` gives the row of a point's powers.
//!
//! Only `Chunk::new`, `Chunk::share`, `combine_all` and `powers` take memory, and want of memory is
//! their one error.
//!
//! ```text
//! let mut sum = [1, 2];
//! add_scaled(&mut sum, 2, &[3, 128]);
//! sum == [7, 31]
//! ```
//!
//! *Proved.* `add_into`, `scale`, `add_scaled`, by lanes of 32 bytes, equal their byte-wise rule at
//! every length; `combine_all` gives the sums of chunks by rows of coefficients, and `fill_row`,
//! `fill_two` and `fill_three` the columns of such sums; a `Chunk` is its bytes, and a shared one
//! has the same.
//!
//! *Neither.* That chunks are shared and not copied; speed.
#![tactic(auto)]

mod chunk;
mod columns;
mod combining;
mod factor;
mod filling;
mod kernels;
mod lanes;
mod row;

pub use chunk::{Chunk, Memory};
pub use columns::{Bytes, fill_powers, fill_row};
pub use combining::{combine_all, powers};
pub use filling::{fill_three, fill_two};
pub use kernels::{add_into, add_scaled, scale};
pub use lanes::BLOCK;
pub use row::{MOST, Row, TABLES, fill_tables};
