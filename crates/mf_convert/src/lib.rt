//! Changes of a file: creating it, converting it to its next stage, and removing it. Each is
//! generic over an access to the file.
//!
//! `upto` is the stage beyond which a convert doesn't go, and `stop` the number of chunk operations
//! behind which it stops. `made` counts the parities that were put or restored.
//!
//! A `Change` says what came of it: Created, Converted, Stopped, RemovedNow; or why nothing was
//! published: Exists, Absent, Removed, Last, Busy (another actor is building), Needs (a name that
//! is lost, with its line), Unreachable (a server that the command can't reach), or Memory. The
//! right and the Work pin are given back each time.
//!
//! ```text
//! create(alloc, &mut access, &family, b"abcd");      // Created
//! convert(alloc, &mut access, &family, 1, None);     // Converted { from: 0, to: 1, made: 2 }
//! remove(&mut access);                               // RemovedNow
//! ```
//!
//! *Proved.* `create`, `convert` and `remove`, over any access: the calls that each made, with
//! their answers, are those of its outcome, and led from the actor before to the actor after
//! (`Creates`, `Converts`, `Removes`). So nothing is probed, put, restored or published where a
//! file isn't created or removed. A convert publishes only behind the probe of each name of the
//! next generation, all gets, and a put or restore of each parity that wasn't there; it says the
//! first name that it needed and didn't have; and it stops after just so many chunk operations. Each
//! of the three leaves the actor with its right given back and its Work slot free (`Leaves`). Laws:
//! a convert reads no data and no copy; Made and Met grow just by each one's entries, its begin, its
//! pin and the one number that it publishes; alone, each has one outcome and leaves one actor, want of
//! memory aside.
//!
//! *Only tested.* Conversions worked by hand, with their counts.
#![tactic(auto)]

mod cells;
mod change;
mod converting;
mod course;
mod creating;
mod laws;
mod merging;
mod removing;

pub use change::Change;
pub use converting::convert;
pub use creating::create;
pub use laws::{
    changes_gain, convert_has_one_result, create_has_one_result, no_data_is_read,
    remove_has_one_result,
};
pub use removing::remove;
