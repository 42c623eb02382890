//! The table of one file: the words of the file machine as words that change in single atomic
//! steps, a slot for the chunk of each name, and a pass for each actor.
//!
//! Word 0 is the published number, word 1 the right, then comes a word for each generation (its
//! pins, and 2^63 where it is closed), and then one for each name: 0 Unborn, 1 Here, 2 Taken, 3
//! Dropped, 4 + line for Lost. A pass has a share of 2^30; `split` needs a share of at least 2 and
//! hands on half of it.
//!
//! `Gate::new` answers want of memory alone and hands the names back. The fourteen steps take no
//! memory, wait for nobody and don't fail; `take` and `lose` answer Again where another pass has
//! the name Taken.
//!
//! ```text
//! let number = gate.look(&mut pass);
//! let open = gate.pin(&mut pass, Slot::Work, number - 1);    // false: it is closed
//! gate.unpin(&mut pass, Slot::Work, number - 1);
//! ```
//!
//! *Proved.* The table of one file among any number of actors, as words that change in single
//! atomic steps and slots for the chunks: its rule, which holds between any two steps of whatever
//! threads, is the file machine's. Each of the fourteen steps is its row there: the pass's view
//! after it is the row's function of the view before and of the value that the step met in its
//! word, in a state that keeps the ten rules, and the answer is the row's function of that value. A
//! taken chunk is the name's cell. `split` and `join` are the machine's. `new` begins from a file
//! at rest, and hands the names back where memory runs out; `rest` leaves a file at rest, whose
//! state the last pass's Made accounts for, with the causes of its Mets.
//!
//! *Neither.* That threads run beside each other, progress and speed.
#![tactic(auto)]

mod answers;
mod board;
mod chunking;
mod deed;
mod ending;
mod ends;
mod gate;
mod gating;
mod known;
mod making;
mod stepping;

pub use answers::Taken;
pub use gate::{Gate, Pass};
pub use known::{About, Known};
