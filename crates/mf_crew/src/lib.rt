//! A phase, run by its clients: from files at rest to files at rest.
//!
//! A phase has one to eight clients. One client runs over each file alone; several run beside each
//! other, each in a thread with a seat at each file. Phases and clients are numbered from 1, and
//! `now` is the number of ticks before the phase. Pins and rights end with the phase.
//!
//! Want of memory outside of a command is the one error, and then nothing is handed back.
//!
//! ```text
//! let ran = run_phase(rt, alloc, files, &script, 1, 0, &Free)?;
//! ran.files    // at rest again
//! ran.done     // what the commands did, client after client
//! ```
//!
//! *Proved.* `run_phase`: a phase leads from the script's files at rest to its files at rest
//! (`IsPhase`). With one client its commands led from the only actor of each file to those whose
//! states are left. With several, each client's commands are licensed by what its own actors did,
//! from new actors that have seen all that the files hold; what the commands did stands in the
//! order of clients; and each file behind the phase is that for which all clients' Mades account,
//! with the causes of all their Mets.
//!
//! `clients_tell`: the outcomes of several clients agree with each other and with the file behind
//! the phase. `files_rest`: the files behind each phase are at rest.
//!
//! *Only tested.* Clients that wait for each other.
//!
//! *Neither.* That two clients ran at once, waiting, progress and speed.
#![tactic(auto)]

mod alone;
mod jobs;
mod laws;
mod live;
mod phase;

pub use laws::{clients_tell, files_rest};
pub use phase::{PhaseRun, are_at_rest, run_phase};
