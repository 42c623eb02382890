//! Tests of the journal on a disk in memory, and no code.
//!
//! *Only tested.* That calls succeed where memory is ample; what is found where a run is stopped at
//! each call in turn, and where a byte of a journal is changed; a disk that lacked memory.
#![tactic(auto)]

#[cfg(test)]
mod changed;
#[cfg(test)]
mod starved;
#[cfg(test)]
mod stopped;
