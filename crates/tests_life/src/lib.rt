//! Tests of a file's life under its actors, and no code.
//!
//! *Only tested.* A file that is not created, at rest and under its actors; a file that its only
//! actor creates, reads, converts, repairs and reclaims, with its counts; reads that hand their
//! bytes on, also to a taker that has no memory for a piece; two actors at one file, of whom one
//! has the right and a pin; two actors who take turns, beside the only one; four actors of one file
//! in threads, with commands that are drawn, against their ledgers.
//!
//! *Neither.* Which steps of the four fall between which.
#![tactic(auto)]

#[cfg(test)]
mod conversions;
#[cfg(test)]
mod mendings;
#[cfg(test)]
mod racing;
#[cfg(test)]
mod readings;
#[cfg(test)]
mod resting;
#[cfg(test)]
mod sharing;
#[cfg(test)]
mod stages;
#[cfg(test)]
mod turns;
