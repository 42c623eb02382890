//! Tests of whole scripts, from their text to what is written, and no code.
//!
//! *Only tested.* Scripts that are printed again, up to the limits; the texts of seeds' scripts;
//! what a script tells of its families; each kind of fault with its line; what each kind of entry
//! adds to a report's counts; reports of outcomes that no script brings out for sure; each status,
//! with ends that fail, and for one script at each call in turn; clients beside each other, in
//! orders that a turnstile forces, and that it is told of each client and of each command's number.
//!
//! *Neither.* Which steps of two clients fall between which.
#![tactic(auto)]

#[cfg(test)]
mod ends;
#[cfg(test)]
mod entries;
#[cfg(test)]
mod families;
#[cfg(test)]
mod faults;
#[cfg(test)]
mod orders;
#[cfg(test)]
mod outcomes;
#[cfg(test)]
mod printing;
#[cfg(test)]
mod seeds;
#[cfg(test)]
mod statuses;
#[cfg(test)]
mod texts;
