//! Tests of the cheapest life of a file, and no code.
//!
//! *Only tested.* Answers beside those that trying every plan gives, on 200 drawn questions, and
//! answers that were worked out by hand.
#![tactic(auto)]

#[cfg(test)]
mod asking;
#[cfg(test)]
mod drawn;
#[cfg(test)]
mod worked;
