//! Tests of the gate of one file, and no code.
//!
//! *Only tested.* Passes of one gate, one step after the other: closes over a pin and without one;
//! passes split eight deep and joined; a name that another pass has Taken; a lost name that is
//! brought again; names that are dropped once. Eight threads make 10,000 random allowed steps each
//! on the gate of one file: rounds of readers with a pin, rounds of builders who bring lost names
//! again and publish, closes, loses and drops. At the end the file at rest agrees with what the
//! threads counted, and each chunk that was handed out had its bytes.
//!
//! *Neither.* Which steps fall between which.
#![tactic(auto)]

#[cfg(test)]
mod draws;
#[cfg(test)]
mod making;
#[cfg(test)]
mod passes;
#[cfg(test)]
mod racing;
#[cfg(test)]
mod site;
#[cfg(test)]
mod stepping;
#[cfg(test)]
mod steps;
#[cfg(test)]
mod tally;
