//! Tests of families, names, books, texts, sources and policies, and no code.
//!
//! *Only tested.* Shapes and families, at the limits too; names, books and sets of servers; texts,
//! sources and sinks; due stages and sweeps.
#![tactic(auto)]

#[cfg(test)]
mod books;
#[cfg(test)]
mod families;
#[cfg(test)]
mod names;
#[cfg(test)]
mod policies;
#[cfg(test)]
mod rows;
#[cfg(test)]
mod shapes;
#[cfg(test)]
mod sources;
#[cfg(test)]
mod texts;
