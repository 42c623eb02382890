//! Tests of the codes, and no code.
//!
//! *Only tested.* The field, matrices, kernels, encodings, merges, decodings and gatherings, by hand
//! and beside plain loops; files cut and joined.
#![tactic(auto)]

#[cfg(test)]
mod blocks;
#[cfg(test)]
mod decodings;
#[cfg(test)]
mod fields;
#[cfg(test)]
mod files;
#[cfg(test)]
mod gatherings;
#[cfg(test)]
mod inverses;
#[cfg(test)]
mod kept_plans;
#[cfg(test)]
mod kernels;
#[cfg(test)]
mod matrices;
#[cfg(test)]
mod merges;
#[cfg(test)]
mod plain;
#[cfg(test)]
mod stores;
