//! Tests of the crates of values and tables, above these, so that each is proved once: operations
//! and their replies, which operations and symbols commute, whole tables and shards, also those
//! that grow and those with seeds, and counts of key ranges.
#![tactic(auto)]

#[cfg(test)]
mod commuting;
#[cfg(test)]
mod growing;
#[cfg(test)]
mod operations;
#[cfg(test)]
mod ranges;
#[cfg(test)]
mod shards;
#[cfg(test)]
mod symbols;
#[cfg(test)]
mod values;
#[cfg(test)]
mod whole;
