//! Tests of the analysis, through the calls that other crates make, and of a program's handlers.
//! The lists that it infers for generated handlers are compared with an enumeration of their paths.
//! A program's requests are served one at a time at a plain desk, also one that runs out of memory,
//! and a handler is run on plain tables.
#![tactic(auto)]

#[cfg(test)]
mod at_a_desk;
#[cfg(test)]
mod lists;
#[cfg(test)]
mod on_tables;
#[cfg(test)]
mod points;
#[cfg(test)]
mod sessions;
#[cfg(test)]
mod small_handlers;
#[cfg(test)]
mod trails;
