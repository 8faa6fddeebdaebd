//! Tests of the crates that serve requests (journal, desk, book and hall), above these, so that
//! each is proved once. A ticket ends while an older one is open; two callers of one hall are taken
//! step by step on one thread, by the calls that don't wait; and of tickets that a program drives
//! two overlap, or one waits until an older one narrows.
#![tactic(auto)]

#[cfg(test)]
mod books;
#[cfg(test)]
mod desks;
#[cfg(test)]
mod driven;
#[cfg(test)]
mod hall_tries;
#[cfg(test)]
mod halls;
#[cfg(test)]
mod journals;
#[cfg(test)]
mod map_ops;
#[cfg(test)]
mod two_puts;
