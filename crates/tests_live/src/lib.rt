//! Tests of sessions that live: replies and tables are those that `serve` and `dump` write of one
//! file with all the lines; what each call refuses, and where a batch stops and goes on; and
//! tickets and requests over the tables of one session, of which one delays the other; what a
//! session tells of what it holds; many tickets and keys; and names that are renewed.
#![tactic(auto)]

#[cfg(test)]
mod calls;
#[cfg(test)]
mod driven;
#[cfg(test)]
mod invoked;
#[cfg(test)]
mod living;
#[cfg(test)]
mod many;
#[cfg(test)]
mod renewing;
#[cfg(test)]
mod telling;
