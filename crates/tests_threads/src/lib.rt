//! Tests of what several callers share, above the crates that they test, so that each is proved
//! once: the board of turns (32 seats in one round, and a free turn is never found taken), the lane
//! of replies, also a full one, replies that wait for their turn, and feeders beside a gatherer.
//! Four callers and 32 serve 4,000 tickets whose keys meet, in threads, and the journal is replayed
//! and compared with a serial run; 32 bump one key 20,000 times. One caller serves all tickets,
//! also while it keeps the book, and the largest hall opens and closes.
#![tactic(auto)]

#[cfg(test)]
mod bumps;
#[cfg(test)]
mod callers;
#[cfg(test)]
mod clients;
#[cfg(test)]
mod desk_callers;
#[cfg(test)]
mod four_callers;
#[cfg(test)]
mod kept_callers;
#[cfg(test)]
mod lanes;
#[cfg(test)]
mod many;
#[cfg(test)]
mod next_callers;
#[cfg(test)]
mod pendings;
#[cfg(test)]
mod rows;
#[cfg(test)]
mod turns;
