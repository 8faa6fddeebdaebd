//! Tests of the handler language and of the other parts of a session file, through the calls that
//! other crates make: tokens, parser and printer, the checker, request lines, table lines and range
//! sessions. Other refusals, and canonical texts, are stored runs, in `checks/`.
#![tactic(auto)]

#[cfg(test)]
mod checking;
#[cfg(test)]
mod declaring;
#[cfg(test)]
mod helpers;
#[cfg(test)]
mod parsing;
#[cfg(test)]
mod ranges;
#[cfg(test)]
mod requests;
#[cfg(test)]
mod sessions;
#[cfg(test)]
mod tables;
#[cfg(test)]
mod tokens;
