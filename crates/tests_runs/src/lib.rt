//! Tests of whole runs over memory. A line is written before the first caller begins its next
//! ticket, and lines of another caller while tickets are left; neither a full lane nor a sink that
//! takes a byte a call loses any; if a sink fails, all is served and a front is written. A trace
//! shows two callers, one of which a gate holds, and an operation that is delayed. Past gates that
//! say that they hold nobody, as the program's own does, callers compute beside each other and
//! share light requests, the book is handed over within a ticket, lines come while another caller
//! keeps it, and a blocked output stops nobody; each command has a thread for each caller. A
//! client sends while another is held, a round is served while a client still sends, and three
//! clients have three rounds. Audits end at their bound; every prefix of a file of handlers is
//! checked; each read and each write fails in turn; tables that open with entries are dumped and
//! read back. What is judged of other traces, and refused, are stored runs.
#![tactic(auto)]

#[cfg(test)]
mod audits;
#[cfg(test)]
mod beside;
#[cfg(test)]
mod clients;
#[cfg(test)]
mod dumping;
#[cfg(test)]
mod early;
#[cfg(test)]
mod faults;
#[cfg(test)]
mod hostile;
#[cfg(test)]
mod lines;
#[cfg(test)]
mod runs;
#[cfg(test)]
mod serving;
#[cfg(test)]
mod threads;
#[cfg(test)]
mod tracing;
#[cfg(test)]
mod yielding;
