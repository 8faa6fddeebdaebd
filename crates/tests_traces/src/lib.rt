//! Tests of traces. Of two tickets that swap a value into one key the trace of the serial run is
//! accepted, and four changed ones get their verdicts; the lines of each kind of event are written
//! and read; and lines that are no events are refused.
#![tactic(auto)]

#[cfg(test)]
mod audits;
#[cfg(test)]
mod event_lines;
#[cfg(test)]
mod reading;
