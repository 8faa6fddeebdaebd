//! Tests of what the program reads, serves and writes, through public calls: sources and sinks that
//! are bounded or fail, the longest reply line, and whole runs over memory. Inputs reach their
//! bounds; several callers write what one writes, and serving without a hall writes that too. A
//! gate holds a ticket at each place until a younger one has ended, and as many tickets are open at
//! once as there are callers. With such a gate callers give the book back at these places; with the
//! program's own gate, which holds nobody, they don't.
#![tactic(auto)]

#[cfg(test)]
mod alone;
#[cfg(test)]
mod ends;
#[cfg(test)]
mod held;
#[cfg(test)]
mod memory;
#[cfg(test)]
mod refusing;
#[cfg(test)]
mod reply_lines;
#[cfg(test)]
mod runs;
#[cfg(test)]
mod serving;
