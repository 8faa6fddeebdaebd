// Traces of runs in which a ticket is held. Traces of one caller are stored runs, in `checks/`.

use crate::runs::{Ends, ran};
use std::alloc::Global;
use std::sync::Wait;
use std::test::Fail;
use std::thread::Threads;
use worker_gate::{HoldGate, OpenGate, Place};

/// A handler that puts, and two requests that have nothing to do with each other.
const APART: &str = "map a; handler w(k, v) { put(a, k, v); reply v; }\n%%\nw 0 5\nw 1 6\n";

/// The same with one key.
const ALIKE: &str = "map a; handler w(k, v) { put(a, k, v); reply v; }\n%%\nw 0 5\nw 0 6\n";

/// Whether a run wrote one of two texts.
fn wrote(ends: &Ends, one: &str, two: &str) -> bool {
    ends.out.bytes() == one.as_bytes() || ends.out.bytes() == two.as_bytes()
}

/// How a run ends whose ticket 0 is held at its beginning until ticket 1 has ended, whether the
/// gate held, and whether it wrote one of two texts.
fn held<R: Threads + Wait + Sync>(
    rt: &R,
    alloc: Global,
    (one, two): (&str, &str),
) -> Result<(u8, bool, bool), Fail> {
    let gate = HoldGate::new(Place::Begun(0), Place::Ended(1), 10_000_000);
    let command = "trace --callers 2";
    let ((status, _), ends) = ran(rt, alloc, (command, APART.as_bytes()), &gate)?;
    Ok((status, !gate.broken(), wrote(&ends, one, two)))
}

/// The events stand in the order in which they came, not in that of the tickets.
#[test]
fn a_younger_ticket_stands_first(rt: HostRuntime) -> Result<(), Fail> {
    let one = "%% trace\nbegin 0 0\nbegin 1 1\ndone 1 put a 1 6 nil\nend 1 6\n\
               done 0 put a 0 5 nil\nend 0 5\n";
    let two = "%% trace\nbegin 0 1\nbegin 1 0\ndone 1 put a 1 6 nil\nend 1 6\n\
               done 0 put a 0 5 nil\nend 0 5\n";
    let found = held(&rt, rt.alloc(), (one, two))?;
    assert_eq!(rt; found, (0, true, true));
    Ok(())
}

/// How one caller ends the session with one key, and whether it wrote this text.
fn alone<R: Threads + Wait + Sync>(rt: &R, alloc: Global, text: &str) -> Result<(u8, bool), Fail> {
    let command = "trace --callers 1";
    let ((status, _), ends) = ran(rt, alloc, (command, ALIKE.as_bytes()), &OpenGate)?;
    Ok((status, wrote(&ends, text, text)))
}

/// One caller serves one ticket after another.
#[test]
fn one_caller_serves_in_order(rt: HostRuntime) -> Result<(), Fail> {
    let text = "%% trace\nbegin 0 0\ndone 0 put a 0 5 nil\nend 0 5\nbegin 1 0\n\
                done 1 put a 0 6 nil\nend 1 6\n";
    let found = alone(&rt, rt.alloc(), text)?;
    assert_eq!(rt; found, (0, true));
    Ok(())
}

/// How two callers end the session with one key, whose ticket 0 is held at its beginning until ticket
/// 1 is begun, whether the gate held, and whether a delay of ticket 1 is told. Who begins ticket 1
/// has the book in hand until its operation is delayed, so ticket 0 can't end before.
fn delayed<R: Threads + Wait + Sync>(rt: &R, alloc: Global) -> Result<(u8, bool, bool), Fail> {
    let gate = HoldGate::new(Place::Begun(0), Place::Begun(1), 10_000_000);
    let command = "trace --callers 2";
    let ((status, _), ends) = ran(rt, alloc, (command, ALIKE.as_bytes()), &gate)?;
    let one = "%% trace\nbegin 0 0\nbegin 1 1\ndelay 1 put a 0 6 0 put a 0 5\n\
               done 0 put a 0 5 nil\nend 0 5\ndone 1 put a 0 6 nil\nend 1 6\n";
    let two = "%% trace\nbegin 0 1\nbegin 1 0\ndelay 1 put a 0 6 0 put a 0 5\n\
               done 0 put a 0 5 nil\nend 0 5\ndone 1 put a 0 6 nil\nend 1 6\n";
    Ok((status, !gate.broken(), wrote(&ends, one, two)))
}

/// An operation that waits for an older ticket has its line.
#[test]
fn a_delay_has_its_line(rt: HostRuntime) -> Result<(), Fail> {
    let found = delayed(&rt, rt.alloc())?;
    assert_eq!(rt; found, (0, true, true));
    Ok(())
}
