// Requests of several clients. What one client alone gets, and what is refused, are stored runs.

use crate::runs::{End, ran};
use std::alloc::Global;
use std::fmt::Write;
use std::sync::Wait;
use std::test::Fail;
use std::thread::Threads;
use worker_gate::{HoldGate, OpenGate, Place};

/// A handler that puts, two requests of a client and one of another.
const TWO: &str = "map a; map b; handler w(k, v) { put(a, k, v); reply v; }\n\
                   %%\nw 0 5\nw 0 6\n%% next\nw 1 7\n";

/// A handler that counts how often it was called.
const COUNTING: &str = "map a; handler w(v) { let n = get(a, 0); if n == nil { n = 0; }\n\
                        let more = n + 1; put(a, 0, more); reply v, n; }\n%%\n";

/// How many requests each of three clients has.
const EACH: u32 = 200;

/// How a run ends of which a client is held behind its first request until the other client has
/// sent one, whether the gate held, and whether one of two texts was written.
fn held<R: Threads + Wait + Sync>(rt: &R, alloc: Global) -> Result<(End, bool, bool), Fail> {
    let gate = HoldGate::new(Place::Sent(0, 0), Place::Sent(1, 0), 10_000_000);
    let (end, ends) = ran(rt, alloc, ("clients --callers 4", TWO.as_bytes()), &gate)?;
    let one = ends.out.bytes() == "0 0 5\n0 2 6\n1 1 7\n".as_bytes();
    let two = ends.out.bytes() == "0 1 5\n0 2 6\n1 0 7\n".as_bytes();
    Ok((end, !gate.broken(), one || two))
}

/// Feeders run beside each other.
#[test]
fn a_client_sends_while_another_is_held(rt: HostRuntime) -> Result<(), Fail> {
    let found = held(&rt, rt.alloc())?;
    assert_eq!(rt; found, ((0, Some(3)), true, true));
    Ok(())
}

/// A session of three clients who count, with the numbers of their requests as values.
fn counting(alloc: Global) -> Result<String, Fail> {
    let mut text = String::from_str(alloc, COUNTING)?;
    for client in 0..3u32 {
        if client > 0 {
            text.push_str("%% next\n")?;
        }
        for value in 0..EACH {
            writeln!(text, "w {value}")?;
        }
    }
    Ok(text)
}

/// The number that digits say, in 32 bits.
fn number(digits: &str) -> u32 {
    digits.parse::<u32>().unwrap_or(u32::MAX)
}

/// Whether a line is this client's with this value, and what was counted is its ticket; and the
/// ticket, one more.
fn is_line(line: &str, client: u32, value: u32) -> (bool, u32) {
    let (first, rest) = line.split_once(' ').unwrap_or((line, ""));
    let (ticket, rest) = rest.split_once(' ').unwrap_or((rest, ""));
    let (said, counted) = rest.split_once(' ').unwrap_or((rest, ""));
    let is_right = number(first) == client && number(said) == value && counted == ticket;
    (is_right, number(ticket).saturating_add(1))
}

/// Whether each client's lines stand in order, with its own values and tickets that rise.
fn are_lines(text: &str) -> bool {
    let mut right = true;
    let mut rest = text;
    for client in 0..3 {
        let mut least = 0;
        for value in 0..EACH {
            let (line, more) = rest.split_once('\n').unwrap_or((rest, ""));
            let (is_right, next) = is_line(line, client, value);
            right = right && is_right && least < next;
            least = next;
            rest = more;
        }
    }
    right && rest.is_empty()
}

/// How 600 requests of three clients are served, how many the last round had, and whether the lines
/// are right: a request's ticket is what was counted before it, also over the end of a round.
fn rounds<R: Threads + Wait + Sync>(rt: &R, alloc: Global) -> Result<(End, bool), Fail> {
    let text = counting(alloc)?;
    let command = "clients --callers 32";
    let (end, ends) = ran(rt, alloc, (command, text.as_bytes()), &OpenGate)?;
    let is_right = match std::str::from_utf8(ends.out.bytes()) {
        Ok(lines) => are_lines(lines),
        Err(_) => false,
    };
    Ok((end, is_right))
}

#[test]
fn three_rounds_of_three_clients(rt: HostRuntime) -> Result<(), Fail> {
    let found = rounds(&rt, rt.alloc())?;
    assert_eq!(rt; found, ((0, Some(88)), true));
    Ok(())
}

/// How a run ends whose client is held after its last request but one until the first ticket has
/// ended, how many requests the last round had, and whether the gate held.
fn sent_late<R: Threads + Wait + Sync>(rt: &R, alloc: Global) -> Result<(End, bool), Fail> {
    let mut text = String::from_str(alloc, COUNTING)?;
    for value in 0..300u32 {
        writeln!(text, "w {value}")?;
    }
    let gate = HoldGate::new(Place::Sent(0, 298), Place::Ended(0), 10_000_000);
    let (end, _ends) = ran(rt, alloc, ("clients --callers 4", text.as_bytes()), &gate)?;
    Ok((end, !gate.broken()))
}

/// The first round is served, past the gate, while a client still sends.
#[test]
fn serves_while_a_client_still_sends(rt: HostRuntime) -> Result<(), Fail> {
    let found = sent_late(&rt, rt.alloc())?;
    assert_eq!(rt; found, ((0, Some(44)), true));
    Ok(())
}
