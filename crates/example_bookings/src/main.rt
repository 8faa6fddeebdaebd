//! An example of a program over the hall with a script of its own and no handler: customers ask for
//! seats, two callers serve them in threads, and what each was answered is written in their order.
#![tactic(auto)]

ghost use Rattle.std.specs.Prelude.{◌≡◌, ◌*◌, ◌<◌, IfOk, length};
ghost use Rattle.session_hall.specs.Closings.{IsDone};
ghost use Rattle.example_bookings.specs.Bookings.{bookings_meaning};

mod booking;
mod script;

use booking::{Booking, SEATS, WAITING};
use hall_serving::{Sizes, open_session, serve_session};
use script::Bookings;
use session_hall::Closed;
use session_values::{NoMemory, TableKind, Value};
use std::alloc::Global;
use std::fmt::Write;
use std::process::ExitCode;
use std::sync::Wait;
use std::thread::Threads;
use worker_gate::OpenGate;

/// Who asks for which seat, in order.
const BOOKINGS: [Booking; 7] = [
    Booking { seat: 12, who: 501 },
    Booking { seat: 14, who: 502 },
    Booking { seat: 12, who: 503 },
    Booking { seat: 11, who: 504 },
    Booking { seat: 14, who: 505 },
    Booking { seat: 12, who: 506 },
    Booking { seat: 13, who: 507 },
];

impl<'a> Bookings<'a> {
    /// What a hall leaves when its callers have served all bookings: each has the reply that it
    /// gets when they are served one at a time, in order.
    pub fn served<R: Threads + Wait + Sync>(self, rt: &R, alloc: Global) -> Result<Closed, NoMemory>
        ensures done { IfOk result (IsDone (bookings_meaning self.entry.list.now)) }
        ensures shards { IfOk result (λ c. c.shards ≡ 2) }
        ensures callers { IfOk result (λ c. c.callers ≡ 2) }
    {
        // The kinds of `SEATS` and `WAITING`, two shards for each of them, and two callers.
        let sizes = Sizes {
            callers: 2,
            shards: 2,
        };
        let session = open_session(alloc, self, &[TableKind::Map, TableKind::Set], sizes)?;
        Ok(serve_session(rt, session, &self, &OpenGate))
    }

    /// What is written: each booking with its answer, in their order, then who has which seat, and
    /// then who waits.
    fn text<R: Threads + Wait + Sync>(self, rt: &R, alloc: Global) -> Result<String, NoMemory> {
        let closed = self.served(rt, alloc)?;
        let mut text = String::new(alloc);
        for (Booking { seat, who }, reply) in self.list.iter().zip(closed.replies().as_slice()) {
            let holder = number(reply.a());
            writeln!(text, "{who} asks for seat {seat}, which {holder} has")?;
        }
        for (seat, holder) in &entries(alloc, &closed, SEATS)? {
            writeln!(text, "seat {seat}: {holder}")?;
        }
        for (who, _) in &entries(alloc, &closed, WAITING)? {
            writeln!(text, "waits: {who}")?;
        }
        Ok(text)
    }
}

/// The entries that a table was left with, in the order of their keys: in which order they lie in a
/// closed hall depends on the order in which the callers came.
fn entries(alloc: Global, closed: &Closed, table: u32) -> Result<Vec<(i64, i64)>, NoMemory>
    requires { table * closed.now.shards < length closed.now.parts }
{
    let mut entries = Vec::new(alloc);
    for i in 0..closed.len(table) {
        let (key, value) = closed.entry(table, i);
        entries.push((number(key), number(value)))?;
    }
    entries.sort()?;
    Ok(entries)
}

/// The number that a value is, and 0 where it is none.
fn number(value: Value) -> i64 {
    if let Value::Num(n) = value { n } else { 0 }
}

/// Ends with 0, with 3 where memory is refused, or with 5 where the output fails.
fn main(rt: HostRuntime) -> ExitCode {
    let text = Bookings { list: &BOOKINGS }.text(&rt, rt.alloc());
    ExitCode::from(match text.map(|text| rt.write_all(text.as_bytes())) {
        Ok(Ok(())) => 0,
        Err(NoMemory) => 3,
        Ok(Err(_)) => 5,
    })
}
