// Writing the tables of a session.

ghost use Rattle.std.specs.Prelude.{◌≤◌, ◌≡◌, length};
ghost use Rattle.std.specs.List.{AllByRecursion};
ghost use Rattle.session_values.specs.Opening.{AreApart};
ghost use Rattle.table_lines.specs.Dumped.{HaveRoom as HaveEntryRoom};
ghost use Rattle.byte_ends.specs.Changes.{change};
ghost use Rattle.live_session.specs.Dumps.{DumpEnds};
ghost use Rattle.live_session.specs.Held.{lists_in};
ghost use Rattle.live_session.specs.Live.{dump_of};

use crate::session::LiveSession;
use byte_ends::{Sink, WriteBuffer};
use shard_tables::Part;
use table_lines::write_tables;

/// How a dump ended.
#[derive(Clone, Copy, Debug, PartialEq, Eq)]
pub enum Dumped {
    /// All was written.
    Written,
    /// The sink failed; what was written is a front of the text.
    Failed,
    /// Memory ran out, and nothing was written.
    NoMemory,
}

impl LiveSession {
    /// Writes the tables as they are, as `dump` writes them: a table part that a session can open
    /// with again.
    pub fn dump<O: Sink>(&self, out: &mut O) -> Dumped
        ensures { DumpEnds (dump_of self.now) (change O.held O.faults out.old out.new) result }
    {
        let Ok(mut buffer) = WriteBuffer::new(self.alloc) else {
            return Dumped::NoMemory;
        };
        let most = most_entries(self.tables.parts.as_slice());
        let Ok(mut entries) = Vec::with_capacity(self.alloc, most as usize) else {
            return Dumped::NoMemory;
        };
        let decls = self.program.checked().file().tables.as_slice();
        if write_tables(
            out,
            decls,
            &self.tables,
            &self.names,
            &mut entries,
            &mut buffer,
        ) {
            Dumped::Written
        } else {
            Dumped::Failed
        }
    }
}

// How many entries the largest of these tables has.
fn most_entries(parts: &[Part]) -> u32
    ensures room { HaveEntryRoom result (lists_in parts.now) }
    ensures apart { AllByRecursion AreApart (lists_in parts.now) }
{
    let mut most = 0;
    for part in parts {
        most = larger(most, part.len());
    }
    most
}

// The larger of two numbers.
fn larger(a: u32, b: u32) -> u32
    ensures first { a ≤ result }
    ensures second { b ≤ result }
{
    if a < b { b } else { a }
}
