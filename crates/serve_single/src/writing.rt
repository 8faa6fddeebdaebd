// Writing what is asked of a session that was served.

ghost use Rattle.std.specs.Prelude.{◌≤◌, true, false};
ghost use Rattle.std.specs.List.{AllByRecursion};
ghost use Rattle.session_journal.specs.Opening.{AreApart};
ghost use Rattle.session_journal.specs.Script.{session_of};
ghost use Rattle.handler_machine.specs.Scripts.{meaning};
ghost use Rattle.table_lines.specs.Dumped.{HaveRoom};
ghost use Rattle.byte_ends.specs.Changes.{change};
ghost use Rattle.serve_single.specs.Serving.{AreServed, CanServe, EndsOrWants, asked_text, script_of_loaded};
ghost use Rattle.serve_single.specs.Tables.{lists_in};

use crate::running::Served;
use crate::tables::Listing;
use byte_ends::{Sink, WriteBuffer};
use reply_sheet::write_replies;
use serve_faults::Status;
use serve_reading::Loaded;
use shard_tables::Part;
use std::alloc::Global;
use table_lines::write_tables;

/// Writes the lines of the replies; with `tables` the final tables.
pub(crate) fn write_asked<O: Sink>(
    alloc: Global,
    tables: bool,
    loaded: &Loaded,
    served: &Served,
    out: &mut O,
) -> Status
    requires can { CanServe loaded.now }
    requires served { AreServed (meaning (script_of_loaded loaded.now))
        (meaning (script_of_loaded loaded.now)).requests served.now.replies.items
        served.now.tables }
    ensures { EndsOrWants (asked_text tables loaded.now.names loaded.now.program.file
        (session_of (meaning (script_of_loaded loaded.now))))
        (change O.held O.faults out.old out.new) result }
{
    if tables {
        write_finals(alloc, loaded, served, out)
    } else {
        write_answers(alloc, loaded, served, out)
    }
}

// Writes the lines of the replies.
fn write_answers<O: Sink>(alloc: Global, loaded: &Loaded, served: &Served, out: &mut O) -> Status
    requires can { CanServe loaded.now }
    requires served { AreServed (meaning (script_of_loaded loaded.now))
        (meaning (script_of_loaded loaded.now)).requests served.now.replies.items
        served.now.tables }
    ensures { EndsOrWants (asked_text false loaded.now.names loaded.now.program.file
        (session_of (meaning (script_of_loaded loaded.now))))
        (change O.held O.faults out.old out.new) result }
{
    let Ok(mut buffer) = WriteBuffer::new(alloc) else {
        return Status::NoMemory;
    };
    let replies = served.replies.as_slice();
    if write_replies(out, 0, replies, &loaded.names, &mut buffer) {
        Status::Fine
    } else {
        Status::WriteFault
    }
}

// Writes the final tables. The room for the entries of the largest one is taken before anything is
// written.
fn write_finals<O: Sink>(alloc: Global, loaded: &Loaded, served: &Served, out: &mut O) -> Status
    requires can { CanServe loaded.now }
    requires served { AreServed (meaning (script_of_loaded loaded.now))
        (meaning (script_of_loaded loaded.now)).requests served.now.replies.items
        served.now.tables }
    ensures { EndsOrWants (asked_text true loaded.now.names loaded.now.program.file
        (session_of (meaning (script_of_loaded loaded.now))))
        (change O.held O.faults out.old out.new) result }
{
    let Ok(mut buffer) = WriteBuffer::new(alloc) else {
        return Status::NoMemory;
    };
    let parts = served.tables.parts();
    let most = most_entries(parts);
    let Ok(mut entries) = Vec::with_capacity(alloc, most as usize) else {
        return Status::NoMemory;
    };
    let decls = loaded.program.checked().file().tables.as_slice();
    let tables = Listing { parts };
    if write_tables(
        out,
        decls,
        &tables,
        &loaded.names,
        &mut entries,
        &mut buffer,
    ) {
        Status::Fine
    } else {
        Status::WriteFault
    }
}

// How many entries the largest of these tables has.
fn most_entries(parts: &[Part]) -> u32
    ensures room { HaveRoom result (lists_in parts.now) }
    ensures apart { AllByRecursion AreApart (lists_in parts.now) }
{
    let mut most = 0;
    for part in parts {
        most = larger(most, part.len());
    }
    most
}

// The larger of two numbers.
fn larger(a: u32, b: u32) -> u32
    ensures first { a ≤ result }
    ensures second { b ≤ result }
{
    if a < b { b } else { a }
}
