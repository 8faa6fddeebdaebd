// Writing what is asked of a session that was served.

ghost use Rattle.std.specs.Prelude.{◌≡◌, ◌≤◌, length, vec_capacity};
ghost use Rattle.session_values.specs.Limits.{max_callers, max_requests};
ghost use Rattle.session_journal.specs.Journal.{done_operations};
ghost use Rattle.session_values.specs.ReplyText.{reply_text};
ghost use Rattle.serve_words.specs.Summary.{summary};
ghost use Rattle.reply_sheet.specs.Printable.{ArePrintableReplies};
ghost use Rattle.byte_ends.specs.Changes.{change};
ghost use Rattle.serve_faults.specs.Traced.{table_places};
ghost use Rattle.serve_core.specs.declared.writing.Later.TheVariants.{Events, Tables};
ghost use Rattle.serve_core.specs.declared.writing.Writing.TheVariants.{AtEnd};
ghost use Rattle.serve_single.specs.Serving.{EndsBy};
ghost use Rattle.serve_core.specs.Serving.{HasLeft, HasRoomFor, IsPrintable, text_of};

use crate::counting::{count_bytes, count_calls};
use crate::final_tables::FinalTables;
use crate::served::Spare;
use byte_ends::{Sink, write_all};
use serve_faults::Status;
use serve_reading::Loaded;
use serve_words::summary_text;
use session_hall::Closed;
use session_values::Names;
use table_lines::write_tables;
use trace_lines::{event_bounds, write_events};

/// What is written of a session.
#[derive(Clone, Copy, Debug)]
pub(crate) enum Writing {
    /// The lines of its replies, while it is served.
    Replies,
    /// This, when all of it is served.
    AtEnd(Later),
}

/// What is written of a session when all of it is served.
#[derive(Clone, Copy, Debug)]
pub(crate) enum Later {
    /// The summary of a session of so many requests.
    Summary { requests: u32 },
    /// Its final tables.
    Tables,
    /// The events of its journal.
    Events,
}

/// Writes what is asked of a session when all of it is served.
pub(crate) fn write_session<O: Sink>(
    out: &mut O,
    closed: &Closed,
    loaded: &Loaded,
    spare: &mut Spare,
    later: Later,
) -> Status
    requires print { IsPrintable loaded.now.names loaded.now.program.file closed.now }
    requires room { HasRoomFor later loaded.now.program.file closed.now
        (vec_capacity spare.old.entries) }
    requires places { spare.old.tables.items ≡ table_places loaded.now.program.file }
    requires callers { closed.now.callers ≤ max_callers }
    ensures left { HasLeft (AtEnd later) loaded.now.names loaded.now.program.file closed.now }
    ensures ends { EndsBy (text_of (AtEnd later) loaded.now.names loaded.now.program.file
        closed.now) (change O.held O.faults out.old out.new) result }
{
    match later {
        Later::Summary { requests } => write_summary(out, closed, &loaded.names, requests),
        Later::Tables => write_finals(out, closed, loaded, spare),
        Later::Events => write_journal(out, closed, loaded, spare),
    }
}

// Writes the final tables.
fn write_finals<O: Sink>(out: &mut O, closed: &Closed, loaded: &Loaded, spare: &mut Spare) -> Status
    requires print { IsPrintable loaded.now.names loaded.now.program.file closed.now }
    requires room { HasRoomFor Tables loaded.now.program.file closed.now
        (vec_capacity spare.old.entries) }
    ensures left { HasLeft (AtEnd Tables) loaded.now.names loaded.now.program.file closed.now }
    ensures ends { EndsBy (text_of (AtEnd Tables) loaded.now.names loaded.now.program.file
        closed.now) (change O.held O.faults out.old out.new) result }
{
    let decls = loaded.program.checked().file().tables.as_slice();
    let tables = FinalTables::of(closed, decls.len() as u32);
    let Spare {
        entries,
        buffer,
        ..
    } = spare;
    if write_tables(out, decls, &tables, &loaded.names, entries, buffer) {
        Status::Fine
    } else {
        Status::WriteFault
    }
}

// Writes the events of the journal.
fn write_journal<O: Sink>(
    out: &mut O,
    closed: &Closed,
    loaded: &Loaded,
    spare: &mut Spare,
) -> Status
    requires print { IsPrintable loaded.now.names loaded.now.program.file closed.now }
    requires places { spare.old.tables.items ≡ table_places loaded.now.program.file }
    requires callers { closed.now.callers ≤ max_callers }
    ensures left { HasLeft (AtEnd Events) loaded.now.names loaded.now.program.file closed.now }
    ensures ends { EndsBy (text_of (AtEnd Events) loaded.now.names loaded.now.program.file
        closed.now) (change O.held O.faults out.old out.new) result }
{
    let events = closed.journal().events();
    event_bounds(events);
    let Spare { tables, buffer, .. } = spare;
    if write_events(out, events, tables.as_slice(), &loaded.names, buffer) {
        Status::Fine
    } else {
        Status::WriteFault
    }
}

// Writes the summary.
fn write_summary<O: Sink>(out: &mut O, closed: &Closed, names: &Names, requests: u32) -> Status
    requires few { length closed.now.replies ≤ max_requests }
    requires printable { ArePrintableReplies names.now closed.now.replies }
    ensures { EndsBy (summary requests (length (done_operations closed.now.journal))
        (length (reply_text names.now 0 closed.now.replies)))
        (change O.held O.faults out.old out.new) result }
{
    let calls = count_calls(closed.journal().events());
    let bytes = count_bytes(closed.replies().as_slice(), names);
    let text = summary_text(requests, calls, bytes);
    if write_all(out, text.as_str().as_bytes()) {
        Status::Fine
    } else {
        Status::WriteFault
    }
}
