// Writing: the text of a trace.

ghost use Rattle.std.specs.Prelude.{◌≡◌, true, false};
ghost use Rattle.std.specs.List.{AllByRecursion};
ghost use Rattle.byte_ends.specs.Ends.{Counted, Appended, AppendedPrefix};
ghost use Rattle.trace_lines.specs.EventText.{CanWrite, head_text, trace_text};

use crate::event_lines::{LONGEST, push_event_line};
use byte_ends::{Sink, WriteBuffer, write_all};
use session_journal::Event;
use session_values::Names;

/// Writes the text of a trace: its first line, and a line for each event. Tables are written by
/// their names, whose places in the list of names these are. Whole lines are gathered in the buffer,
/// in place of what it held, and written when the next one may have no room. It takes no memory, and
/// answers `false` after a fault.
pub fn write_events<O: Sink>(
    out: &mut O,
    events: &[Event],
    tables: &[u32],
    names: &Names,
    buffer: &mut WriteBuffer,
) -> bool
    requires writable { AllByRecursion (CanWrite names.now tables.now) events.now }
    ensures all { result ≡ true
        → Appended (O.held out.old) (O.held out.new) (trace_text names.now tables.now events.now) }
    ensures faults { Counted result (O.faults out.old) (O.faults out.new) }
    ensures front { result ≡ false → AppendedPrefix (O.held out.old) (O.held out.new)
        (trace_text names.now tables.now events.now) }
{
    push_head(buffer);
    for i in 0..events.len() {
        if !buffer.reserve(LONGEST) {
            if !write_all(out, buffer.bytes()) {
                return false;
            }
            buffer.clear();
        }
        push_event_line(&events[i], tables, names, buffer);
    }
    write_all(out, buffer.bytes())
}

// Puts the line with which the text begins in place of what the buffer held.
fn push_head(buffer: &mut WriteBuffer)
    ensures { buffer.new.held ≡ head_text }
{
    buffer.clear();
    if buffer.reserve(9) {
        buffer.push(b"%% trace\n");
    } else {
        unreachable!();
    }
}
