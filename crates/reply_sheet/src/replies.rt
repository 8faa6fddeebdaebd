// Writing: the replies, line by line.

ghost use Rattle.std.specs.Prelude.{◌≡◌, ◌+◌, ◌≤◌, length, true, false};
ghost use Rattle.session_values.specs.Limits.{max_requests};
ghost use Rattle.byte_ends.specs.Ends.{Counted, Appended, AppendedPrefix};
ghost use Rattle.session_values.specs.ReplyText.{reply_text};
ghost use Rattle.reply_sheet.specs.Printable.{ArePrintableReplies};

use crate::reply_line::{LONGEST, push_line};
use byte_ends::{Sink, WriteBuffer, write_all};
use session_values::{Names, Reply};

/// Writes the lines of the replies, of which the first is the ticket `start`'s. Whole lines are
/// gathered in the buffer, in place of what it held, and written when the next one may have no
/// room. It answers `false` after a fault.
pub fn write_replies<O: Sink>(
    out: &mut O,
    start: u32,
    replies: &[Reply],
    names: &Names,
    buffer: &mut WriteBuffer,
) -> bool
    requires few { start + length replies.now ≤ max_requests }
    requires printable { ArePrintableReplies names.now replies.now }
    ensures all { result ≡ true
        → Appended (O.held out.old) (O.held out.new) (reply_text names.now start replies.now) }
    ensures faults { Counted result (O.faults out.old) (O.faults out.new) }
    ensures front { result ≡ false
        → AppendedPrefix
        (O.held out.old)
        (O.held out.new)
        (reply_text names.now start replies.now) }
{
    buffer.clear();
    for (i, reply) in replies.iter().enumerate() {
        if !buffer.reserve(LONGEST) {
            if !write_all(out, buffer.bytes()) {
                return false;
            }
            buffer.clear();
        }
        push_line(start + i as u32, reply, names, buffer);
    }
    write_all(out, buffer.bytes())
}
