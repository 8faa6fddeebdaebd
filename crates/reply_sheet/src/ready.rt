// Writing: the lines that are next, of replies that come in any order.

ghost use Rattle.std.specs.Prelude.{◌≡◌, ◌+◌, ◌≤◌, ℕ, drop, length, true, false};
ghost use Rattle.session_values.specs.Limits.{max_requests};
ghost use Rattle.byte_ends.specs.Ends.{Counted, Appended, AppendedPrefix};
ghost use Rattle.session_values.specs.ReplyText.{reply_text};
ghost use Rattle.reply_sheet.specs.Ready.{AreKeptPrintable, ready};

use crate::pending::Pending;
use crate::reply_line::{LONGEST, push_line};
use byte_ends::{Sink, WriteBuffer, write_all};
use session_values::Names;

/// Writes the lines of the replies that are next, up to a ticket of which none is kept; that one is
/// next then. Whole lines are gathered in the buffer, in place of what it held, and written when
/// the next one may have no room. It answers `false` after a fault.
pub fn write_ready<O: Sink>(
    out: &mut O,
    pending: &mut Pending,
    names: &Names,
    buffer: &mut WriteBuffer,
) -> bool
    requires few { pending.old.next + length pending.old.waiting ≤ max_requests }
    requires printable { AreKeptPrintable names.now pending.old.waiting }
    ensures onward { (n : ℕ) × (pending.new.next ≡ pending.old.next + n)
        × (pending.new.waiting ≡ drop n pending.old.waiting) × (n ≤ length pending.old.waiting) }
    ensures next { result ≡ true
        → pending.new.next ≡ pending.old.next + length (ready pending.old) }
    ensures all { result ≡ true → Appended (O.held out.old) (O.held out.new)
        (reply_text names.now pending.old.next (ready pending.old)) }
    ensures faults { Counted result (O.faults out.old) (O.faults out.new) }
    ensures front { result ≡ false → AppendedPrefix (O.held out.old) (O.held out.new)
        (reply_text names.now pending.old.next (ready pending.old)) }
{
    buffer.clear();
    while let Some((ticket, reply)) = pending.take_next() {
        if !buffer.reserve(LONGEST) {
            if !write_all(out, buffer.bytes()) {
                return false;
            }
            buffer.clear();
        }
        push_line(ticket, &reply, names, buffer);
    }
    write_all(out, buffer.bytes())
}
