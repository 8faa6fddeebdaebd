// A line of a client.

ghost use Rattle.std.specs.Prelude.{◌≡◌, ◌+◌, ◌<◌, ◌≤◌, ◌++◌, true, false, length};
ghost use Rattle.std.specs.List.{AllByRecursion};
ghost use Rattle.session_values.specs.Limits.{max_requests};
ghost use Rattle.byte_ends.specs.Ends.{Counted, AppendedPrefix};
ghost use Rattle.session_values.specs.Reply.{values_of};
ghost use Rattle.session_values.specs.ReplyText.{IsPrintable};
ghost use Rattle.reply_sheet.specs.Arrivals.{max_clients};
ghost use Rattle.reply_sheet.specs.ClientText.{client_line};
ghost use Rattle.reply_sheet.specs.Moved.{HasMoved};

use crate::push_line;
use byte_ends::{Sink, WriteBuffer, write_all};
use itoa::Buffer;
use session_values::{Names, Reply};

/// The longest line: a client of 2 digits, a space, and a reply's line.
const LONGEST: usize = 269;

/// Appends a line to what waits in the buffer. Where the line may have no room, what waits is
/// written first. It answers `false` after a fault.
pub(crate) fn gather_line<O: Sink>(
    out: &mut O,
    client: u32,
    ticket: u32,
    reply: &Reply,
    names: &Names,
    buffer: &mut WriteBuffer,
) -> bool
    requires client { client < max_clients }
    requires ticket { ticket < max_requests }
    requires printable { AllByRecursion (IsPrintable names.now) (values_of reply.now) }
    ensures all { result ≡ true → HasMoved (O.held out.old) (O.held out.new) buffer.old.held
        buffer.new.held (client_line names.now client ticket reply.now) }
    ensures faults { Counted result (O.faults out.old) (O.faults out.new) }
    ensures front { result ≡ false
        → AppendedPrefix (O.held out.old) (O.held out.new) buffer.old.held }
{
    if !buffer.reserve(LONGEST) {
        if !write_all(out, buffer.bytes()) {
            return false;
        }
        buffer.clear();
    }
    push_client_line(client, ticket, reply, names, buffer);
    true
}

// Appends a line, for which room is reserved.
fn push_client_line(
    client: u32,
    ticket: u32,
    reply: &Reply,
    names: &Names,
    buffer: &mut WriteBuffer,
)
    requires client { client < max_clients }
    requires ticket { ticket < max_requests }
    requires printable { AllByRecursion (IsPrintable names.now) (values_of reply.now) }
    requires room { 269 ≤ buffer.old.reserved }
    ensures { buffer.new.held
        ≡ buffer.old.held ++ client_line names.now client ticket reply.now }
{
    let mut number = Buffer::new();
    buffer.push(number.format(client).as_bytes());
    buffer.push(b" ");
    push_line(ticket, reply, names, buffer);
}
