// Writing: the replies of clients, line by line.

ghost use Rattle.std.specs.Prelude.{◌≡◌, ◌≤◌, length, true, false};
ghost use Rattle.session_values.specs.Limits.{max_requests};
ghost use Rattle.byte_ends.specs.Ends.{Counted, Appended, AppendedPrefix};
ghost use Rattle.reply_sheet.specs.Printable.{ArePrintableReplies};
ghost use Rattle.reply_sheet.specs.Arrivals.{max_clients};
ghost use Rattle.reply_sheet.specs.ClientText.{clients_text};

use crate::arrival::Arrival;
use crate::client_line::gather_line;
use byte_ends::{Sink, WriteBuffer, write_all};
use session_values::{Names, Reply};

/// Writes the lines of the first clients, so many, one client's behind the other's, going over the
/// arrivals once for each. A ticket is an arrival's place, and has the reply at that place. Whole
/// lines are gathered in the buffer, in place of what it held, and written when the next one may
/// have no room. It takes no memory, and answers `false` after a fault.
pub fn write_clients<O: Sink>(
    out: &mut O,
    names: &Names,
    clients: u32,
    arrivals: &[Arrival],
    replies: &[Reply],
    buffer: &mut WriteBuffer,
) -> bool
    requires clients { clients ≤ max_clients }
    requires replied { length arrivals.now ≡ length replies.now }
    requires few { length replies.now ≤ max_requests }
    requires printable { ArePrintableReplies names.now replies.now }
    ensures all { result ≡ true → Appended (O.held out.old) (O.held out.new)
        (clients_text names.now arrivals.now replies.now clients) }
    ensures faults { Counted result (O.faults out.old) (O.faults out.new) }
    ensures front { result ≡ false → AppendedPrefix (O.held out.old) (O.held out.new)
        (clients_text names.now arrivals.now replies.now clients) }
{
    buffer.clear();
    for client in 0..clients {
        for (i, arrival) in arrivals.iter().enumerate() {
            if arrival.client == client
                && !gather_line(out, client, i as u32, &replies[i], names, buffer)
            {
                return false;
            }
        }
    }
    write_all(out, buffer.bytes())
}
