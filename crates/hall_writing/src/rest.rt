// Writing when all is served.

ghost use Rattle.std.specs.Prelude.{◌≡◌, ◌≤◌, true, false, length};
ghost use Rattle.session_values.specs.Limits.{max_requests};
ghost use Rattle.reply_sheet.specs.Printable.{ArePrintableReplies};
ghost use Rattle.hall_writing.specs.Sheets.{Ends, progress};

use crate::sheet::Sheet;
use byte_ends::Sink;
use reply_sheet::write_replies;
use session_values::{Names, Reply};

/// Writes the lines that are left of all replies, unless writing has failed. It answers `false`
/// after a fault, then or before.
pub(crate) fn write_rest<O: Sink>(
    replies: &[Reply],
    mut sheet: Sheet,
    out: &mut O,
    names: &Names,
) -> bool
    requires few { length replies.now ≤ max_requests }
    requires printable { ArePrintableReplies names.now replies.now }
    requires within { sheet.failed ≡ false → sheet.pending.next ≤ length replies.now }
    ensures quiet { sheet.failed ≡ true → out.new ≡ out.old }
    ensures failed { sheet.failed ≡ true → result ≡ false }
    ensures ends { Ends replies.now names.now
        (progress (O.held out.old) (O.faults out.old) sheet)
        (O.held out.new) (O.faults out.new) result }
{
    if sheet.failed {
        return false;
    }
    let next = sheet.pending.next();
    write_replies(
        out,
        next,
        &replies[next as usize..],
        names,
        &mut sheet.buffer,
    )
}
