// The tables of a closed hall, opened again.

ghost use Rattle.std.specs.Prelude.{◌≤◌, length};
ghost use Rattle.session_values.specs.Opening.{IsOpening};
ghost use Rattle.session_values.specs.Limits.{max_tables};
ghost use Rattle.client_feed.specs.Reopening.{CanReopen, Reopens, left_lists};

use session_hall::Closed;
use session_values::TableKind;

/// Looks at how many entries each table was left with.
pub fn look_at_tables(closed: &Closed, shape: &[TableKind])
    requires can { CanReopen shape.now closed.now }
    requires few { length shape.now ≤ max_tables }
    ensures opens { IsOpening shape.now (left_lists (length shape.now) closed.now) }
    ensures lists { Reopens closed.now shape.now (left_lists (length shape.now) closed.now) }
{
    for table in 0..shape.len() as u32 {
        let _entries = closed.len(table);
    }
}
