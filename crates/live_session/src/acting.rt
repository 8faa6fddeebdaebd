// The acts of a request.

ghost use Rattle.std.specs.Prelude.{◌≡◌};
ghost use Rattle.live_session.specs.Entries.{acts_of};
ghost use Rattle.live_session.specs.Held.{held};

use crate::arguments::Arguments;
use crate::tables::LiveTables;
use declaration_insertion::Program;
use driven_tickets::History;

/// The acts of a handler with these arguments, as the ticket of this number, on tables with room
/// for all keys that it may add. Only proofs read them: it does nothing when it runs.
pub(crate) fn acts(
    _program: &Program,
    _number: &u64,
    _h: &u32,
    _args: &Arguments,
    _tables: &LiveTables,
) -> History
    ensures { result ≡ record {
      acts = acts_of _program.now _number.now _h.now _args.now.values.items
          (held _tables.now.parts.items);
    } }
{
    History {}
}
