// Room for the requests of a text.

ghost use Rattle.std.specs.Prelude.{◌≡◌};

use crate::entry::Entry;
use session_values::{MAX_REQUESTS, MAX_VARIABLES, Value};

/// The most arguments that the requests of a session have.
const MAX_ARGUMENTS: usize = MAX_REQUESTS as usize * MAX_VARIABLES;

/// Asks once for the capacity that the requests of a text of so many bytes can come to, and their
/// arguments, each of which takes two bytes at least: so the lists aren't moved while they grow.
/// Capacity that isn't used is never touched. Where there is none, the lists grow as they are
/// filled.
pub(crate) fn make_room(found: &mut Vec<Entry>, values: &mut Vec<Value>, bytes: usize)
    ensures found { found.new.items ≡ found.old.items }
    ensures values { values.new.items ≡ values.old.items }
{
    let most = bytes / 2 + 1;
    let _ = found.reserve(most.min(MAX_REQUESTS as usize));
    let _ = values.reserve(most.min(MAX_ARGUMENTS));
}
