// Replaying the entries of the tickets, one ticket after another.

ghost use Rattle.std.specs.Prelude.{◌≡◌, IfOk, map};
ghost use Rattle.std.specs.Bool.{MatchBool};
ghost use Rattle.session_values.specs.Tables.{kind_of};
ghost use Rattle.session_journal.specs.Journal.{Replays, run};
ghost use Rattle.trace_audit.specs.Noted.{entries_of};
ghost use Rattle.trace_audit.specs.Replaying.{AllFit, EntriesFit, FindsUnreplayed, Replayed};

use crate::ticket_replay::{Noted, TicketReplay, same_value};
use session_values::NoMemory;
use shard_tables::WholeTables;

/// Does these entries on the tables, up to the first that the tables give another reply; whether
/// there is none.
fn replay_entries(tables: &mut WholeTables, entries: &[Noted]) -> Result<bool, NoMemory>
    requires { EntriesFit (map kind_of tables.old) (entries_of entries.now) }
    ensures took { IfOk result
        (λ took. Replayed tables.old (entries_of entries.now) took tables.new) }
    ensures kinds { map kind_of tables.new ≡ map kind_of tables.old }
{
    for noted in entries {
        let given = tables.apply(noted.op)?;
        if !same_value(given, noted.reply) {
            return Ok(false);
        }
    }
    Ok(true)
}

/// The first ticket with an entry that the tables give another reply, where the tickets' entries
/// are done one ticket after another; None where there is none.
pub(crate) fn first_unreplayed(
    tables: &mut WholeTables,
    replays: &[TicketReplay],
) -> Result<Option<usize>, NoMemory>
    requires { AllFit (map kind_of tables.old) replays.now }
    ensures { IfOk result (λ found. FindsUnreplayed tables.old replays.now found) }
{
    for (t, replay) in replays.iter().enumerate() {
        if !replay_entries(tables, replay.entries())? {
            return Ok(Some(t));
        }
    }
    Ok(None)
}
