// Tables with what they open with.

ghost use Rattle.std.specs.Prelude.{◌≡◌, IfOk};
ghost use Rattle.session_journal.specs.Script.{IsScript};
ghost use Rattle.handler_machine.specs.Scripts.{meaning};

use handler_machine::Scripts;
use session_journal::Script;
use session_values::{NoMemory, TableKind, Value};
use shard_tables::{TellsOpening, WholeTables};
use std::alloc::Global;

// What the tables of a session open with.
#[derive(Drop)]
struct OpeningOf<'a, 'b> {
    scripts: &'a Scripts<'b>,
}

impl<'a, 'b> TellsOpening for OpeningOf<'a, 'b> {
    ghost use Rattle.handler_machine.specs.Scripts.{meaning};

    ghost shape = { λ o. (meaning o.scripts.now).shape };

    ghost opened = { λ o. (meaning o.scripts.now).opened };

    fn room(&self, table: u32) -> u32 {
        self.scripts.room(table)
    }

    fn opening_len(&self, table: u32) -> u32 {
        self.scripts.opening_len(table)
    }

    fn opening_entry(&self, table: u32, i: u32) -> (Value, Value) {
        self.scripts.opening_entry(table, i)
    }
}

/// The tables with which a script opens, which are of these kinds. What serving it may add has
/// room.
pub(crate) fn opened_tables(
    alloc: Global,
    scripts: &Scripts<'_>,
    shape: &[TableKind],
) -> Result<WholeTables, NoMemory>
    requires script { IsScript (meaning scripts.now) }
    requires shape { shape.now ≡ (meaning scripts.now).shape }
    ensures { IfOk result (λ ts. ts ≡ (meaning scripts.now).opening) }
{
    let told = OpeningOf { scripts };
    WholeTables::opened(alloc, &told, shape)
}
