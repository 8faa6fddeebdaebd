// Tables with what a script opens them with.

ghost use Rattle.std.specs.Prelude.{◌≡◌, IfOk};
ghost use Rattle.session_journal.specs.Script.{IsScript};

use session_journal::Script;
use session_values::{NoMemory, TableKind, Value};
use shard_tables::{TellsOpening, WholeTables};
use std::alloc::Global;

/// What a script's tables open with.
#[derive(Drop)]
struct OpeningOf<'a, S: Script> {
    script: &'a S,
}

impl<'a, S: Script> TellsOpening for OpeningOf<'a, S> {
    ghost shape = { λ o. (S.meaning o.script.now).shape };

    ghost opened = { λ o. (S.meaning o.script.now).opened };

    fn room(&self, table: u32) -> u32 {
        self.script.room(table)
    }

    fn opening_len(&self, table: u32) -> u32 {
        self.script.opening_len(table)
    }

    fn opening_entry(&self, table: u32, i: u32) -> (Value, Value) {
        self.script.opening_entry(table, i)
    }
}

/// The tables with which a script opens, which are of these kinds, each with the room that the
/// script may fill.
pub(crate) fn opened_tables<S: Script>(
    alloc: Global,
    script: &S,
    shape: &[TableKind],
) -> Result<WholeTables, NoMemory>
    requires script { IsScript (S.meaning script.now) }
    requires shape { shape.now ≡ (S.meaning script.now).shape }
    ensures { IfOk result (λ ts. ts ≡ (S.meaning script.now).opening) }
{
    let told = OpeningOf { script };
    WholeTables::opened(alloc, &told, shape)
}
