// The tables of a session that is served alone: what answers its handlers, and their entries.

use handler_machine::Answerer;
use session_values::{NoMemory, Op, Value};
use shard_tables::{Part, WholeTables};
use table_lines::TellsEntries;

/// Tables that answer handlers.
#[derive(Drop)]
pub(crate) struct Answering {
    pub(crate) tables: WholeTables,
}

impl Answerer for Answering {
    ghost use Rattle.std.specs.Prelude.{false, map};
    ghost use Rattle.session_values.specs.Tables.{kind_of};
    ghost use Rattle.serve_single.specs.Tables.{WholeStep};

    ghost shape = { λ a. map kind_of a.tables };

    ghost Step = { WholeStep };

    ghost sure = { λ _. false };

    fn answer(&mut self, op: Op) -> Result<Value, NoMemory> {
        self.tables.apply(op)
    }
}

/// Tables whose entries are asked for by their places.
#[derive(Drop)]
pub(crate) struct Listing<'a> {
    pub(crate) parts: &'a [Part],
}

impl<'a> TellsEntries for Listing<'a> {
    ghost use Rattle.serve_single.specs.Tables.{lists_in};

    ghost lists = { λ l. lists_in l.parts.now };

    fn entry_count(&self, table: u32) -> u32 {
        self.parts[table as usize].len()
    }

    fn entry_at(&self, table: u32, i: u32) -> (Value, Value) {
        self.parts[table as usize].entry(i)
    }
}
