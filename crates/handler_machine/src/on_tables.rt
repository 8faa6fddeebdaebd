// Operations answered by plain tables.

use crate::Answerer;
use plain_tables::PlainTables;
use session_values::{NoMemory, Op, Value};

/// Answers operations by doing them on tables, one after another.
#[derive(Drop)]
pub struct TablesAnswerer {
    pub tables: PlainTables,
}

impl Answerer for TablesAnswerer {
    ghost use Rattle.std.specs.Prelude.{◌≡◌, false, map};
    ghost use Rattle.session_values.specs.Tables.{kind_of, reply, step};

    ghost shape = { λ a. map kind_of a.tables };

    ghost Step = { λ old op v new. (v ≡ reply old.tables op) × (new.tables ≡ step old.tables op) };

    ghost sure = { λ _. false };

    fn answer(&mut self, op: Op) -> Result<Value, NoMemory> {
        self.tables.apply(op)
    }
}
