// The tables of a session.

ghost use Rattle.std.specs.Prelude.{◌≡◌, IfOk, OnOk, OnErr, IsOk, Some, false, map, slice_get};
ghost use Rattle.session_values.specs.Kinds.{home, is_adding};
ghost use Rattle.session_values.specs.Tables.{start, reply, step, kind_of};

use crate::table::Table;
use session_values::{NoMemory, Op, TableKind, Value};
use std::alloc::Global;
use std::marker::Model;

/// The maps and sets of a session, by the tables' numbers.
#[derive(Drop)]
pub struct PlainTables {
    tables: Vec<Table>,
}

impl Model for PlainTables {
    ghost use Rattle.session_values.specs.Tables.{Tables};
    ghost use Rattle.plain_tables.specs.Containers.{tables_code, tables_of};

    ghost Value = { Tables };

    ghost coded = { tables_code };

    ghost view = { λ t. tables_of t.tables.items };
}

impl PlainTables {
    /// Tables of these kinds, all empty.
    pub fn new(alloc: Global, shape: &[TableKind]) -> Result<PlainTables, NoMemory>
        ensures tables { IfOk result (λ tables. tables ≡ start shape.now) }
        ensures kinds { IfOk result (λ tables. map kind_of tables ≡ shape.now) }
    {
        let mut tables = Vec::new(alloc);
        for kind in shape {
            tables.push(Table::new(alloc, *kind))?;
        }
        Ok(PlainTables { tables })
    }

    /// Does one operation, and answers its reply.
    pub fn apply(&mut self, op: Op) -> Result<Value, NoMemory>
        // The table exists and has the operation's kind of container.
        requires fits { slice_get (map kind_of self.old) op.table ≡ Some (home op.kind) }
        ensures reply { IfOk result (λ value. value ≡ reply self.old op) }
        ensures tables { OnOk result (self.new ≡ step self.old op) }
        ensures err { OnErr result (self.new ≡ self.old) }
        ensures sure { is_adding op.kind ≡ false → IsOk result }
        ensures kinds { map kind_of self.new ≡ map kind_of self.old }
    {
        self.tables[op.table as usize].apply(op)
    }
}
