// The tables of a desk. Nothing else of this crate knows what keeps them.

ghost use Rattle.std.specs.Prelude.{◌≡◌, IfOk, OnOk, OnErr, IsOk, false, map};
ghost use Rattle.std.specs.Bool.{Decides};
ghost use Rattle.session_values.specs.Kinds.{is_adding};
ghost use Rattle.session_values.specs.Tables.{Fits, kind_of, reply, start, step};

use plain_tables::PlainTables;
use session_values::{NoMemory, Op, TableKind, Value};
use std::alloc::Global;
use std::marker::Model;

/// Maps and sets by the tables' numbers, and of what kind each is.
#[derive(Drop)]
pub(crate) struct DeskTables {
    tables: PlainTables,
    /// The kinds of the tables, by table number.
    shape: Vec<TableKind>,
}

impl Model for DeskTables {
    ghost use Rattle.std.specs.Prelude.{◌≡◌, map};
    ghost use Rattle.session_values.specs.Tables.{Tables, kind_of};
    ghost use Rattle.plain_tables.specs.Containers.{tables_code};

    ghost Value = { Tables };

    ghost coded = { tables_code };

    ghost view = { λ t. t.tables };

    ghost invariant = { λ t. map kind_of t.tables ≡ t.shape.items };
}

impl DeskTables {
    /// Tables of these kinds, all empty.
    pub(crate) fn open(alloc: Global, shape: &[TableKind]) -> Result<DeskTables, NoMemory>
        ensures { IfOk result (λ t. t ≡ start shape.now) }
    {
        Ok(DeskTables {
            tables: PlainTables::new(alloc, shape)?,
            shape: shape.to_vec(alloc)?,
        })
    }

    /// Whether an operation is one of these tables.
    pub(crate) fn fits(&self, op: &Op) -> bool
        ensures { Decides result (Fits (map kind_of self.now) op.now) }
    {
        op.bounds();
        match self.shape.get(op.table as usize) {
            Some(TableKind::Map) => op.kind.on_map(),
            Some(TableKind::Set) => !op.kind.on_map(),
            None => false,
        }
    }

    /// Does an operation, and answers its reply.
    pub(crate) fn apply(&mut self, op: Op) -> Result<Value, NoMemory>
        requires { Fits (map kind_of self.old) op }
        ensures reply { IfOk result (λ value. value ≡ reply self.old op) }
        ensures tables { OnOk result (self.new ≡ step self.old op) }
        ensures err { OnErr result (self.new ≡ self.old) }
        ensures sure { is_adding op.kind ≡ false → IsOk result }
    {
        self.tables.apply(op)
    }
}
