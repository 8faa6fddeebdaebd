// One table: a map or a set.

ghost use Rattle.std.specs.Prelude.{◌≡◌, IfOk, OnOk, OnErr, IsOk, false};
ghost use Rattle.session_values.specs.Kinds.{is_adding};
ghost use Rattle.session_values.specs.Tables.{empty_of, reply_on, after_on};
ghost use Rattle.plain_tables.specs.Containers.{container_of};

use crate::value_map::ValueMap;
use crate::value_set::ValueSet;
use session_values::{NoMemory, Op, TableKind, Value};
use std::alloc::Global;

/// A table's container.
#[derive(Drop)]
pub enum Table {
    Map(ValueMap),
    Set(ValueSet),
}

impl Table {
    /// An empty container of this kind.
    pub fn new(alloc: Global, kind: TableKind) -> Table
        ensures { container_of result ≡ empty_of kind }
    {
        match kind {
            TableKind::Map => Table::Map(ValueMap::new(alloc)),
            TableKind::Set => Table::Set(ValueSet::new(alloc)),
        }
    }

    /// Does one operation, whatever table it names.
    pub fn apply(&mut self, op: Op) -> Result<Value, NoMemory>
        ensures reply { IfOk result (λ value. value ≡ reply_on (container_of self.old) op) }
        ensures after { OnOk result (container_of self.new ≡ after_on (container_of self.old) op) }
        ensures err { OnErr result (container_of self.new ≡ container_of self.old) }
        ensures sure { is_adding op.kind ≡ false → IsOk result }
    {
        match self {
            Table::Map(map) => map.apply(op),
            Table::Set(set) => set.apply(op),
        }
    }
}
