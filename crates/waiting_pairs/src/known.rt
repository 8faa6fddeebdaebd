// The operations that a symbol delays, each symbol tried once.

ghost use Rattle.std.specs.Prelude.{◌≡◌, ◌++◌, List, Contains, true, IfOk, OnOk, map};
ghost use Rattle.std.specs.List.{All};
ghost use Rattle.waiting_pairs.specs.declared.asked.Asked.{Asked};
ghost use Rattle.waiting_pairs.specs.Chosen.{AreAmong, Chosen, IsKnown};
ghost use Rattle.waiting_pairs.specs.Delays.{Delays};
ghost use Rattle.waiting_pairs.specs.Waits.{Adds, against, wait};

use crate::asked::Asked;
use crate::delaying::delays;
use crate::sought::Sought;
use crate::waiting::Wait;
use indexmap::{IndexMap, IndexSet};
use session_values::NoMemory;
use std::alloc::Global;
use symbolic_ops::Symbol;

/// The operations of a file, and for each symbol that was looked up those that it delays.
#[derive(Drop)]
pub(crate) struct Known {
    /// All operations, in the order of the text.
    pub(crate) asked: Vec<Asked>,
    /// The same, each once.
    pub(crate) ops: Vec<Symbol>,
    /// For each symbol that was looked up the operations that it delays, in the order of the text.
    pub(crate) lists: IndexMap<Sought, Vec<Asked>>,
}

/// The operations, each once.
fn ops_of(alloc: Global, asked: &[Asked]) -> Result<Vec<Symbol>, NoMemory>
    ensures { IfOk result (λ ops. AreAmong ops.items asked.now) }
{
    let mut seen = IndexSet::new(alloc);
    let mut ops = Vec::new(alloc);
    for a in asked {
        let new = seen.insert(Sought { symbol: a.op })?;
        if new {
            ops.push(a.op)?;
        }
    }
    Ok(ops)
}

/// Whether the symbol delays none of these.
fn delays_none(symbol: &Symbol, ops: &[Symbol]) -> bool
    ensures { result ≡ true → All (λ o. Delays symbol.now o → ⊥) ops.now }
{
    for op in ops {
        if delays(symbol, op) {
            return false;
        }
    }
    true
}

/// Those of the operations that the symbol delays, in the same order.
fn chosen_of(alloc: Global, symbol: &Symbol, asked: &[Asked]) -> Result<Vec<Asked>, NoMemory>
    ensures { IfOk result (λ found. Chosen symbol.now asked.now found.items) }
{
    let mut found = Vec::new(alloc);
    for a in asked {
        if delays(symbol, &a.op) {
            found.push(*a)?;
        }
    }
    Ok(found)
}

/// The waits of these operations for a symbol of a point join `out`.
fn add_list(
    holder: u32,
    point: u32,
    symbol: &Symbol,
    list: &[Asked],
    out: &mut Vec<Wait>,
) -> Result<(), NoMemory>
    ensures { OnOk result (out.new.items
        ≡ out.old.items ++ map (wait holder point symbol.now) list.now) }
{
    for a in list {
        out.push(Wait {
            holder,
            point,
            symbol: *symbol,
            asked: *a,
        })?;
    }
    Ok(())
}

impl Known {
    /// These operations; no symbol was looked up.
    pub(crate) fn new(alloc: Global, asked: Vec<Asked>) -> Result<Known, NoMemory>
        ensures { IfOk result (IsKnown asked.items) }
    {
        let ops = ops_of(alloc, &asked)?;
        Ok(Known {
            asked,
            ops,
            lists: IndexMap::new(alloc),
        })
    }

    /// The operations that the symbol delays, where it wasn't looked up before.
    fn tried(&self, alloc: Global, symbol: &Symbol) -> Result<Vec<Asked>, NoMemory>
        ensures { (asked : List Asked) → IsKnown asked self.now
            → IfOk result (λ list. Chosen symbol.now asked list.items) }
    {
        if delays_none(symbol, &self.ops) {
            Ok(Vec::new(alloc))
        } else {
            chosen_of(alloc, symbol, &self.asked)
        }
    }

    /// The operations that a symbol of a point delays join `out`.
    pub(crate) fn add_against(
        &mut self,
        alloc: Global,
        holder: u32,
        point: u32,
        symbol: &Symbol,
        out: &mut Vec<Wait>,
    ) -> Result<(), NoMemory>
        ensures { (asked : List Asked) → IsKnown asked self.old
            → OnOk result (IsKnown asked self.new
            × Adds (against holder point asked symbol.now) out.old.items out.new.items) }
    {
        let key = Sought { symbol: *symbol };
        match self.lists.get(&key) {
            Some(list) => add_list(holder, point, symbol, list, out),
            None => {
                let list = self.tried(alloc, symbol)?;
                add_list(holder, point, symbol, &list, out)?;
                self.lists.insert(key, list)?;
                Ok(())
            }
        }
    }
}
