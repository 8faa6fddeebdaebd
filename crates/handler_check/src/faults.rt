// The first fault among the names of tables, and that of a handler. At most 7 tables, 64 handlers
// and 32 variables are ever searched for a name, since one more is a fault.

mod expr;
mod names;
mod stmt;

ghost use Rattle.std.specs.Prelude.{◌≡◌, ℕ, List, [], IfOk, map};
ghost use Rattle.syntax_trees.specs.declared.file.TableDecl.{TableDecl};
ghost use Rattle.handler_check.specs.Resolved.{variables_of};
ghost use Rattle.syntax_trees.specs.Marks.{handler_marks, param_marks, param_names, table_marks};
ghost use Rattle.handler_check.specs.Scan.{Found, of_tables, of_variables, scan};

pub(crate) use self::names::declare;
use self::names::declare_variable;
use self::stmt::find_in_block;
use crate::CheckRefusal;
use crate::resolution::listed;
use session_values::{Listed, MAX_TABLES, NoMemory};
use std::alloc::Global;
use syntax_trees::{Handler, Param, TableDecl};

/// Finds the first fault among the names of tables; where there is none, the names.
pub(crate) fn find_in_tables(
    alloc: Global,
    tables: &[TableDecl],
) -> Result<Listed<u32>, CheckRefusal>
    ensures found { Found (scan of_tables [] [] [] (table_marks tables.now)) result }
    ensures names { IfOk result (λ names. names ≡ map (λ (t : TableDecl). t.name) tables.now) }
{
    let mut earlier = Vec::new(alloc);
    for table in tables {
        let past = CheckRefusal::TooManyTables { at: table.at };
        declare(&mut earlier, MAX_TABLES, past, table.name, table.at)?;
    }
    Ok(listed(earlier)?)
}

/// Finds the first fault of a handler; where there is none, the names of its variables.
pub(crate) fn find_in_handler(
    alloc: Global,
    tables: &[TableDecl],
    handler: &Handler,
) -> Result<Listed<u32>, CheckRefusal>
    ensures found { Found (scan of_variables tables.now [] [] (handler_marks handler.now)) result }
    ensures names { IfOk result (λ names. names ≡ variables_of handler.now) }
{
    let params = handler.params.as_slice();
    let mut names = find_in_params(alloc, params)?;
    let mut visible = copied(alloc, names.as_slice())?;
    let body = handler.body.as_slice();
    find_in_block(tables, &mut names, &mut visible, body)?;
    Ok(listed(names)?)
}

fn copied(alloc: Global, names: &[u32]) -> Result<Vec<u32>, NoMemory>
    ensures { IfOk result (λ copy. copy.items ≡ names.now) }
{
    Ok(names.iter().copied().collect(alloc)?)
}

/// The names of parameters.
fn find_in_params(alloc: Global, params: &[Param]) -> Result<Vec<u32>, CheckRefusal>
    ensures found { (tables : List TableDecl) (visible : List ℕ)
        → Found (scan of_variables tables [] visible (param_marks params.now)) result }
    ensures names { IfOk result (λ names. names.items ≡ param_names params.now) }
{
    let mut names = Vec::new(alloc);
    for param in params {
        declare_variable(&mut names, param.name, param.at)?;
    }
    Ok(names)
}
