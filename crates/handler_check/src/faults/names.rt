// Names that are declared, and names that stand for something.

ghost use Rattle.std.specs.Prelude.{◌≡◌, ◌==◌, ◌++◌, ◌∷◌, [], OnOk, length};
ghost use Rattle.session_values.specs.Kinds.{home};
ghost use Rattle.handler_check.specs.declared.refusal.CheckRefusal.TheVariants as refusal;
ghost use Rattle.handler_check.specs.Rules.{kind_of};
ghost use Rattle.handler_check.specs.Scan.{Found, count_fault, declared_fault, fault_if, is_among, is_same_kind, of_variables, or_else, table_fault, turns_fault, unseen_fault};

use crate::CheckRefusal;
use session_values::{Kind, MAX_TURNS, MAX_VARIABLES, TableKind};
use syntax_trees::TableDecl;

/// Declares a name behind the earlier ones, unless it is one of them, or there are too many.
pub(crate) fn declare(
    earlier: &mut Vec<u32>,
    limit: usize,
    past: CheckRefusal,
    name: u32,
    at: u32,
) -> Result<(), CheckRefusal>
    ensures found { Found (or_else (fault_if (is_among earlier.old.items name)
        (refusal.Twice at)) (fault_if (length earlier.old.items == limit) past)) result }
    ensures names { OnOk result (earlier.new.items ≡ earlier.old.items ++ name ∷ []) }
{
    if earlier.as_slice().contains(&name) {
        return Err(CheckRefusal::Twice { at });
    }
    if earlier.len() == limit {
        return Err(past);
    }
    earlier.push(name)?;
    Ok(())
}

/// Declares a variable of a handler.
pub(super) fn declare_variable(
    earlier: &mut Vec<u32>,
    name: u32,
    at: u32,
) -> Result<(), CheckRefusal>
    ensures found { Found
        (declared_fault of_variables.limit of_variables.past earlier.old.items name at) result }
    ensures names { OnOk result (earlier.new.items ≡ earlier.old.items ++ name ∷ []) }
{
    declare(
        earlier,
        MAX_VARIABLES,
        CheckRefusal::TooManyVariables { at },
        name,
        at,
    )
}

/// Whether a variable is visible.
pub(super) fn see(visible: &[u32], name: u32, at: u32) -> Result<(), CheckRefusal>
    ensures { Found (unseen_fault visible.now name at) result }
{
    if visible.contains(&name) {
        Ok(())
    } else {
        Err(CheckRefusal::Unknown { at })
    }
}

/// Whether an operation has as many arguments as its kind takes.
pub(super) fn count_arguments(kind: Kind, count: u32, at: u32) -> Result<(), CheckRefusal>
    ensures { Found (count_fault kind count at) result }
{
    if count == kind.arguments() {
        Ok(())
    } else {
        Err(CheckRefusal::Arity { at })
    }
}

fn kind_of(tables: &[TableDecl], name: u32) -> Option<TableKind>
    ensures { result ≡ kind_of tables.now name }
{
    for table in tables {
        if table.name == name {
            return Some(table.kind);
        }
    }
    None
}

/// Whether an operation works on this kind of table.
fn is_home(kind: Kind, found: TableKind) -> bool
    ensures { result ≡ is_same_kind found (home kind) }
{
    match found {
        TableKind::Map => kind.on_map(),
        TableKind::Set => !kind.on_map(),
    }
}

/// Whether an operation's table is declared, and is of the operation's kind.
pub(super) fn find_table(
    tables: &[TableDecl],
    kind: Kind,
    name: u32,
    at: u32,
) -> Result<(), CheckRefusal>
    ensures { Found (table_fault tables.now kind name at) result }
{
    match kind_of(tables, name) {
        Some(found) if is_home(kind, found) => Ok(()),
        Some(_) => Err(CheckRefusal::WrongTable { at }),
        None => Err(CheckRefusal::Unknown { at }),
    }
}

/// Whether a number of turns is 1 to 1000.
pub(super) fn count_turns(turns: u64, at: u32) -> Result<(), CheckRefusal>
    ensures { Found (turns_fault turns at) result }
{
    if turns == 0 || turns > MAX_TURNS {
        Err(CheckRefusal::RepeatBound { at })
    } else {
        Ok(())
    }
}
