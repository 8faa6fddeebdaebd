// The first fault of statements.

ghost use Rattle.std.specs.Prelude.{◌≡◌, ◌++◌, ◌∷◌, [], OnOk};
ghost use Rattle.handler_check.specs.Shown.{shown};
ghost use Rattle.syntax_trees.specs.Marks.{declared, marks};
ghost use Rattle.handler_check.specs.Scan.{Found, of_variables, scan};
ghost use Rattle.syntax_trees.specs.Source.{Finish, block_source, stmt_source};

use super::expr::{find_in_call, find_in_cond, find_in_right, find_in_values};
use super::names::{count_turns, declare_variable, see};
use crate::CheckRefusal;
use syntax_trees::{Stmt, TableDecl};

#[cycle(statement)]
fn find_in_stmt(
    tables: &[TableDecl],
    names: &mut Vec<u32>,
    visible: &mut Vec<u32>,
    s: &Stmt,
) -> Result<(), CheckRefusal>
    ensures found { Found (scan of_variables tables.now names.old.items visible.old.items (marks
        (stmt_source s.now Finish))) result }
    ensures names { OnOk result (names.new.items
        ≡ names.old.items ++ declared (marks (stmt_source s.now Finish))) }
    ensures visible { OnOk result (visible.new.items ≡ visible.old.items ++ shown s.now) }
{
    match s {
        Stmt::Let { name, at, right } => {
            declare_variable(names, *name, *at)?;
            find_in_right(tables, visible, right)?;
            visible.push(*name)?;
            Ok(())
        }
        Stmt::Assign { name, at, right } => {
            see(visible, *name, *at)?;
            find_in_right(tables, visible, right)
        }
        Stmt::Perform { call } => find_in_call(tables, visible, call),
        Stmt::Choose { cond, yes, no, .. } => {
            find_in_cond(visible, cond.get())?;
            find_in_block(tables, names, visible, yes.as_slice())?;
            find_in_block(tables, names, visible, no.as_slice())
        }
        Stmt::Repeat {
            turns,
            turns_at,
            name,
            name_at,
            body,
            ..
        } => {
            count_turns(*turns, *turns_at)?;
            declare_variable(names, *name, *name_at)?;
            find_in_body(tables, names, visible, *name, body.as_slice())
        }
        Stmt::Answer { values, .. } => find_in_values(visible, values.as_slice()),
    }
}

/// A repeat's block, in which its variable is visible.
#[cycle(statement)]
fn find_in_body(
    tables: &[TableDecl],
    names: &mut Vec<u32>,
    visible: &mut Vec<u32>,
    name: u32,
    body: &[Stmt],
) -> Result<(), CheckRefusal>
    ensures found { Found (scan of_variables tables.now names.old.items
        (visible.old.items ++ name ∷ []) (marks (block_source body.now))) result }
    ensures names { OnOk result (names.new.items
        ≡ names.old.items ++ declared (marks (block_source body.now))) }
    ensures visible { OnOk result (visible.new.items ≡ visible.old.items) }
{
    let before = visible.len();
    visible.push(name)?;
    find_in_block(tables, names, visible, body)?;
    visible.truncate(before);
    Ok(())
}

/// A block, behind which its own variables aren't visible.
#[cycle(statement)]
pub(super) fn find_in_block(
    tables: &[TableDecl],
    names: &mut Vec<u32>,
    visible: &mut Vec<u32>,
    block: &[Stmt],
) -> Result<(), CheckRefusal>
    ensures found { Found (scan of_variables tables.now names.old.items visible.old.items (marks
        (block_source block.now))) result }
    ensures names { OnOk result (names.new.items
        ≡ names.old.items ++ declared (marks (block_source block.now))) }
    ensures visible { OnOk result (visible.new.items ≡ visible.old.items) }
{
    let before = visible.len();
    for s in block {
        find_in_stmt(tables, names, visible, s)?;
    }
    visible.truncate(before);
    Ok(())
}
