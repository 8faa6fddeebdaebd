// The first fault of an expression or an operation.

ghost use Rattle.std.specs.Prelude.{ℕ, List};
ghost use Rattle.std.specs.List.{flat_map};
ghost use Rattle.syntax_trees.specs.declared.file.TableDecl.{TableDecl};
ghost use Rattle.syntax_trees.specs.Marks.{atom_marks, call_marks, cond_marks, expr_marks, right_marks};
ghost use Rattle.handler_check.specs.Scan.{Found, of_variables, scan};

use super::names::{count_arguments, find_table, see};
use crate::CheckRefusal;
use syntax_trees::{Atom, Call, Cond, Expr, Right, TableDecl};

fn find_in_atom(visible: &[u32], atom: &Atom) -> Result<(), CheckRefusal>
    ensures { (tables : List TableDecl) (earlier : List ℕ)
        → Found (scan of_variables tables earlier visible.now (atom_marks atom.now)) result }
{
    match atom {
        Atom::Lit(_) => Ok(()),
        Atom::Name { name, at } => see(visible, *name, *at),
    }
}

fn find_in_expr(visible: &[u32], e: &Expr) -> Result<(), CheckRefusal>
    ensures { (tables : List TableDecl) (earlier : List ℕ)
        → Found (scan of_variables tables earlier visible.now (expr_marks e.now)) result }
{
    match e {
        Expr::Lit(_) => Ok(()),
        Expr::Name { name, at } => see(visible, *name, *at),
        Expr::Binary { sides, .. } => {
            let (left, right) = sides.get();
            find_in_expr(visible, left)?;
            find_in_expr(visible, right)
        }
    }
}

pub(super) fn find_in_values(visible: &[u32], values: &[Expr]) -> Result<(), CheckRefusal>
    ensures { (tables : List TableDecl) (earlier : List ℕ)
        → Found (scan of_variables tables earlier visible.now
        (flat_map expr_marks values.now)) result }
{
    for value in values {
        find_in_expr(visible, value)?;
    }
    Ok(())
}

fn find_in_arguments(visible: &[u32], args: &[Atom]) -> Result<(), CheckRefusal>
    ensures { (tables : List TableDecl) (earlier : List ℕ)
        → Found (scan of_variables tables earlier visible.now
        (flat_map atom_marks args.now)) result }
{
    for atom in args {
        find_in_atom(visible, atom)?;
    }
    Ok(())
}

pub(super) fn find_in_cond(visible: &[u32], cond: &Cond) -> Result<(), CheckRefusal>
    ensures { (tables : List TableDecl) (earlier : List ℕ)
        → Found (scan of_variables tables earlier visible.now (cond_marks cond.now)) result }
{
    find_in_expr(visible, &cond.left)?;
    find_in_expr(visible, &cond.right)
}

pub(super) fn find_in_call(
    tables: &[TableDecl],
    visible: &[u32],
    call: &Call,
) -> Result<(), CheckRefusal>
    ensures { (earlier : List ℕ) → Found (scan of_variables tables.now earlier visible.now
        (call_marks call.now)) result }
{
    count_arguments(call.kind, call.args.len(), call.at)?;
    find_table(tables, call.kind, call.table, call.table_at)?;
    find_in_arguments(visible, call.args.as_slice())
}

pub(super) fn find_in_right(
    tables: &[TableDecl],
    visible: &[u32],
    right: &Right,
) -> Result<(), CheckRefusal>
    ensures { (earlier : List ℕ) → Found (scan of_variables tables.now earlier visible.now
        (right_marks right.now)) result }
{
    match right {
        Right::Plain(e) => find_in_expr(visible, e),
        Right::Result(call) => find_in_call(tables, visible, call),
    }
}
