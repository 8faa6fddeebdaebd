// Statements that change nothing in a list: no operation, no end, no store to a variable that it
// mentions.

ghost use Rattle.std.specs.Prelude.{◌≡◌, ℕ, Contains, OnOk};
ghost use Rattle.std.specs.Bool.{OnTrue};
ghost use Rattle.std.specs.List.Sorted.{IsStrictlySortedBy};
ghost use Rattle.symbolic_ops.specs.Order.{symbol_cmp};
ghost use Rattle.check_meaning.specs.Code.{Finish, block_code, stmt_code};
ghost use Rattle.may_use_analysis.specs.Recorded.{Recorded, StmtRecorded};
ghost use Rattle.may_use_analysis.specs.Vars.{AllCovered, IsStill};

use crate::kept::PointLists;
use crate::vars::Vars;
use check_meaning::CheckedStmt;
use session_values::NoMemory;
use std::alloc::Global;
use symbolic_ops::Symbol;

#[cycle(being_still)]
fn is_block_still(block: &[CheckedStmt], vars: Vars) -> bool
    ensures { OnTrue result (IsStill vars.bits (block_code block.now)) }
{
    for stmt in block {
        if !is_still(stmt, vars) {
            return false;
        }
    }
    true
}

/// Whether a statement has no operation, no end and no store to one of these variables.
#[cycle(being_still)]
pub(crate) fn is_still(stmt: &CheckedStmt, vars: Vars) -> bool
    ensures { OnTrue result (IsStill vars.bits (stmt_code stmt.now Finish)) }
{
    match stmt {
        CheckedStmt::Store { var, .. } => !vars.has(*var),
        CheckedStmt::Perform { .. } => false,
        CheckedStmt::Choose { yes, no, .. } => {
            is_block_still(yes.as_slice(), vars) && is_block_still(no.as_slice(), vars)
        }
        CheckedStmt::Repeat { var, body, .. } => {
            !vars.has(*var) && is_block_still(body.as_slice(), vars)
        }
        CheckedStmt::Answer { .. } => false,
    }
}

#[cycle(keeping_still)]
fn keep_block(
    alloc: Global,
    block: &[CheckedStmt],
    vars: Vars,
    list: &[Symbol],
    out: &mut PointLists,
) -> Result<(), NoMemory>
    requires still { IsStill vars.bits (block_code block.now) }
    requires covered { AllCovered vars.bits list.now }
    requires order { IsStrictlySortedBy symbol_cmp list.now }
    ensures { OnOk result (Recorded (block_code block.now) (Contains list.now) out.old out.new) }
{
    for i in (0..block.len()).rev() {
        keep_stmt(alloc, &block[i], vars, list, out)?;
    }
    Ok(())
}

/// The list joins `out` for each point of a statement that changes nothing in it.
#[cycle(keeping_still)]
pub(crate) fn keep_stmt(
    alloc: Global,
    stmt: &CheckedStmt,
    vars: Vars,
    list: &[Symbol],
    out: &mut PointLists,
) -> Result<(), NoMemory>
    requires still { IsStill vars.bits (stmt_code stmt.now Finish) }
    requires covered { AllCovered vars.bits list.now }
    requires order { IsStrictlySortedBy symbol_cmp list.now }
    ensures { OnOk result (StmtRecorded stmt.now (Contains list.now) out.old out.new) }
{
    match stmt {
        CheckedStmt::Store { .. } => Ok(()),
        CheckedStmt::Perform { .. } => Ok(()),
        CheckedStmt::Choose { yes, no, .. } => {
            keep_block(alloc, no.as_slice(), vars, list, out)?;
            out.keep(alloc, list)?;
            keep_block(alloc, yes.as_slice(), vars, list, out)?;
            out.keep(alloc, list)?;
            Ok(())
        }
        CheckedStmt::Repeat { body, .. } => {
            out.keep(alloc, list)?;
            keep_block(alloc, body.as_slice(), vars, list, out)?;
            Ok(())
        }
        CheckedStmt::Answer { .. } => Ok(()),
    }
}
