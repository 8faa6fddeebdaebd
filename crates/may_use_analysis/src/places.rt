// The byte places that stand for points.

ghost use Rattle.std.specs.Prelude.{◌≡◌, ◌+◌, ◌<◌, ◌++◌, ◌∷◌, IfOk, OnOk, Some, slice_get};
ghost use Rattle.check_meaning.specs.Code.{Finish, block_code, points, stmt_code};
ghost use Rattle.may_use_analysis.specs.Places.{places};

use check_meaning::{CheckedHandler, CheckedStmt};
use session_values::NoMemory;
use std::alloc::Global;

/// The places of the points of a block join `out`, in the order of the text.
#[cycle(placing)]
fn add_block(block: &[CheckedStmt], out: &mut Vec<u32>) -> Result<(), NoMemory>
    ensures { OnOk result (out.new.items ≡ out.old.items ++ places (block_code block.now)) }
{
    for stmt in block {
        add_stmt(stmt, out)?;
    }
    Ok(())
}

#[cycle(placing)]
fn add_stmt(stmt: &CheckedStmt, out: &mut Vec<u32>) -> Result<(), NoMemory>
    ensures { OnOk result (out.new.items ≡ out.old.items ++ places (stmt_code stmt.now Finish)) }
{
    match stmt {
        CheckedStmt::Store { .. } => Ok(()),
        CheckedStmt::Perform { at, .. } => {
            out.push(*at)?;
            Ok(())
        }
        CheckedStmt::Choose { at, yes, no, .. } => {
            out.push(*at)?;
            add_block(yes.as_slice(), out)?;
            out.push(*at)?;
            add_block(no.as_slice(), out)
        }
        CheckedStmt::Repeat { at, body, .. } => {
            add_block(body.as_slice(), out)?;
            out.push(*at)?;
            Ok(())
        }
        CheckedStmt::Answer { .. } => Ok(()),
    }
}

/// The place of a point of a handler.
pub(crate) fn place_of(
    alloc: Global,
    handler: &CheckedHandler,
    point: usize,
) -> Result<u32, NoMemory>
    requires { point < 1 + points (block_code handler.now.body) }
    ensures { IfOk result (λ at.
        slice_get (handler.now.at ∷ places (block_code handler.now.body)) point ≡ Some at) }
{
    let mut places = Vec::new(alloc);
    places.push(handler.at)?;
    add_block(handler.body.as_slice(), &mut places)?;
    Ok(places[point])
}
