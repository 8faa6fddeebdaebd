// How much a resolved handler may do, by its text alone.

ghost use Rattle.std.specs.Prelude.{◌≡◌, max, min};
ghost use Rattle.handler_check.specs.Counted.{weight_of};
ghost use Rattle.check_meaning.specs.Bounds.{bound, work_bound};
ghost use Rattle.check_meaning.specs.Code.{Finish, block_code, stmt_code};

use check_meaning::CheckedStmt;
use session_values::Kind;

/// Which operations are counted.
#[derive(Clone, Copy, Debug, PartialEq, Eq)]
pub enum Counted {
    Every,
    /// Those that may add a key to the table of this number.
    Adding(u32),
}

/// The bounds on the calls and the work of a handler.
#[derive(Clone, Copy, Debug)]
pub(crate) struct HandlerBounds {
    pub calls: u32,
    pub work: u32,
}

fn weight(counted: Counted, kind: Kind, table: u32) -> u32
    ensures { result ≡ weight_of counted kind table }
{
    match counted {
        Counted::Every => 1,
        Counted::Adding(t) => { if kind.adds() && table == t { 1 } else { 0 } }
    }
}

pub(crate) fn larger(a: u32, b: u32) -> u32
    ensures { result ≡ max a b }
{
    if a < b { b } else { a }
}

#[cycle(counting)]
fn count_stmt(counted: Counted, s: &CheckedStmt) -> u32
    ensures { result ≡ min (bound (weight_of counted) (stmt_code s.now Finish)) 4294967295 }
{
    match s {
        CheckedStmt::Store { .. } => 0,
        CheckedStmt::Perform { call, .. } => weight(counted, call.kind, call.table),
        CheckedStmt::Choose { yes, no, .. } => {
            let first = count_calls(counted, yes.as_slice());
            let second = count_calls(counted, no.as_slice());
            larger(first, second)
        }
        CheckedStmt::Repeat { turns, body, .. } => {
            let once = count_calls(counted, body.as_slice());
            turns.saturating_mul(once)
        }
        CheckedStmt::Answer { .. } => 0,
    }
}

/// The bound on the operations of a block that are counted; 4,294,967,295 where it is more.
#[cycle(counting)]
pub fn count_calls(counted: Counted, block: &[CheckedStmt]) -> u32
    ensures { result ≡ min (bound (weight_of counted) (block_code block.now)) 4294967295 }
{
    let mut total: u32 = 0;
    for s in block {
        let own = count_stmt(counted, s);
        total = total.saturating_add(own);
    }
    total
}
