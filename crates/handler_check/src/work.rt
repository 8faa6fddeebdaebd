// How much work a resolved handler may do, by its text alone.

ghost use Rattle.std.specs.Prelude.{◌≡◌, min};
ghost use Rattle.check_meaning.specs.Bounds.{work_bound};
ghost use Rattle.check_meaning.specs.Code.{Finish, block_code, stmt_code};

use crate::bounds::larger;
use check_meaning::CheckedStmt;

#[cycle(working)]
fn work_of(s: &CheckedStmt) -> u32
    ensures { result ≡ min (work_bound (stmt_code s.now Finish)) 4294967295 }
{
    match s {
        CheckedStmt::Store { .. } => 1,
        CheckedStmt::Perform { .. } => 1,
        CheckedStmt::Choose { yes, no, .. } => {
            let first = count_work(yes.as_slice());
            let second = count_work(no.as_slice());
            larger(first, second).saturating_add(1)
        }
        CheckedStmt::Repeat { turns, body, .. } => {
            let once = count_work(body.as_slice()).saturating_add(1);
            turns.saturating_mul(once).saturating_add(1)
        }
        CheckedStmt::Answer { .. } => 1,
    }
}

/// The bound on the work of a block; 4,294,967,295 where it is more.
#[cycle(working)]
pub fn count_work(block: &[CheckedStmt]) -> u32
    ensures { result ≡ min (work_bound (block_code block.now)) 4294967295 }
{
    let mut total: u32 = 0;
    for s in block {
        let own = work_of(s);
        total = total.saturating_add(own);
    }
    total
}
