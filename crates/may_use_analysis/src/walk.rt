// From the end of a block to its start.

ghost use Rattle.std.specs.Prelude.{◌≡◌, ◌+◌, ℕ, Contains, IfOk, OnOk};
ghost use Rattle.check_meaning.specs.Code.{Finish, IsNumbered, Loop, block_code, points, stmt_code};
ghost use Rattle.may_use_analysis.specs.Flow.{AskFlow, Flow, Head, RepliedBack, StmtFlow};
ghost use Rattle.may_use_analysis.specs.Ordered.{Are};
ghost use Rattle.may_use_analysis.specs.Recorded.{Recorded, StmtRecorded};
ghost use Rattle.may_use_analysis.specs.Warm.{AreWarm};

use crate::heads::Heads;
use crate::kept::PointLists;
use crate::loop_parts::LoopParts;
use crate::ordered::Ordered;
use crate::still::{is_still, keep_stmt};
use crate::stores::{Store, store_of, symbol_of};
use check_meaning::{CheckedCall, CheckedStmt};
use session_values::NoMemory;
use std::alloc::Global;

/// The symbols at the start of a block, from those behind its end. The lists of its points join
/// `out`, the last first. What is known of the heads of its loops stands in `heads`: a walk begins
/// with it.
#[cycle(walk)]
pub(crate) fn before_block(
    alloc: Global,
    block: &[CheckedStmt],
    after: Ordered,
    heads: &Heads,
    out: &mut PointLists,
) -> Result<Ordered, NoMemory>
    requires numbered { (low : ℕ) × IsNumbered (block_code block.now) low }
    requires warm { AreWarm heads.now (block_code block.now) (Contains after) }
    ensures set { IfOk result (λ r. Are r (Flow (block_code block.now) (Contains after))) }
    ensures lists { OnOk result (Recorded (block_code block.now) (Contains after) out.old out.new) }
{
    let mut set = after;
    for i in (0..block.len()).rev() {
        set = before_stmt(alloc, &block[i], set, heads, out)?;
    }
    Ok(set)
}

/// The symbols before a statement, from those behind it.
#[cycle(walk)]
fn before_stmt(
    alloc: Global,
    stmt: &CheckedStmt,
    after: Ordered,
    heads: &Heads,
    out: &mut PointLists,
) -> Result<Ordered, NoMemory>
    requires numbered { (low : ℕ) × IsNumbered (stmt_code stmt.now Finish) low }
    requires warm { AreWarm heads.now (stmt_code stmt.now Finish) (Contains after) }
    ensures set { IfOk result (λ r. Are r (StmtFlow stmt.now (Contains after))) }
    ensures lists { OnOk result (StmtRecorded stmt.now (Contains after) out.old out.new) }
{
    let vars = after.vars();
    if is_still(stmt, vars) {
        keep_stmt(alloc, stmt, vars, after.as_slice(), out)?;
        return Ok(after);
    }
    match stmt {
        CheckedStmt::Store { var, right } => {
            let mut set = after;
            set.carry(store_of(*var, right));
            Ok(set)
        }
        CheckedStmt::Perform { var, call, .. } => {
            out.keep(alloc, after.as_slice())?;
            before_call(*var, call, after)
        }
        CheckedStmt::Choose { yes, no, .. } => {
            let copy = after.copied(alloc)?;
            let second = before_block(alloc, no.as_slice(), copy, heads, out)?;
            out.keep(alloc, second.as_slice())?;
            let mut first = before_block(alloc, yes.as_slice(), after, heads, out)?;
            out.keep(alloc, first.as_slice())?;
            first.join(&second)?;
            Ok(first)
        }
        CheckedStmt::Repeat {
            point,
            var,
            body,
            ..
        } => {
            out.keep(alloc, after.as_slice())?;
            let parts = LoopParts {
                point: *point,
                var: *var,
                body: body.as_slice(),
            };
            before_loop(alloc, parts, after, heads, out)
        }
        CheckedStmt::Answer { .. } => Ok(Ordered::new(alloc)),
    }
}

/// The symbols at the head of a loop, from those behind it.
#[cycle(walk)]
fn before_loop(
    alloc: Global,
    parts: LoopParts<'_>,
    after: Ordered,
    heads: &Heads,
    out: &mut PointLists,
) -> Result<Ordered, NoMemory>
    requires numbered { (low : ℕ)
        × IsNumbered (Loop 0 parts.point 0 parts.var (block_code parts.body.now) Finish) low }
    requires warm { AreWarm heads.now
        (Loop 0 parts.point 0 parts.var (block_code parts.body.now) Finish) (Contains after) }
    ensures set { IfOk result (λ r. Are r
        (Head parts.entry.var (block_code parts.entry.body.now) (Contains after))) }
    ensures lists { OnOk result (Recorded (block_code parts.entry.body.now)
        (Head parts.entry.var (block_code parts.entry.body.now) (Contains after))
        out.old out.new) }
{
    let size = out.len();
    let mut head = after;
    heads.add_to(parts.point, &mut head)?;
    for _ in 0..u32::MAX {
        out.truncate(size);
        let copy = head.copied(alloc)?;
        let mut turn = before_block(alloc, parts.body, copy, heads, out)?;
        turn.carry(Store::Other { x: parts.var });
        if !head.join(&turn)? {
            return Ok(head);
        }
    }
    Err(NoMemory)
}

/// The symbols before the store of a reply, from those behind it.
pub(crate) fn before_reply(var: Option<u32>, after: Ordered) -> Ordered
    ensures { Are result (RepliedBack var (Contains after)) }
{
    match var {
        None => after,
        Some(x) => {
            let mut set = after;
            set.carry(Store::Other { x });
            set
        }
    }
}

/// The symbols before an operation, from those behind it.
pub(crate) fn before_call(
    var: Option<u32>,
    call: &CheckedCall,
    after: Ordered,
) -> Result<Ordered, NoMemory>
    ensures { IfOk result (λ r. Are r (AskFlow var call.now (Contains after))) }
{
    let mut set = before_reply(var, after);
    set.insert(symbol_of(call))?;
    Ok(set)
}
