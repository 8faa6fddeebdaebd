// What comes to the heads of loops, found before the walk that keeps lists: each symbol is carried
// over a step once, and only what is new goes round a loop again.

ghost use Rattle.std.specs.Prelude.{ℕ, ◌+◌, List, Contains, IfOk, OnOk};
ghost use Rattle.symbolic_ops.specs.declared.symbol.Symbol.{Symbol};
ghost use Rattle.check_meaning.specs.Code.{Finish, IsNumbered, Loop, block_code, points, stmt_code};
ghost use Rattle.may_use_analysis.specs.Flow.{Flow, Head, StmtFlow};
ghost use Rattle.may_use_analysis.specs.Warm.{SameOutside, StaysWarm};

use crate::heads::Heads;
use crate::loop_parts::LoopParts;
use crate::ordered::Ordered;
use crate::still::is_still;
use crate::stores::{Store, store_of};
use crate::walk::{before_call, before_reply};
use check_meaning::CheckedStmt;
use session_values::NoMemory;
use std::alloc::Global;

/// Some of the symbols at the start of a block, from some of those behind its end: what is new of
/// what these lead to, with the block's own operations where `own` says so. What comes to the heads
/// of its loops joins `heads`.
#[cycle(spread)]
pub(crate) fn spread_block(
    alloc: Global,
    block: &[CheckedStmt],
    after: Ordered,
    own: bool,
    heads: &mut Heads,
) -> Result<Ordered, NoMemory>
    requires { (low : ℕ) × IsNumbered (block_code block.now) low }
    ensures within { IfOk result (λ r. (s : Symbol) → Contains r s
        → Flow (block_code block.now) (Contains after) s) }
    ensures warm { OnOk result (StaysWarm (block_code block.now) after heads.old heads.new) }
    ensures others { OnOk result ((low : ℕ) → IsNumbered (block_code block.now) low
        → SameOutside heads.old heads.new low (low + points (block_code block.now))) }
{
    let mut set = after;
    for i in (0..block.len()).rev() {
        set = spread_stmt(alloc, &block[i], set, own, heads)?;
    }
    Ok(set)
}

#[cycle(spread)]
fn spread_stmt(
    alloc: Global,
    stmt: &CheckedStmt,
    after: Ordered,
    own: bool,
    heads: &mut Heads,
) -> Result<Ordered, NoMemory>
    requires { (low : ℕ) × IsNumbered (stmt_code stmt.now Finish) low }
    ensures within { IfOk result (λ r. (s : Symbol) → Contains r s
        → StmtFlow stmt.now (Contains after) s) }
    ensures warm { OnOk result (StaysWarm (stmt_code stmt.now Finish) after heads.old heads.new) }
    ensures others { OnOk result ((low : ℕ) → IsNumbered (stmt_code stmt.now Finish) low
        → SameOutside heads.old heads.new low (low + points (stmt_code stmt.now Finish))) }
{
    let vars = after.vars();
    if is_still(stmt, vars) {
        return Ok(after);
    }
    if !own && after.as_slice().is_empty() {
        return Ok(Ordered::new(alloc));
    }
    match stmt {
        CheckedStmt::Store { var, right } => {
            let mut set = after;
            set.carry(store_of(*var, right));
            Ok(set)
        }
        CheckedStmt::Perform { var, call, .. } if own => before_call(*var, call, after),
        CheckedStmt::Perform { var, .. } => Ok(before_reply(*var, after)),
        CheckedStmt::Choose { yes, no, .. } => {
            let copy = after.copied(alloc)?;
            let second = spread_block(alloc, no.as_slice(), copy, own, heads)?;
            let mut first = spread_block(alloc, yes.as_slice(), after, own, heads)?;
            first.join(&second)?;
            Ok(first)
        }
        CheckedStmt::Repeat {
            point,
            var,
            body,
            ..
        } => {
            let parts = LoopParts {
                point: *point,
                var: *var,
                body: body.as_slice(),
            };
            spread_loop(alloc, parts, after, own, heads)
        }
        CheckedStmt::Answer { .. } => Ok(Ordered::new(alloc)),
    }
}

/// The same at the head of a loop: only what is new there goes round again.
#[cycle(spread)]
fn spread_loop(
    alloc: Global,
    parts: LoopParts<'_>,
    after: Ordered,
    own: bool,
    heads: &mut Heads,
) -> Result<Ordered, NoMemory>
    requires { (low : ℕ)
        × IsNumbered (Loop 0 parts.point 0 parts.var (block_code parts.body.now) Finish) low }
    ensures within { IfOk result (λ r. (s : Symbol) → Contains r s
        → Head parts.entry.var (block_code parts.entry.body.now) (Contains after) s) }
    ensures warm { OnOk result (StaysWarm (Loop 0 parts.entry.point 0 parts.entry.var
        (block_code parts.entry.body.now) Finish) after heads.old heads.new) }
    ensures others { OnOk result ((low : ℕ)
        → IsNumbered (Loop 0 parts.entry.point 0 parts.entry.var
        (block_code parts.entry.body.now) Finish) low
        → SameOutside heads.old heads.new low
        (low + points (block_code parts.entry.body.now) + 1)) }
{
    let mut fresh = heads.take_in(alloc, parts.point, &after)?;
    let mut all = after;
    let mut first = own;
    for _ in 0..u32::MAX {
        if !first && fresh.as_slice().is_empty() {
            return Ok(all);
        }
        let mut turn = spread_block(alloc, parts.body, fresh, first, heads)?;
        turn.carry(Store::Other { x: parts.var });
        fresh = heads.take_in(alloc, parts.point, &turn)?;
        all.join(&fresh)?;
        first = false;
    }
    Ok(all)
}
