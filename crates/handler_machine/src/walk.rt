// The walk over the statements of a handler.

ghost use Rattle.std.specs.Prelude.{◌≤◌, length};
ghost use Rattle.check_meaning.specs.Ahead.{Ahead, run_then};
ghost use Rattle.check_meaning.specs.Code.{Finish, block_code, stmt_code};
ghost use Rattle.check_meaning.specs.Dialogue.{Env, env_of, run};
ghost use Rattle.check_meaning.specs.Within.{VarWithin};
ghost use Rattle.handler_machine.specs.Leading.{Ends, Leads};
ghost use Rattle.handler_machine.specs.Rounds.{rounds_then};
ghost use Rattle.handler_machine.specs.Runnable.{IsRunnable};

use crate::exprs::{holds, op_of, value_of};
use crate::guide::Guide;
use crate::replies::{nil_reply, put_reply};
use crate::variables::{keep, put, turn_number};
use check_meaning::{CheckedBlock, CheckedStmt};
use session_values::{NoMemory, Reply, Value};

/// How a part of a handler ends. It has no payload, since each statement hands one up; the reply
/// stands where the caller keeps it.
#[derive(Clone, Copy, Debug, PartialEq, Eq)]
pub(crate) enum Flow {
    /// It goes on behind the part.
    On,
    Answered,
}

/// Does the body of a handler to its reply.
pub fn walk_body<H, G: Guide<H>>(
    guide: &mut G,
    host: &mut H,
    env: &mut [Value],
    body: &CheckedBlock,
) -> Result<Reply, NoMemory>
    requires variables { G.variables ≤ length env.old }
    requires within { IsRunnable (length env.old) (block_code body.now) }
    requires serves { (whole : Ahead) × (start : G × H)
        × G.Serves guide.old whole start host.old (run (block_code body.now) (env_of env.old)) }
    ensures { (whole : Ahead) (start : G × H)
        → G.Serves guide.old whole start host.old (run (block_code body.now) (env_of env.old))
        → Ends (G.Serves guide.new whole start host.new) (G.Stops guide.new whole start host.new)
        result }
{
    let mut reply = nil_reply();
    match walk_rounds(guide, host, env, 1, None, body, &mut reply)? {
        Flow::On => Ok(nil_reply()),
        Flow::Answered => Ok(reply),
    }
}

/// Does the statements of a block.
#[cycle(walk)]
#[inline(always)]
fn walk_block<H, G: Guide<H>>(
    guide: &mut G,
    host: &mut H,
    env: &mut [Value],
    block: &CheckedBlock,
    reply: &mut Reply,
) -> Result<Flow, NoMemory>
    requires variables { G.variables ≤ length env.old }
    requires within { IsRunnable (length env.old) (block_code block.now) }
    requires serves { (whole : Ahead) × (start : G × H) × (k : Env → Ahead)
        × G.Serves guide.old whole start host.old
        (run_then (block_code block.now) k (env_of env.old)) }
    ensures { (whole : Ahead) (start : G × H) (k : Env → Ahead)
        → G.Serves guide.old whole start host.old
        (run_then (block_code block.now) k (env_of env.old))
        → Leads (G.Serves guide.new whole start host.new)
        (G.Stops guide.new whole start host.new) k (env_of env.new) reply.new
        result }
{
    for s in block.as_slice() {
        match walk_stmt(guide, host, env, s, reply)? {
            Flow::On => {}
            Flow::Answered => return Ok(Flow::Answered),
        }
    }
    Ok(Flow::On)
}

/// Does a statement.
#[cycle(walk)]
#[inline(always)]
fn walk_stmt<H, G: Guide<H>>(
    guide: &mut G,
    host: &mut H,
    env: &mut [Value],
    stmt: &CheckedStmt,
    reply: &mut Reply,
) -> Result<Flow, NoMemory>
    requires variables { G.variables ≤ length env.old }
    requires within { IsRunnable (length env.old) (stmt_code stmt.now Finish) }
    requires serves { (whole : Ahead) × (start : G × H) × (k : Env → Ahead)
        × G.Serves guide.old whole start host.old
        (run_then (stmt_code stmt.now Finish) k (env_of env.old)) }
    ensures { (whole : Ahead) (start : G × H) (k : Env → Ahead)
        → G.Serves guide.old whole start host.old
        (run_then (stmt_code stmt.now Finish) k (env_of env.old))
        → Leads (G.Serves guide.new whole start host.new)
        (G.Stops guide.new whole start host.new) k (env_of env.new) reply.new
        result }
{
    match stmt {
        CheckedStmt::Store { var, right } => {
            let value = value_of(env, right);
            put(env, *var, value);
            Ok(Flow::On)
        }
        CheckedStmt::Perform {
            point,
            var,
            call,
            ..
        } => {
            let op = op_of(env, *call);
            let value = guide.call(host, op)?;
            keep(env, *var, value);
            guide.replied(host, *point, env);
            Ok(Flow::On)
        }
        CheckedStmt::Choose {
            yes_point,
            no_point,
            cond,
            yes,
            no,
            ..
        } => {
            if holds(env, cond) {
                guide.passed(host, *yes_point, env);
                walk_side(guide, host, env, yes, reply)
            } else {
                guide.passed(host, *no_point, env);
                walk_side(guide, host, env, no, reply)
            }
        }
        CheckedStmt::Repeat {
            point,
            turns,
            var,
            body,
            ..
        } => {
            match walk_rounds(guide, host, env, *turns, Some(*var), body, reply)? {
                Flow::On => {
                    guide.passed(host, *point, env);
                    Ok(Flow::On)
                }
                Flow::Answered => Ok(Flow::Answered),
            }
        }
        CheckedStmt::Answer { values } => {
            put_reply(env, values.as_slice(), reply);
            Ok(Flow::Answered)
        }
    }
}

/// Does one side of a choice. An empty one, as of an `if` without `else`, costs no call.
#[cycle(walk)]
#[inline(always)]
fn walk_side<H, G: Guide<H>>(
    guide: &mut G,
    host: &mut H,
    env: &mut [Value],
    side: &CheckedBlock,
    reply: &mut Reply,
) -> Result<Flow, NoMemory>
    requires variables { G.variables ≤ length env.old }
    requires within { IsRunnable (length env.old) (block_code side.now) }
    requires serves { (whole : Ahead) × (start : G × H) × (k : Env → Ahead)
        × G.Serves guide.old whole start host.old
        (run_then (block_code side.now) k (env_of env.old)) }
    ensures { (whole : Ahead) (start : G × H) (k : Env → Ahead)
        → G.Serves guide.old whole start host.old
        (run_then (block_code side.now) k (env_of env.old))
        → Leads (G.Serves guide.new whole start host.new)
        (G.Stops guide.new whole start host.new) k (env_of env.new) reply.new
        result }
{
    if side.as_slice().is_empty() {
        Ok(Flow::On)
    } else {
        walk_rounds(guide, host, env, 1, None, side, reply)
    }
}

/// Does the statements of a block some times over, with the number of the time in a variable, where
/// one is named for it: those of a loop as often as it has turns, those of any other block once. So
/// the turns of a loop share a frame.
#[cycle(walk)]
#[inline(never)]
fn walk_rounds<H, G: Guide<H>>(
    guide: &mut G,
    host: &mut H,
    env: &mut [Value],
    rounds: u32,
    var: Option<u32>,
    block: &CheckedBlock,
    reply: &mut Reply,
) -> Result<Flow, NoMemory>
    requires var { VarWithin (length env.old) var }
    requires variables { G.variables ≤ length env.old }
    requires within { IsRunnable (length env.old) (block_code block.now) }
    requires serves { (whole : Ahead) × (start : G × H) × (k : Env → Ahead)
        × G.Serves guide.old whole start host.old
        (rounds_then (run_then (block_code block.now)) var rounds 0 k (env_of env.old)) }
    ensures { (whole : Ahead) (start : G × H) (k : Env → Ahead)
        → G.Serves guide.old whole start host.old
        (rounds_then (run_then (block_code block.now)) var rounds 0 k (env_of env.old))
        → Leads (G.Serves guide.new whole start host.new)
        (G.Stops guide.new whole start host.new) k (env_of env.new) reply.new
        result }
{
    for round in 0..rounds {
        keep(env, var, turn_number(round));
        match walk_block(guide, host, env, block, reply)? {
            Flow::On => {}
            Flow::Answered => return Ok(Flow::Answered),
        }
    }
    Ok(Flow::On)
}
