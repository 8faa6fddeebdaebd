// Serving a handler at a desk.

ghost use Rattle.std.specs.Prelude.{◌≡◌, ◌+◌, ◌≤◌, ◌<◌, [], None, false, length, IfOk, OnErr};
ghost use Rattle.session_values.specs.Limits.{max_variables};
ghost use Rattle.check_meaning.specs.Code.{block_code, points};
ghost use Rattle.check_meaning.specs.Dialogue.{entry, env_of, run};
ghost use Rattle.handler_machine.specs.Runnable.{IsRunnable};
ghost use Rattle.session_journal.specs.Served.{IsServed, IsStopped};
ghost use Rattle.handler_check.specs.Resolved.{code_at, params_at};
ghost use Rattle.declaration_insertion.specs.Promises.{list_at};
ghost use Rattle.declaration_insertion.specs.Program.{declared_at};
ghost use Rattle.handler_machine.specs.Serving.{DeclaresHandler, Gives, IsSettled, Promises};

use crate::narrowing::Narrowing;
use crate::telling::TellsLate;
use crate::{set_up, walk_body};
use check_meaning::CheckedBlock;
use declaration_insertion::Program;
use session_journal::{Desk, Scratch, Script, Site};
use session_values::{NoMemory, Value};
use std::sync::Wait;
use std::thread::Threads;

/// Serves the body of a handler at a desk, with these values of its variables, to its end.
fn serve_body<R: Threads + Wait + Sync, D: Desk>(
    guide: &mut Narrowing<'_, R>,
    desk: &mut D,
    env: &mut [Value],
    body: &CheckedBlock,
) -> Result<(), NoMemory>
    requires variables { max_variables ≤ length env.old }
    requires within { IsRunnable (length env.old) (block_code body.now) }
    requires fresh { (D.at desk.old).entries ≡ [] }
    requires idle { (D.at desk.old).waiting ≡ None }
    requires going { (D.at desk.old).ended ≡ false }
    requires present { (D.at desk.old).present ≡ list_at
        (declared_at guide.old.program.now guide.old.handler) (entry (env_of env.old)) }
    requires gives { Gives (D.Served.meaning (D.script desk.old)) (D.at desk.old).ticket
        (declared_at guide.old.program.now guide.old.handler) (entry (env_of env.old))
        (run (block_code body.now) (env_of env.old)) }
    requires promises { Promises (1 + points (code_at guide.old.program.now.file guide.old.handler))
        (declared_at guide.old.program.now guide.old.handler) (entry (env_of env.old))
        (run (block_code body.now) (env_of env.old)) }
    requires declares { DeclaresHandler (D.Served.meaning (D.script desk.old))
        guide.old.program.now guide.old.handler }
    requires settled { IsSettled guide.old.settled (D.at desk.old) }
    requires told { guide.old.late ≡ false }
    requires first { guide.old.point ≡ 0 }
    ensures script { D.script desk.new ≡ D.script desk.old }
    ensures served { IfOk result (λ _. IsServed (D.Served.meaning (D.script desk.old))
        (D.at desk.old) (D.at desk.new)) }
    ensures stopped { OnErr result (IsStopped (D.Served.meaning (D.script desk.old))
        (D.at desk.old) (D.at desk.new)) }
    ensures values { guide.new.values.ghost_name ≡ guide.old.values.ghost_name }
{
    let reply = walk_body(guide, desk, env, body)?;
    let site = Site {
        part: guide.handler,
        point: guide.point,
    };
    desk.tell(guide.rt, guide.late, site, &guide.values[..guide.variables]);
    guide.late = false;
    desk.end(guide.rt, reply);
    Ok(())
}

/// Serves a handler of a program with these arguments at a desk, from its entry to its end. At each
/// point it narrows to the declaration there, so it meets what the desk's calls ask without a test.
/// Want of memory comes only where the desk isn't sure, and then the desk is left as the call that
/// wanted it left it.
pub fn serve_one<R: Threads + Wait + Sync, D: Desk>(
    rt: &R,
    program: &Program,
    h: u32,
    args: &[Value],
    scratch: &mut Scratch,
    desk: &mut D,
) -> Result<(), NoMemory>
    requires handler { h < length program.now.file.handlers }
    requires args { length args.now ≡ params_at program.now.file h }
    requires fresh { (D.at desk.old).entries ≡ [] }
    requires idle { (D.at desk.old).waiting ≡ None }
    requires going { (D.at desk.old).ended ≡ false }
    requires present { (D.at desk.old).present ≡ list_at (declared_at program.now h)
        (entry (env_of args.now)) }
    // The desk's script gives its ticket this handler with these arguments.
    requires gives { Gives (D.Served.meaning (D.script desk.old)) (D.at desk.old).ticket
        (declared_at program.now h) (entry (env_of args.now))
        (run (code_at program.now.file h) (env_of args.now)) }
    // It declares at the handler's points what the program does.
    requires declares { DeclaresHandler (D.Served.meaning (D.script desk.old)) program.now h }
    ensures script { D.script desk.new ≡ D.script desk.old }
    ensures served { IfOk result (λ _. IsServed (D.Served.meaning (D.script desk.old))
        (D.at desk.old) (D.at desk.new)) }
    ensures stopped { OnErr result (IsStopped (D.Served.meaning (D.script desk.old))
        (D.at desk.old) (D.at desk.new)) }
{
    let handler = program.checked().handler(h);
    let env = scratch.values.as_mut_slice();
    set_up(env, args);
    let kept = scratch.kept.as_mut_slice();
    let mut guide = Narrowing {
        rt,
        program,
        handler: h,
        variables: handler.variables.len() as usize,
        point: 0,
        values: kept,
        settled: false,
        late: false,
    };
    let result = serve_body(&mut guide, desk, env, &handler.body);
    // No effect at run time. The proof reads from this use that the room is as long as it was.
    let _ = &*kept;
    result
}
