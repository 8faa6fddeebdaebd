// The requests of a program, served one at a time at a desk that may want memory.

ghost use Rattle.std.specs.Prelude.{◌≡◌, true};
ghost use Rattle.session_values.specs.Opening.{IsOpening};
ghost use Rattle.handler_check.specs.Resolved.{shape_of as shape_spec};
ghost use Rattle.request_files.specs.Servable.{IsServable};

use crate::sessions::{reply_of, session};
use declaration_insertion::Program;
use handler_machine::Scripts;
use plain_desk::PlainDesk;
use request_files::Requests;
use session_journal::{Scratch, Serves};
use session_values::{Opening, Reply, TableKind, Value};
use std::alloc::Global;
use std::process::Abort;
use std::sync::Wait;
use std::thread::Threads;

/// Serves the next ticket at the desk.
fn serve_next<'a, R: Threads + Wait + Abort + Sync>(
    rt: &R,
    plan: &Scripts<'a>,
    scratch: &mut Scratch,
    desk: &mut PlainDesk<Scripts<'a>>,
) -> Option<Reply>
    requires plan { desk.old.script ≡ plan.now }
    requires ended { desk.old.desk.ended ≡ true }
    ensures plan { desk.new.script ≡ plan.now }
    ensures ended { desk.new.desk.ended ≡ true }
{
    let Some(ticket) = desk.start() else {
        rt.panic("no ticket")
    };
    plan.serve(rt, ticket, scratch, desk).expect(rt, "memory");
    desk.reply(ticket)
}

/// The replies of three requests.
fn three_replies<'a, R: Threads + Wait + Abort + Sync>(
    rt: &R,
    alloc: Global,
    program: &'a Program,
    opening: &'a Opening,
    requests: &'a Requests,
    shape: &[TableKind],
) -> [Option<Reply>; 3]
    requires opening { IsOpening (shape_spec program.now.file) opening.now }
    requires servable { IsServable program.now.file requests.now }
    requires shape { shape.now ≡ shape_spec program.now.file }
{
    let plan = Scripts::over(program, opening, requests);
    let script = Scripts::over(program, opening, requests);
    let mut scratch = Scratch::new(alloc).expect(rt, "memory");
    let mut desk = PlainDesk::new(alloc, script, shape).expect(rt, "memory");
    let first = serve_next(rt, &plan, &mut scratch, &mut desk);
    let second = serve_next(rt, &plan, &mut scratch, &mut desk);
    let third = serve_next(rt, &plan, &mut scratch, &mut desk);
    [first, second, third]
}

/// With ample memory each ticket is served, and replies as it does in the serial run.
#[test]
fn requests_at_a_plain_desk(rt: HostRuntime) {
    let loaded = session(&rt, rt.alloc());
    let shape = loaded
        .program
        .checked()
        .shape(rt.alloc())
        .expect(&rt, "memory");
    let replies = three_replies(
        &rt,
        rt.alloc(),
        &loaded.program,
        &loaded.opening,
        &loaded.requests,
        shape.as_slice(),
    );
    let wanted = [
        Some(reply_of(Value::Nil, 1)),
        Some(reply_of(Value::Nil, 2)),
        Some(reply_of(Value::Num(10), 2)),
    ];
    assert!(rt; replies == wanted);
}
