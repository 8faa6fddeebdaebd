// Two tickets of one operation each, served at a desk as any desk may be.

ghost use Rattle.std.specs.Prelude.{◌≡◌, ◌<◌, List, ◌∷◌, [], IfOk, true};
ghost use Rattle.session_values.specs.Dialogue.{Calls, Answers};
ghost use Rattle.session_values.specs.Tables.{Fits};
ghost use Rattle.symbolic_ops.specs.Matching.{Covered, exact_symbol};
ghost use Rattle.session_journal.specs.Desks.{with_entry, with_end};
ghost use Rattle.session_journal.specs.Lists.{answers_only, calls_more};
ghost use Rattle.session_journal.specs.Script.{IsScript};
ghost use Rattle.plain_desk.specs.PlainDesks.{at_beginning};
ghost use Rattle.tests_desks.specs.BookRows.{meaning_of};

use crate::map_ops::{get, put};
use plain_desk::{DoneCall, PlainDesk};
use session_journal::{Desk, ListScript, Script};
use session_values::{NoMemory, Op, Reply, TableKind, Value};
use std::alloc::Global;
use std::process::Abort;
use std::sync::Wait;
use std::thread::Threads;
use symbolic_ops::Foresight;

// Serves ticket t, which has just begun, calls one operation and declares the same throughout.
fn serve<D: Desk, R: Threads + Wait + Abort + Sync>(
    desk: &mut D,
    rt: &R,
    t: u32,
    op: Op,
    declared: &Foresight,
    reply: Reply,
) -> Value
    requires lawful { IsScript (D.Served.meaning (D.script desk.old)) }
    requires begins { D.at desk.old ≡ at_beginning (D.Served.meaning (D.script desk.old)) t }
    requires calls { (D.Served.meaning (D.script desk.old)).next t [] ≡ Calls op }
    requires answers { (v : Value) →
        (D.Served.meaning (D.script desk.old)).next t (v ∷ []) ≡ Answers reply }
    requires entry { (D.Served.meaning (D.script desk.old)).entry t ≡ declared.now.symbols }
    requires told { (v : Value) →
        (D.Served.meaning (D.script desk.old)).told t (v ∷ []) ≡ declared.now.symbols }
    requires due { (rs : List Value) →
        (D.Served.meaning (D.script desk.old)).due t rs ≡ declared.now.symbols }
    requires covered { Covered declared.now.symbols declared.now.symbols }
    ensures script { D.script desk.new ≡ D.script desk.old }
    ensures served { D.at desk.new ≡ with_end (with_entry (D.at desk.old)
        (record { op = op; reply = result }) declared.now.symbols) }
{
    let value = desk.call(rt, op).expect(rt, "memory");
    value.bounds();
    desk.finish(rt, declared);
    desk.end(rt, reply);
    value
}

fn answer(n: i64) -> Reply {
    Reply::new(1, Value::Num(n), Value::Nil, Value::Nil, Value::Nil)
}

// A ticket of one operation.
#[derive(Clone, Copy)]
struct Ticket {
    op: Op,
    reply: Reply,
}

// Two tickets over one map, of one operation each.
fn two_tickets(alloc: Global, first: &Ticket, second: &Ticket) -> Result<ListScript, NoMemory>
    requires first { Fits (TableKind.Map ∷ []) first.now.op }
    requires second { Fits (TableKind.Map ∷ []) second.now.op }
    ensures shape { IfOk result (λ s. s.shape ≡ TableKind.Map ∷ []) }
    ensures tickets { IfOk result (λ s. s.tickets
        ≡ calls_more (answers_only first.now.reply) first.now.op
        ∷ calls_more (answers_only second.now.reply) second.now.op ∷ []) }
{
    let mut script = ListScript::with_room(alloc, &[TableKind::Map], 2, 2, 2)?;
    script.ticket(first.reply);
    script.call(first.op);
    script.ticket(second.reply);
    script.call(second.op);
    Ok(script)
}

// What ticket t declares at its beginning.
fn declared_at<R: Abort>(rt: &R, alloc: Global, script: &ListScript, t: u32) -> Foresight
    requires { t < (meaning_of script.now).requests }
    ensures { result.symbols ≡ (meaning_of script.now).entry t }
{
    let mut declared = Foresight::with_room(alloc, 256).expect(rt, "memory");
    script.entry(t, &mut declared);
    declared
}

// Begins the next ticket, which is this one.
fn begin<R: Abort>(rt: &R, desk: &mut PlainDesk<ListScript>, t: u32)
    requires { desk.old.desk.ended ≡ true }
    ensures script { desk.new.script ≡ desk.old.script }
    ensures begins { desk.new.desk ≡ at_beginning (meaning_of desk.old.script) t }
{
    let begun = desk.start();
    assert!(rt; begun == Some(t));
}

// The desk has ended these two tickets and no other, the second one with this entry, and begins no
// more.
fn has_ended<R: Abort>(
    rt: &R,
    desk: &mut PlainDesk<ListScript>,
    one: Reply,
    two: Reply,
    done: DoneCall,
)
    requires { desk.old.desk.ended ≡ true }
{
    assert!(rt; desk.reply(0) == Some(one) && desk.reply(1) == Some(two));
    assert!(rt; desk.reply(2) == None && desk.start() == None);
    let Some(entries) = desk.entries(1) else {
        rt.panic("no entries")
    };
    assert!(rt; entries.len() == 1);
    assert!(rt; entries[0] == done);
}

// Serves two tickets of one operation each in order; these are the replies of their calls.
fn serve_in_order<R: Threads + Wait + Abort + Sync>(
    rt: &R,
    desk: &mut PlainDesk<ListScript>,
    first: &Ticket,
    second: &Ticket,
    declared: &Foresight,
    more: &Foresight,
) -> (Value, Value)
    requires lawful { IsScript (meaning_of desk.old.script) }
    requires tickets { desk.old.script.tickets
        ≡ calls_more (answers_only first.now.reply) first.now.op
        ∷ calls_more (answers_only second.now.reply) second.now.op ∷ [] }
    requires ended { desk.old.desk.ended ≡ true }
    requires declared { declared.now.symbols ≡ exact_symbol first.now.op ∷ [] }
    requires more { more.now.symbols ≡ exact_symbol second.now.op ∷ [] }
    ensures ended { desk.new.desk.ended ≡ true }
{
    begin(rt, desk, 0);
    let value = serve(desk, rt, 0, first.op, declared, first.reply);
    begin(rt, desk, 1);
    let other = serve(desk, rt, 1, second.op, more, second.reply);
    (value, other)
}

// A desk over two tickets serves them in order; these are the replies of their calls.
fn serve_both<R: Threads + Wait + Abort + Sync>(
    rt: &R,
    alloc: Global,
    first: &Ticket,
    second: &Ticket,
) -> (Value, Value)
    requires first { Fits (TableKind.Map ∷ []) first.now.op }
    requires second { Fits (TableKind.Map ∷ []) second.now.op }
{
    let script = two_tickets(alloc, first, second).expect(rt, "memory");
    let _lawful = script.requests();
    let declared = declared_at(rt, alloc, &script, 0);
    let more = declared_at(rt, alloc, &script, 1);
    let mut desk = PlainDesk::new(alloc, script, &[TableKind::Map]).expect(rt, "memory");
    assert!(rt; desk.reply(0) == None);
    let (value, other) = serve_in_order(rt, &mut desk, first, second, &declared, &more);
    let done = DoneCall {
        op: second.op,
        reply: other,
    };
    has_ended(rt, &mut desk, first.reply, second.reply, done);
    (value, other)
}

#[test]
fn two_tickets_are_served_in_order(rt: HostRuntime) {
    let puts = Ticket {
        op: put(1, 7),
        reply: answer(1),
    };
    let gets = Ticket {
        op: get(1),
        reply: answer(2),
    };
    let (value, other) = serve_both(&rt, rt.alloc(), &puts, &gets);
    assert!(rt; value == Value::Nil && other == Value::Num(7));
}
