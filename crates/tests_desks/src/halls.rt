// Two callers of one hall on one thread: the younger one finds the shard taken that the older one
// holds, and then waits until the older one declares less.

ghost use Rattle.std.specs.Prelude.{◌≡◌, ◌≤◌, [], ◌∷◌, ◌++◌, IfOk};
ghost use Rattle.session_values.specs.Limits.{max_symbols};
ghost use Rattle.symbolic_ops.specs.Matching.{exact_symbol};
ghost use Rattle.session_values.specs.declared.value.Value.TheVariants.{Nil};
ghost use Rattle.session_values.specs.declared.kind.TableKind.TheVariants.{Map};
ghost use Rattle.session_hall.specs.declared.stage.Stage.TheVariants.{Idle, InFlight, Out, Serving};
ghost use Rattle.session_hall.specs.Callers.{IsCallerOf};
ghost use Rattle.session_hall.specs.Names.{script_of};
ghost use Rattle.session_hall.specs.Stages.{IsBetween};
ghost use Rattle.tests_desks.specs.BookRows.{get_of, list_entry, meaning_of, put_of};
ghost use Rattle.tests_desks.specs.HallRows.{HasTwo, Stands, done, gets_and_puts};

use crate::books::{are_nil, get_1, nil, put_1, put_2};
use session_hall::{Admitting, Applying, Caller, Closed, Hall};
use session_journal::{Event, ListScript};
use session_values::{Kind, Listed, NoMemory, Op, TableKind, Value};
use shard_tables::{MapShard, Part, shard_of};
use std::alloc::Global;
use std::process::Abort;
use std::sync::Wait;
use symbolic_ops::{Foresight, Symbol};

/// Its key is in one shard of two with that of `put_2`.
fn get_4() -> Op
    ensures { result ≡ get_of 4 }
{
    Op::new(Kind::Get, 0, Value::Num(4), Value::Nil)
}

/// A ticket that gets one key and may get another one, and one that puts twice.
fn two_tickets(alloc: Global) -> Result<ListScript, NoMemory>
    ensures { IfOk result (λ s. s ≡ gets_and_puts) }
{
    let mut script = ListScript::with_room(alloc, &[TableKind::Map], 2, 3, 4)?;
    script.ticket(nil());
    script.call(get_4());
    script.allow(Symbol::exact(&get_1()));
    script.ticket(nil());
    script.call(put_2());
    script.call(put_1());
    Ok(script)
}

/// A hall of two shards and two callers over a list of tickets on one map.
pub(crate) fn open_two(
    alloc: Global,
    script: ListScript,
) -> Result<(Hall<ListScript>, Vec<Caller<ListScript>>), NoMemory>
    requires { script.shape ≡ Map ∷ [] }
    ensures { IfOk result (λ r. HasTwo script r.0 r.1.items) }
{
    let (hall, callers) = Hall::open(alloc, script, &[TableKind::Map], 2, 2)?;
    Ok((hall, callers.into_vec()))
}

/// The hall over both tickets.
fn open_hall(alloc: Global) -> Result<(Hall<ListScript>, Vec<Caller<ListScript>>), NoMemory>
    ensures { IfOk result (λ r. HasTwo gets_and_puts r.0 r.1.items) }
{
    let script = two_tickets(alloc)?;
    open_two(alloc, script)
}

/// Ticket t begins.
fn begin<R: Wait + Abort>(rt: &R, hall: &Hall<ListScript>, caller: &mut Caller<ListScript>, t: u32)
    requires caller { IsCallerOf meaning_of hall.now caller.old }
    requires stage { IsBetween caller.old.stage }
    ensures same { caller.new.number ≡ caller.old.number }
    ensures begun { Stands hall.now caller.new t (Serving t)
        (list_entry (script_of hall.now) t) [] }
{
    let begun = caller.begin(rt, hall);
    assert!(rt; begun == Some(t));
}

/// All tickets are begun.
fn leave<R: Wait + Abort>(rt: &R, hall: &Hall<ListScript>, caller: &mut Caller<ListScript>)
    requires caller { IsCallerOf meaning_of hall.now caller.old }
    requires stage { IsBetween caller.old.stage }
    ensures same { caller.new.number ≡ caller.old.number }
    ensures caller { IsCallerOf meaning_of hall.now caller.new }
    ensures out { caller.new.stage ≡ Out }
{
    let begun = caller.begin(rt, hall);
    assert!(rt; begun == None);
}

/// The younger caller finds the shard of its first put taken, until the older one gives it back.
fn put_on_taken_shard<R: Wait + Abort>(
    rt: &R,
    hall: &Hall<ListScript>,
    older: &mut Caller<ListScript>,
    younger: &mut Caller<ListScript>,
    scratch: &mut Foresight,
) -> Value
    requires script { script_of hall.now ≡ gets_and_puts }
    requires older { Stands hall.now older.old 0 (Serving 0)
        (exact_symbol (get_of 4) ∷ exact_symbol (get_of 1) ∷ []) [] }
    requires younger { Stands hall.now younger.old 1 (Serving 1)
        (exact_symbol (put_of 2 7) ∷ exact_symbol (put_of 1 7) ∷ []) [] }
    requires room { max_symbols ≤ scratch.old.room }
    ensures numbers { (older.new.number ≡ older.old.number)
        × (younger.new.number ≡ younger.old.number) }
    ensures older { Stands hall.now older.new 0 (Serving 0)
        (exact_symbol (get_of 1) ∷ []) (done (get_of 4) result ∷ []) }
    ensures younger { Stands hall.now younger.new 1 (InFlight 1 (put_of 2 7))
        (exact_symbol (put_of 2 7) ∷ exact_symbol (put_of 1 7) ∷ []) [] }
    ensures room { scratch.new.room ≡ scratch.old.room }
{
    older.admit(rt, hall, get_4());
    let got = older.apply(rt, hall);
    younger.admit(rt, hall, put_2());
    let Applying::Busy { turn } = younger.try_apply(hall) else {
        rt.panic("no shard was taken")
    };
    assert!(rt; turn == 1);
    scratch.clear();
    scratch.push(Symbol::exact(&get_1()));
    older.finish(rt, hall, scratch);
    got
}

/// The younger caller puts.
fn put_first<R: Wait + Abort>(
    rt: &R,
    hall: &Hall<ListScript>,
    younger: &mut Caller<ListScript>,
    scratch: &mut Foresight,
) -> Value
    requires script { script_of hall.now ≡ gets_and_puts }
    requires younger { Stands hall.now younger.old 1 (InFlight 1 (put_of 2 7))
        (exact_symbol (put_of 2 7) ∷ exact_symbol (put_of 1 7) ∷ []) [] }
    requires room { max_symbols ≤ scratch.old.room }
    ensures number { younger.new.number ≡ younger.old.number }
    ensures younger { Stands hall.now younger.new 1 (Serving 1)
        (exact_symbol (put_of 1 7) ∷ []) (done (put_of 2 7) result ∷ []) }
{
    let put = younger.apply(rt, hall);
    scratch.clear();
    scratch.push(Symbol::exact(&put_1()));
    younger.finish(rt, hall, scratch);
    put
}

/// What the first calls of both tickets replied: the older one's get, and the younger one's put.
#[derive(Clone, Copy)]
struct FirstReplies {
    got: Value,
    put: Value,
}

/// The younger caller is told who delays its second put; the older one declares that it calls
/// nothing, and the younger one puts.
fn put_again<R: Wait + Abort>(
    rt: &R,
    hall: &Hall<ListScript>,
    older: &mut Caller<ListScript>,
    younger: &mut Caller<ListScript>,
    scratch: &mut Foresight,
    first: FirstReplies,
) -> Value
    requires script { script_of hall.now ≡ gets_and_puts }
    requires older { Stands hall.now older.old 0 (Serving 0)
        (exact_symbol (get_of 1) ∷ []) (done (get_of 4) first.got ∷ []) }
    requires younger { Stands hall.now younger.old 1 (Serving 1)
        (exact_symbol (put_of 1 7) ∷ []) (done (put_of 2 7) first.put ∷ []) }
    ensures numbers { (older.new.number ≡ older.old.number)
        × (younger.new.number ≡ younger.old.number) }
    ensures older { Stands hall.now older.new 0 (Serving 0) [] (done (get_of 4) first.got ∷ []) }
    ensures younger { Stands hall.now younger.new 1 (Serving 1) []
        (done (put_of 2 7) first.put ∷ done (put_of 1 7) result ∷ []) }
{
    let Admitting::Delayed {
        older: ticket,
        symbol,
    } = younger.try_admit(hall, put_1())
    else {
        rt.panic("not delayed")
    };
    assert!(rt; ticket == 0 && symbol == Symbol::exact(&get_1()));
    scratch.clear();
    older.declare(rt, hall, scratch);
    younger.admit(rt, hall, put_1());
    let put = younger.apply(rt, hall);
    younger.finish(rt, hall, scratch);
    put
}

/// Both tickets end, and both callers are out.
fn end_both<R: Wait + Abort>(
    rt: &R,
    hall: &Hall<ListScript>,
    older: &mut Caller<ListScript>,
    younger: &mut Caller<ListScript>,
    first: FirstReplies,
    second: Value,
)
    requires script { script_of hall.now ≡ gets_and_puts }
    requires older { Stands hall.now older.old 0 (Serving 0) [] (done (get_of 4) first.got ∷ []) }
    requires younger { Stands hall.now younger.old 1 (Serving 1) []
        (done (put_of 2 7) first.put ∷ done (put_of 1 7) second ∷ []) }
    ensures numbers { (older.new.number ≡ older.old.number)
        × (younger.new.number ≡ younger.old.number) }
    ensures older { IsCallerOf meaning_of hall.now older.new × (older.new.stage ≡ Out) }
    ensures younger { IsCallerOf meaning_of hall.now younger.new × (younger.new.stage ≡ Out) }
{
    older.end(rt, hall, nil());
    younger.end(rt, hall, nil());
    leave(rt, hall, older);
    leave(rt, hall, younger);
}

/// Both tickets are served.
fn serve_both<R: Wait + Abort>(
    rt: &R,
    hall: &Hall<ListScript>,
    older: &mut Caller<ListScript>,
    younger: &mut Caller<ListScript>,
    scratch: &mut Foresight,
)
    requires script { script_of hall.now ≡ gets_and_puts }
    requires older { IsCallerOf meaning_of hall.now older.old × (older.old.stage ≡ Idle) }
    requires younger { IsCallerOf meaning_of hall.now younger.old × (younger.old.stage ≡ Idle) }
    requires room { max_symbols ≤ scratch.old.room }
    ensures numbers { (older.new.number ≡ older.old.number)
        × (younger.new.number ≡ younger.old.number) }
    ensures older { IsCallerOf meaning_of hall.now older.new × (older.new.stage ≡ Out) }
    ensures younger { IsCallerOf meaning_of hall.now younger.new × (younger.new.stage ≡ Out) }
{
    begin(rt, hall, older, 0);
    begin(rt, hall, younger, 1);
    let got = put_on_taken_shard(rt, hall, older, younger, scratch);
    let put = put_first(rt, hall, younger, scratch);
    let first = FirstReplies { got, put };
    let second = put_again(rt, hall, older, younger, scratch, first);
    end_both(rt, hall, older, younger, first, second);
}

/// Two callers serve both tickets, and the hall closes.
fn served_by_two<R: Wait + Abort>(rt: &R, alloc: Global) -> Closed {
    let mut scratch = Foresight::with_room(alloc, 256).expect(rt, "memory");
    let (hall, mut list) = open_hall(alloc).expect(rt, "memory");
    let mut older = list.remove(0);
    let mut younger = list.remove(0);
    serve_both(rt, &hall, &mut older, &mut younger, &mut scratch);
    list.push_reserved(older);
    list.push_reserved(younger);
    hall.close(Listed::from_vec(list))
}

/// The event at a place of the closed hall's journal.
fn event_at(closed: &Closed, i: usize) -> Option<Event> {
    closed.journal().events().get(i).copied()
}

/// What a ticket's operation leaves in the journal, with the reply Nil.
fn done_event(ticket: u32, op: Op) -> Option<Event> {
    Some(Event::Done {
        ticket,
        op,
        reply: Value::Nil,
    })
}

/// The events behind the first two are those of the session, of which there are eight.
fn has_events<R: Abort>(rt: &R, closed: &Closed) {
    let delay = Event::Delay {
        ticket: 1,
        op: put_1(),
        older: 0,
        symbol: Symbol::exact(&get_1()),
    };
    assert!(rt; event_at(closed, 2) == done_event(0, get_4()));
    assert!(rt; event_at(closed, 3) == done_event(1, put_2()));
    assert!(rt; event_at(closed, 4) == Some(delay));
    assert!(rt; event_at(closed, 5) == done_event(1, put_1()));
    assert!(rt; closed.journal().events().len() == 8);
}

/// What a key is bound to in a shard.
fn value_in(shard: &MapShard, key: Value) -> Option<Value> {
    for i in 0..shard.len() {
        let (other, value) = shard.entry(i);
        if other == key {
            return Some(value);
        }
    }
    None
}

/// What a key is bound to in its shard of the two that a hall of one map leaves.
fn bound_to(closed: &Closed, key: Value) -> Option<Value> {
    let shard = shard_of(key, 2);
    match closed.parts().as_slice().get(shard as usize) {
        Some(Part::Bindings(shard)) => value_in(shard, key),
        _ => None,
    }
}

/// The keys 1 and 2 are bound to 7, and both tickets have their replies.
pub(crate) fn has_bindings<R: Abort>(rt: &R, closed: &Closed) {
    let value = Some(Value::Num(7));
    assert!(rt; bound_to(closed, Value::Num(1)) == value);
    assert!(rt; bound_to(closed, Value::Num(2)) == value);
    are_nil(rt, closed.replies().as_slice(), 2);
}

#[test]
fn a_younger_caller_waits_for_a_shard_and_for_the_older_one(rt: HostRuntime) {
    let closed = served_by_two(&rt, rt.alloc());
    has_events(&rt, &closed);
    has_bindings(&rt, &closed);
}
