// Two callers of one hall on one thread, each call in one try: the younger caller puts, waits until
// the older one has ended, and puts once more.

ghost use Rattle.std.specs.Prelude.{◌≡◌, ◌≤◌, [], ◌∷◌};
ghost use Rattle.session_values.specs.Limits.{max_symbols};
ghost use Rattle.session_hall.specs.declared.stage.Stage.TheVariants.{Idle, Out, Serving};
ghost use Rattle.session_hall.specs.Callers.{IsCallerOf};
ghost use Rattle.session_hall.specs.Names.{script_of};
ghost use Rattle.session_hall.specs.Stages.{IsBetween};
ghost use Rattle.tests_desks.specs.BookRows.{list_entry, meaning_of, put_of};
ghost use Rattle.tests_desks.specs.HallRows.{Stands, done};
ghost use Rattle.tests_desks.specs.TwoPuts.{get_or_puts, may_get, may_put, may_put_both};

use crate::books::{get_1, nil, put_1, put_2};
use crate::halls::{has_bindings, open_two};
use crate::two_puts::get_or_two_puts;
use session_hall::{Admitting, Applying, Began, Caller, Closed, Declared, Ending, Finishing, Hall};
use session_journal::ListScript;
use session_values::{Listed, Value};
use std::alloc::Global;
use std::process::Abort;
use symbolic_ops::{Foresight, Symbol};

/// Ticket t begins.
fn begin<R: Abort>(rt: &R, hall: &Hall<ListScript>, caller: &mut Caller<ListScript>, t: u32)
    requires caller { IsCallerOf meaning_of hall.now caller.old }
    requires stage { IsBetween caller.old.stage }
    ensures same { caller.new.number ≡ caller.old.number }
    ensures begun { Stands hall.now caller.new t (Serving t)
        (list_entry (script_of hall.now) t) [] }
{
    let Began::Ticket(begun) = caller.try_begin(hall) else {
        rt.panic("no ticket")
    };
    assert!(rt; begun == t);
}

/// All tickets are begun.
fn leave<R: Abort>(rt: &R, hall: &Hall<ListScript>, caller: &mut Caller<ListScript>)
    requires caller { IsCallerOf meaning_of hall.now caller.old }
    requires stage { IsBetween caller.old.stage }
    ensures same { caller.new.number ≡ caller.old.number }
    ensures caller { IsCallerOf meaning_of hall.now caller.new }
    ensures out { caller.new.stage ≡ Out }
{
    let Began::AllBegun = caller.try_begin(hall) else {
        rt.panic("a third ticket")
    };
}

/// The younger caller puts.
fn put_first<R: Abort>(
    rt: &R,
    hall: &Hall<ListScript>,
    younger: &mut Caller<ListScript>,
    scratch: &mut Foresight,
) -> Value
    requires script { script_of hall.now ≡ get_or_puts }
    requires younger { Stands hall.now younger.old 1 (Serving 1) may_put_both [] }
    requires room { max_symbols ≤ scratch.old.room }
    ensures number { younger.new.number ≡ younger.old.number }
    ensures younger { Stands hall.now younger.new 1 (Serving 1) may_put
        (done (put_of 2 7) result ∷ []) }
{
    let Admitting::Admitted = younger.try_admit(hall, put_2()) else {
        rt.panic("not admitted")
    };
    let Applying::Applied(put) = younger.try_apply(hall) else {
        rt.panic("a shard was taken")
    };
    scratch.clear();
    scratch.push(Symbol::exact(&put_1()));
    let Finishing::Done = younger.try_finish(hall, scratch) else {
        rt.panic("the book was taken")
    };
    put
}

/// The younger caller is told who delays its second put.
fn wait_for_older<R: Abort>(
    rt: &R,
    hall: &Hall<ListScript>,
    younger: &mut Caller<ListScript>,
    first: Value,
)
    requires script { script_of hall.now ≡ get_or_puts }
    requires younger { Stands hall.now younger.old 1 (Serving 1) may_put
        (done (put_of 2 7) first ∷ []) }
    ensures number { younger.new.number ≡ younger.old.number }
    ensures younger { Stands hall.now younger.new 1 (Serving 1) may_put
        (done (put_of 2 7) first ∷ []) }
{
    let Admitting::Delayed { older, symbol } = younger.try_admit(hall, put_1()) else {
        rt.panic("not delayed")
    };
    assert!(rt; older == 0 && symbol == Symbol::exact(&get_1()));
}

/// The older caller declares that it calls nothing, and ends.
fn end_older<R: Abort>(
    rt: &R,
    hall: &Hall<ListScript>,
    older: &mut Caller<ListScript>,
    scratch: &mut Foresight,
)
    requires script { script_of hall.now ≡ get_or_puts }
    requires older { Stands hall.now older.old 0 (Serving 0) may_get [] }
    ensures number { older.new.number ≡ older.old.number }
    ensures older { IsCallerOf meaning_of hall.now older.new × (older.new.stage ≡ Idle) }
{
    scratch.clear();
    let Declared::Yes = older.try_declare(hall, scratch) else {
        rt.panic("not declared")
    };
    let Ending::Ended = older.try_end(hall, nil()) else {
        rt.panic("not ended")
    };
}

/// The younger caller puts once more.
fn put_second<R: Abort>(
    rt: &R,
    hall: &Hall<ListScript>,
    younger: &mut Caller<ListScript>,
    scratch: &mut Foresight,
    first: Value,
) -> Value
    requires script { script_of hall.now ≡ get_or_puts }
    requires younger { Stands hall.now younger.old 1 (Serving 1) may_put
        (done (put_of 2 7) first ∷ []) }
    ensures number { younger.new.number ≡ younger.old.number }
    ensures younger { Stands hall.now younger.new 1 (Serving 1) []
        (done (put_of 2 7) first ∷ done (put_of 1 7) result ∷ []) }
{
    let Admitting::Admitted = younger.try_admit(hall, put_1()) else {
        rt.panic("not admitted")
    };
    let Applying::Applied(put) = younger.try_apply(hall) else {
        rt.panic("a shard was taken")
    };
    scratch.clear();
    let Finishing::Done = younger.try_finish(hall, scratch) else {
        rt.panic("the book was taken")
    };
    put
}

/// The younger caller ends.
fn end_younger<R: Abort>(
    rt: &R,
    hall: &Hall<ListScript>,
    younger: &mut Caller<ListScript>,
    first: Value,
    second: Value,
)
    requires script { script_of hall.now ≡ get_or_puts }
    requires younger { Stands hall.now younger.old 1 (Serving 1) []
        (done (put_of 2 7) first ∷ done (put_of 1 7) second ∷ []) }
    ensures number { younger.new.number ≡ younger.old.number }
    ensures younger { IsCallerOf meaning_of hall.now younger.new × (younger.new.stage ≡ Idle) }
{
    let Ending::Ended = younger.try_end(hall, nil()) else {
        rt.panic("not ended")
    };
}

/// Both tickets are served, and both callers are out.
fn serve_both<R: Abort>(
    rt: &R,
    hall: &Hall<ListScript>,
    older: &mut Caller<ListScript>,
    younger: &mut Caller<ListScript>,
    scratch: &mut Foresight,
)
    requires script { script_of hall.now ≡ get_or_puts }
    requires older { IsCallerOf meaning_of hall.now older.old × (older.old.stage ≡ Idle) }
    requires younger { IsCallerOf meaning_of hall.now younger.old × (younger.old.stage ≡ Idle) }
    requires room { max_symbols ≤ scratch.old.room }
    ensures numbers { (older.new.number ≡ older.old.number)
        × (younger.new.number ≡ younger.old.number) }
    ensures older { IsCallerOf meaning_of hall.now older.new × (older.new.stage ≡ Out) }
    ensures younger { IsCallerOf meaning_of hall.now younger.new × (younger.new.stage ≡ Out) }
{
    begin(rt, hall, older, 0);
    begin(rt, hall, younger, 1);
    let first = put_first(rt, hall, younger, scratch);
    wait_for_older(rt, hall, younger, first);
    end_older(rt, hall, older, scratch);
    let second = put_second(rt, hall, younger, scratch, first);
    assert!(rt; first == Value::Nil && second == Value::Nil);
    end_younger(rt, hall, younger, first, second);
    leave(rt, hall, older);
    leave(rt, hall, younger);
}

/// Two callers serve both tickets, and the hall closes.
fn served_by_tries<R: Abort>(rt: &R, alloc: Global) -> Closed {
    let mut scratch = Foresight::with_room(alloc, 256).expect(rt, "memory");
    let script = get_or_two_puts(alloc).expect(rt, "memory");
    let (hall, mut list) = open_two(alloc, script).expect(rt, "memory");
    let mut older = list.remove(0);
    let mut younger = list.remove(0);
    serve_both(rt, &hall, &mut older, &mut younger, &mut scratch);
    list.push_reserved(older);
    list.push_reserved(younger);
    hall.close(Listed::from_vec(list))
}

#[test]
fn a_younger_caller_is_delayed_until_the_older_one_ends(rt: HostRuntime) {
    let closed = served_by_tries(&rt, rt.alloc());
    assert!(rt; closed.journal().events().len() == 7);
    has_bindings(&rt, &closed);
}
