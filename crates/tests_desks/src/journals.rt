// Journals, and a list of tickets as a script.

ghost use Rattle.std.specs.Prelude.{◌≡◌, ◌∷◌, [], IfOk, length, map};
ghost use Rattle.session_values.specs.declared.kind.TableKind.TheVariants.{Map};
ghost use Rattle.session_values.specs.Tables.{kind_of};

use crate::books::nil;
use crate::map_ops::{get, put};
use plain_tables::PlainTables;
use session_journal::{Event, Journal, ListScript, Script};
use session_values::{NoMemory, Op, TableKind, Value};
use std::alloc::Global;
use std::process::Abort;
use symbolic_ops::{Foresight, Symbol};

/// The reply of an operation on one map.
#[tactic(auto, using(crate::proofs::OneMap::fits_one_map))]
fn reply_on<R: Abort>(rt: &R, tables: &mut PlainTables, op: Op) -> Value
    requires { map kind_of tables.old ≡ Map ∷ [] }
    ensures { map kind_of tables.new ≡ Map ∷ [] }
{
    if op.table != 0 {
        rt.panic("another table")
    }
    if !op.kind.on_map() {
        rt.panic("an operation on sets")
    }
    tables.apply(op).expect(rt, "memory")
}

/// Whether the event, done on one map, gives its reply, where it is a finished operation of a
/// ticket from `first` to `last`.
fn replay_one<R: Abort>(
    rt: &R,
    tables: &mut PlainTables,
    event: Event,
    first: u32,
    last: u32,
) -> bool
    requires { map kind_of tables.old ≡ Map ∷ [] }
    ensures { map kind_of tables.new ≡ Map ∷ [] }
{
    match event {
        Event::Done { ticket, op, reply } => {
            if ticket < first || last < ticket {
                return true;
            }
            reply_on(rt, tables, op) == reply
        }
        _ => true,
    }
}

/// Whether the finished operations of the tickets from `first` to `last`, done in order on one map
/// as it is, give their replies.
fn replay<R: Abort>(
    rt: &R,
    tables: &mut PlainTables,
    events: &[Event],
    first: u32,
    last: u32,
) -> bool
    requires { map kind_of tables.old ≡ Map ∷ [] }
    ensures { map kind_of tables.new ≡ Map ∷ [] }
{
    let mut replays = true;
    for event in events {
        let same = replay_one(rt, tables, *event, first, last);
        replays = replays && same;
    }
    replays
}

/// Two tickets begin; the younger one does an operation, and then the older one.
fn journal_of(alloc: Global, young: Op, old: Op, reply: Value) -> Result<Journal, NoMemory> {
    let mut journal = Journal::with_room(alloc, 4)?;
    journal.push_reserved(Event::Begin {
        ticket: 0,
        caller: 0,
    });
    journal.push_reserved(Event::Begin {
        ticket: 1,
        caller: 1,
    });
    journal.push_reserved(Event::Done {
        ticket: 1,
        op: young,
        reply: Value::Nil,
    });
    journal.push_reserved(Event::Done {
        ticket: 0,
        op: old,
        reply,
    });
    Ok(journal)
}

/// Whether such a journal replays in its order, and regrouped by ticket.
fn replayed<R: Abort>(rt: &R, alloc: Global, young: Op, old: Op, reply: Value) -> (bool, bool) {
    let journal = journal_of(alloc, young, old, reply).expect(rt, "memory");
    let mut tables = PlainTables::new(alloc, &[TableKind::Map]).expect(rt, "memory");
    let mut again = PlainTables::new(alloc, &[TableKind::Map]).expect(rt, "memory");
    let in_order = replay(rt, &mut tables, journal.events(), 0, 1);
    let older = replay(rt, &mut again, journal.events(), 0, 0);
    let younger = replay(rt, &mut again, journal.events(), 1, 1);
    assert!(rt; journal.spare() == 0);
    (in_order, older && younger)
}

#[test]
fn what_commutes_regroups(rt: HostRuntime) {
    let (in_order, regrouped) = replayed(&rt, rt.alloc(), put(2, 7), get(1), Value::Nil);
    assert!(rt; in_order && regrouped);
}

#[test]
fn what_does_not_commute_stays_in_order(rt: HostRuntime) {
    let (in_order, regrouped) = replayed(&rt, rt.alloc(), put(1, 7), get(1), Value::Num(7));
    assert!(rt; in_order && !regrouped);
}

#[test]
fn an_event_is_small(rt: HostRuntime) {
    assert!(rt; std::mem::size_of::<Event>() <= 64);
}

/// A ticket that puts and gets, and one that puts.
fn two_tickets(alloc: Global) -> Result<ListScript, NoMemory>
    ensures { IfOk result (λ s. length s.tickets ≡ 2) }
{
    let mut script = ListScript::with_room(alloc, &[TableKind::Map], 2, 3, 3)?;
    script.ticket(nil());
    script.call(put(2, 7));
    script.call(get(1));
    script.ticket(nil());
    script.call(put(1, 7));
    Ok(script)
}

/// The list has so many symbols, of which this is the first.
fn begins_with<R: Abort>(rt: &R, list: &Foresight, count: u32, first: Symbol) {
    assert!(rt; list.len() == count && list.symbols().first().copied() == Some(first));
}

/// Its tickets, its calls, and its adding calls on table 0; and what its tickets declare.
#[test]
fn a_list_of_tickets_is_a_script(rt: HostRuntime) {
    let script = two_tickets(rt.alloc()).expect(&rt, "memory");
    assert!(rt; script.requests() == 2 && script.calls() == 3 && script.room(0) == 2);
    let mut out = Foresight::with_room(rt.alloc(), 256).expect(&rt, "memory");
    script.entry(0, &mut out);
    begins_with(&rt, &out, 2, Symbol::exact(&put(2, 7)));
    script.entry(1, &mut out);
    begins_with(&rt, &out, 1, Symbol::exact(&put(1, 7)));
}
