// Tickets driven call by call: two transfers that overlap, one that waits until an older ticket
// narrows, and each refusal.

use driven_tickets::{Called, DrivenTables, NarrowError, NoTicket};
use session_values::{Kind, NoMemory, Op, TableKind, Value};
use std::alloc::Global;
use std::process::Abort;
use symbolic_ops::{Arg, Foresight, Symbol};

const NOTHING: Called = Called::Done(Value::Nil);

/// What an account holds.
fn get(account: i64) -> Op {
    Op::new(Kind::Get, 0, Value::Num(account), Value::Nil)
}

/// Adds to what an account holds.
fn bump(account: i64, by: i64) -> Op {
    Op::new(Kind::Bump, 0, Value::Num(account), Value::Num(by))
}

/// A list of these symbols.
fn list(alloc: Global, symbols: &[Symbol]) -> Result<Foresight, NoMemory> {
    let mut list = Foresight::with_room(alloc, 3)?;
    for s in symbols {
        if list.len() < 3 && s.has_no_var() {
            list.push(*s);
        }
    }
    Ok(list)
}

/// What a reader of these accounts declares.
fn reading<R: Abort>(rt: &R, alloc: Global, accounts: &[i64]) -> Foresight {
    let mut symbols = Vec::new(alloc);
    for account in accounts {
        symbols
            .push(Symbol::exact(&get(*account)))
            .expect(rt, "memory");
    }
    list(alloc, symbols.as_slice()).expect(rt, "memory")
}

/// What a transfer declares: what the one account holds, and any bump of both.
fn transfer<R: Abort>(rt: &R, alloc: Global, from: i64, to: i64) -> Foresight {
    let from_key = Arg::Known(Value::Num(from));
    let to_key = Arg::Known(Value::Num(to));
    let symbols = [
        Symbol::exact(&get(from)),
        Symbol::new(Kind::Bump, 0, from_key, Arg::Any),
        Symbol::new(Kind::Bump, 0, to_key, Arg::Any),
    ];
    list(alloc, &symbols).expect(rt, "memory")
}

/// What a ticket's get of an account answers.
fn held(number: i64) -> Called {
    Called::Done(Value::Num(number))
}

/// Calls of tickets, in order, with what each has to answer.
fn calls<R: Abort>(rt: &R, tables: &mut DrivenTables, rows: &[(u64, Op, Called)]) {
    for (ticket, op, answer) in rows {
        assert_eq!(rt; tables.call(*ticket, *op), *answer);
    }
}

/// A value that may go to another thread.
fn may_go<T: Send>(value: T) -> T {
    value
}

/// Tables of one map, in which ticket 0 has bumped account 1 to 100, 2 to 50 and 3 to 10.
fn bank<R: Abort>(rt: &R, alloc: Global) -> DrivenTables {
    let mut tables = DrivenTables::open(alloc, &[TableKind::Map]).expect(rt, "memory");
    let any = [Symbol::new(Kind::Bump, 0, Arg::Any, Arg::Any)];
    let declared = list(alloc, &any).expect(rt, "memory");
    assert_eq!(rt; tables.begin(declared), Ok(0));
    let rows = [
        (0, bump(1, 100), NOTHING),
        (0, bump(2, 50), NOTHING),
        (0, bump(3, 10), NOTHING),
    ];
    calls(rt, &mut tables, &rows);
    assert_eq!(rt; tables.end(0), Ok(()));
    may_go(tables)
}

#[test]
fn transfers_that_commute_overlap(rt: HostRuntime) {
    let alloc = rt.alloc();
    let mut tables = bank(&rt, alloc);
    assert_eq!(rt; tables.begin(transfer(&rt, alloc, 1, 2)), Ok(1));
    assert_eq!(rt; tables.begin(transfer(&rt, alloc, 3, 2)), Ok(2));
    let rows = [
        (1, get(1), held(100)),
        (2, get(3), held(10)),
        (2, bump(3, -5), NOTHING),
        (1, bump(1, -30), NOTHING),
        (2, bump(2, 5), NOTHING),
        (1, bump(2, 30), NOTHING),
    ];
    calls(&rt, &mut tables, &rows);
    assert_eq!(rt; tables.end(2), Ok(()));
    assert_eq!(rt; tables.end(1), Ok(()));
    assert_eq!(rt; tables.begin(reading(&rt, alloc, &[1, 2, 3])), Ok(3));
    let rows = [
        (3, get(1), held(70)),
        (3, get(2), held(85)),
        (3, get(3), held(5)),
    ];
    calls(&rt, &mut tables, &rows);
}

#[test]
fn a_reader_waits_until_the_older_ticket_narrows(rt: HostRuntime) {
    let alloc = rt.alloc();
    let mut tables = bank(&rt, alloc);
    assert_eq!(rt; tables.begin(transfer(&rt, alloc, 1, 2)), Ok(1));
    assert_eq!(rt; tables.begin(reading(&rt, alloc, &[2])), Ok(2));
    let waits = Called::Delayed { older: 1 };
    let rows = [
        (2, get(2), waits),
        (1, get(1), held(100)),
        (1, bump(1, -30), NOTHING),
        (1, bump(2, 30), NOTHING),
        (2, get(2), waits),
    ];
    calls(&rt, &mut tables, &rows);
    assert_eq!(rt; tables.narrow(1, reading(&rt, alloc, &[1])), Ok(()));
    let rows = [
        (2, get(2), held(80)),
        (1, get(1), held(70)),
        (1, bump(2, 1), Called::Undeclared),
    ];
    calls(&rt, &mut tables, &rows);
    assert_eq!(rt; tables.end(1), Ok(()));
    assert_eq!(rt; tables.end(2), Ok(()));
}

#[test]
fn each_refusal_changes_nothing(rt: HostRuntime) {
    let alloc = rt.alloc();
    let mut tables = bank(&rt, alloc);
    assert_eq!(rt; tables.begin(transfer(&rt, alloc, 1, 2)), Ok(1));
    let member = Op::new(Kind::Has, 0, Value::Num(1), Value::Nil);
    let elsewhere = Op::new(Kind::Get, 1, Value::Num(1), Value::Nil);
    let rows = [
        (1, get(2), Called::Undeclared),
        (1, member, Called::Misfit),
        (1, elsewhere, Called::Misfit),
        (0, get(1), Called::NoTicket),
        (2, get(1), Called::NoTicket),
    ];
    calls(&rt, &mut tables, &rows);
    let wider = transfer(&rt, alloc, 1, 3);
    assert_eq!(rt; tables.narrow(1, wider), Err(NarrowError::Undeclared));
    let nobody = reading(&rt, alloc, &[1]);
    assert_eq!(rt; tables.narrow(2, nobody), Err(NarrowError::NoTicket));
    assert_eq!(rt; tables.end(2), Err(NoTicket));
    calls(&rt, &mut tables, &[(1, get(1), held(100))]);
    assert_eq!(rt; tables.end(1), Ok(()));
    assert_eq!(rt; tables.end(1), Err(NoTicket));
    calls(&rt, &mut tables, &[(1, get(1), Called::NoTicket)]);
}
