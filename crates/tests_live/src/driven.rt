// Tickets and requests over the tables of one session: who is delayed, and until when.

use byte_ends::WriteBuffer;
use driven_tickets::{BeginError, Called, NarrowError, NoTicket};
use live_session::{Answered, Ended, LiveSession, NameError};
use session_values::{Kind, NoMemory, Op, Value};
use std::alloc::Global;
use std::test::Fail;
use symbolic_ops::{Foresight, Symbol};

/// Handlers that write and read one key of a map. There are five names.
const STORE: &str = "map m; handler store(k, v) { put(m, k, v); reply k; }\n\
    handler load(k) { let v = get(m, k); reply v; }\n%%\n";

/// What a key is bound to.
fn get(key: Value) -> Op {
    Op::new(Kind::Get, 0, key, Value::Nil)
}

/// A list of this operation alone, or of nothing.
fn declaring(alloc: Global, op: Option<Op>) -> Result<Foresight, NoMemory> {
    let mut list = Foresight::with_room(alloc, 1)?;
    if let Some(op) = op {
        let symbol = Symbol::exact(&op);
        if list.len() < 1 && symbol.has_no_var() {
            list.push(symbol);
        }
    }
    Ok(list)
}

/// What a session answers a line.
fn ask(alloc: Global, session: &mut LiveSession, line: &str) -> Option<Answered> {
    let Ok(mut reply) = WriteBuffer::new(alloc) else {
        return None;
    };
    if !reply.reserve(264) {
        return None;
    }
    Some(session.request(line, &mut reply))
}

/// Begins a ticket that declares this operation.
fn begin(alloc: Global, session: &mut LiveSession, op: Op) -> Result<u64, BeginError> {
    match declaring(alloc, Some(op)) {
        Ok(list) => session.begin(list),
        Err(_) => Err(BeginError::NoMemory),
    }
}

/// Narrows a ticket to nothing.
fn drop_all(alloc: Global, session: &mut LiveSession, ticket: u64) -> Result<(), NarrowError> {
    match declaring(alloc, None) {
        Ok(list) => session.narrow(ticket, list),
        Err(_) => Err(NarrowError::NoTicket),
    }
}

/// What lines are answered before a ticket that gets key 5 begins, while it is open, once it has
/// narrowed to nothing, and what its calls are answered.
fn delays(alloc: Global) -> Option<([Option<Answered>; 4], [Called; 2], Result<(), NoTicket>)> {
    let Ok(mut session) = LiveSession::open(alloc, STORE.as_bytes(), 7, 100) else {
        return None;
    };
    let key = Value::Num(5);
    let before = ask(alloc, &mut session, "store 5 7");
    let _ticket = begin(alloc, &mut session, get(key));
    let against = ask(alloc, &mut session, "store 5 8");
    let beside = ask(alloc, &mut session, "store 6 8");
    let first = session.call(1, get(key));
    let other = session.call(1, get(Value::Num(6)));
    let _narrowed = drop_all(alloc, &mut session, 1);
    let after = ask(alloc, &mut session, "store 5 8");
    let ended = session.end(1);
    session.regroups();
    Some(([before, against, beside, after], [first, other], ended))
}

#[test]
fn delays_a_request(rt: HostRuntime) -> Result<(), Fail> {
    let served = Some(Answered::Served);
    let delayed = Some(Answered::Delayed { older: 1 });
    let lines = [served, delayed, served, served];
    let calls = [Called::Done(Value::Num(7)), Called::Undeclared];
    assert_eq!(rt; delays(rt.alloc()), Some((lines, calls, Ok(()))));
    Ok(())
}

/// How far lines are served of which the second is delayed, and how many requests that were.
fn stopped(alloc: Global, lines: &str) -> Option<(usize, usize, Ended)> {
    let Ok(mut replies) = WriteBuffer::new(alloc) else {
        return None;
    };
    let Ok(mut session) = LiveSession::open(alloc, STORE.as_bytes(), 7, 100) else {
        return None;
    };
    let _ticket = begin(alloc, &mut session, get(Value::Num(5)));
    let batch = session.serve(lines, 10_000, &mut replies);
    Some((batch.used, batch.requests, batch.ended))
}

#[test]
fn stops_at_a_delayed_line(rt: HostRuntime) -> Result<(), Fail> {
    let ends = Ended::Stopped(Answered::Delayed { older: 0 });
    let due = Some((10, 1, ends));
    assert_eq!(rt; stopped(rt.alloc(), "store 6 1\nstore 5 1\n"), due);
    Ok(())
}

/// The number of a symbol that a request has placed, that of a new one, what a third is answered
/// where there may be seven names, and whether the first number has its text.
fn named(alloc: Global) -> Option<([Result<u32, NameError>; 4], bool)> {
    let Ok(mut session) = LiveSession::open(alloc, STORE.as_bytes(), 7, 7) else {
        return None;
    };
    let _served = ask(alloc, &mut session, "store ann 1");
    let ann = session.name("ann");
    let bob = session.name("bob");
    let more = session.name("carl");
    let none = session.name("5");
    let same = session.text_of(5) == Some("ann");
    Some(([ann, bob, more, none], same))
}

#[test]
fn numbers_names(rt: HostRuntime) -> Result<(), Fail> {
    let many = Err(NameError::TooManyNames);
    let no_symbol = Err(NameError::NoSymbol);
    assert_eq!(rt;
        named(rt.alloc()),
        Some(([Ok(5), Ok(6), many, no_symbol], true))
    );
    Ok(())
}
