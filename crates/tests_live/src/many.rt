// Many tickets and many keys: no call gives up while there is memory.

use byte_ends::WriteBuffer;
use driven_tickets::Called;
use live_session::{Answered, LiveSession};
use session_values::{Kind, NoMemory, Op, Value};
use std::alloc::Global;
use std::test::Fail;
use symbolic_ops::{Foresight, Symbol};

/// Handlers that write and read one key of a map.
const STORE: &str = "map m; handler store(k, v) { put(m, k, v); reply k; }\n\
    handler load(k) { let v = get(m, k); reply v; }\n%%\n";

/// A list of this operation alone.
fn declaring(alloc: Global, op: &Op) -> Result<Foresight, NoMemory> {
    let mut list = Foresight::with_room(alloc, 1)?;
    let symbol = Symbol::exact(op);
    if list.len() < 1 && symbol.has_no_var() {
        list.push(symbol);
    }
    Ok(list)
}

/// Begins a ticket that declares this operation, if there is memory.
fn begin(alloc: Global, session: &mut LiveSession, op: &Op) -> Option<u64> {
    match declaring(alloc, op) {
        Ok(list) => session.begin(list).ok(),
        Err(_) => None,
    }
}

/// Begins so many tickets, of which each declares what is read of a key of its own, and says how
/// many began.
fn begin_all(alloc: Global, session: &mut LiveSession, count: u32) -> u32 {
    let mut begun = 0;
    for i in 0..count {
        let op = Op::new(Kind::Get, 0, Value::Num(i64::from(i)), Value::Nil);
        if begin(alloc, session, &op) == Some(u64::from(i)) && begun < i + 1 {
            begun += 1;
        }
    }
    begun
}

/// Puts a key with a ticket of its own, and says whether it was done.
fn put(alloc: Global, session: &mut LiveSession, key: i64) -> bool {
    let op = Op::new(Kind::Put, 0, Value::Num(key), Value::Num(1));
    match begin(alloc, session, &op) {
        Some(ticket) => {
            let called = session.call(ticket, op);
            let ended = session.end(ticket);
            called == Called::Done(Value::Nil) && ended.is_ok()
        }
        None => false,
    }
}

/// Puts so many keys, and says how many were put.
fn put_all(alloc: Global, session: &mut LiveSession, count: u32) -> u32 {
    let mut done = 0;
    for i in 0..count {
        if put(alloc, session, i64::from(i)) && done < i + 1 {
            done += 1;
        }
    }
    done
}

/// How many tickets began, how many are open then, and what a line is answered that writes the key
/// of the last one.
fn many_tickets(alloc: Global) -> Option<(u32, usize, Answered)> {
    let Ok(mut reply) = WriteBuffer::new(alloc) else {
        return None;
    };
    if !reply.reserve(264) {
        return None;
    }
    let Ok(mut session) = LiveSession::open(alloc, STORE.as_bytes(), 7, 100) else {
        return None;
    };
    let begun = begin_all(alloc, &mut session, 1000);
    let answered = session.request("store 999 1", &mut reply);
    Some((begun, session.tickets_open(), answered))
}

/// How many keys were put, how many the table has then, and what a line is answered that puts one
/// more.
fn many_keys(alloc: Global) -> Option<(u32, Option<u32>, Answered)> {
    let Ok(mut reply) = WriteBuffer::new(alloc) else {
        return None;
    };
    if !reply.reserve(264) {
        return None;
    }
    let Ok(mut session) = LiveSession::open(alloc, STORE.as_bytes(), 7, 100) else {
        return None;
    };
    let done = put_all(alloc, &mut session, 99_999);
    let answered = session.request("store 99999 1", &mut reply);
    Some((done, session.entries(0), answered))
}

#[test]
fn begins_a_thousand_tickets(rt: HostRuntime) -> Result<(), Fail> {
    let delayed = Answered::Delayed { older: 999 };
    assert_eq!(rt; many_tickets(rt.alloc()), Some((1000, 1000, delayed)));
    Ok(())
}

#[test]
fn holds_a_hundred_thousand_keys(rt: HostRuntime) -> Result<(), Fail> {
    let due = Some((99_999, Some(100_000), Answered::Served));
    assert_eq!(rt; many_keys(rt.alloc()), due);
    Ok(())
}
