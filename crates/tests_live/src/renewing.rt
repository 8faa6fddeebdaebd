// Names that are renewed.

use byte_ends::{MemorySink, WriteBuffer};
use live_session::{LiveSession, RenewError};
use std::alloc::Global;
use std::test::Fail;
use symbolic_ops::Foresight;

/// Handlers over a map that opens with an entry. There are nine names, seven of the handlers.
const STORE: &str = "map m; handler keep(k, v) { put(m, k, v); reply k; } \
    handler lose(k) { del(m, k); reply k; } handler find(k) { let w = get(m, k); reply w; }\n\
    %% tables\nm a b\n%%\n";

/// How many names a session holds and how often they were renewed, before and after a renewal behind
/// these lines; what it answers while a ticket is open; and whether these are the tables.
fn renewed(
    alloc: Global,
    lines: &str,
    tables: &str,
) -> Option<([u64; 4], Result<(), RenewError>, bool)> {
    let Ok(mut replies) = WriteBuffer::new(alloc) else {
        return None;
    };
    let Ok(mut session) = LiveSession::open(alloc, STORE.as_bytes(), 7, 100) else {
        return None;
    };
    let _batch = session.serve(lines, 60_000, &mut replies);
    let before = session.names_held();
    let Ok(list) = Foresight::with_room(alloc, 1) else {
        return None;
    };
    let Ok(ticket) = session.begin(list) else {
        return None;
    };
    let open = session.renew();
    let _ended = session.end(ticket);
    let first = session.generation();
    if session.renew().is_err() {
        return None;
    }
    let Ok(mut out) = MemorySink::with_room(alloc, 1000, 7, Vec::new(alloc)) else {
        return None;
    };
    let _dumped = session.dump(&mut out);
    let counts = [
        u64::from(before),
        u64::from(session.names_held()),
        first,
        session.generation(),
    ];
    Some((counts, open, out.bytes() == tables.as_bytes()))
}

/// What a session replies to a line behind others and a renewal.
fn replied(alloc: Global, lines: &str, line: &str) -> Option<WriteBuffer> {
    let Ok(mut replies) = WriteBuffer::new(alloc) else {
        return None;
    };
    let Ok(mut session) = LiveSession::open(alloc, STORE.as_bytes(), 7, 100) else {
        return None;
    };
    let _batch = session.serve(lines, 60_000, &mut replies);
    if session.renew().is_err() {
        return None;
    }
    replies.clear();
    let _served = session.serve(line, 60_000, &mut replies);
    Some(replies)
}

/// Whether these are the replies.
fn is_replied(alloc: Global, lines: &str, line: &str, due: &str) -> bool {
    match replied(alloc, lines, line) {
        Some(given) => given.bytes() == due.as_bytes(),
        None => false,
    }
}

#[test]
fn renews_names(rt: HostRuntime) -> Result<(), Fail> {
    let lines = "keep c d\nlose a\nfind z\nkeep 5 c\n";
    let tables = "%% tables\nm 5 c\nm c d\n";
    let told = renewed(rt.alloc(), lines, tables);
    assert_eq!(rt; told, Some(([12, 9, 0, 1], Err(RenewError::Open), true)));
    let none = renewed(rt.alloc(), "lose a\n", "%% tables\n");
    assert_eq!(rt; none, Some(([9, 7, 0, 1], Err(RenewError::Open), true)));
    let asked = "find 5\nfind c\nfind a\n";
    assert!(rt; is_replied(rt.alloc(), lines, asked, "c\nd\nnil\n"));
    Ok(())
}
