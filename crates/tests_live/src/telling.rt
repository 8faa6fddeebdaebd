// What a session tells of what it holds.

use byte_ends::WriteBuffer;
use live_session::LiveSession;
use std::alloc::Global;
use std::test::Fail;
use symbolic_ops::Foresight;

/// Handlers over a map and a set that open with an entry each. There are six names.
const TABLES: &str = "map m; set s; handler f(k) { let v = get(m, k); reply v; }\n\
    %% tables\nm 1 a\ns 4\n%%\n";

/// What a session tells of its names and tables, and of its tickets when one has begun behind a
/// request.
fn told(alloc: Global) -> Option<([u64; 5], [Option<u32>; 3], Option<u64>, bool)> {
    let Ok(mut reply) = WriteBuffer::new(alloc) else {
        return None;
    };
    if !reply.reserve(264) {
        return None;
    }
    let Ok(mut session) = LiveSession::open(alloc, TABLES.as_bytes(), 7, 100) else {
        return None;
    };
    let _served = session.request("f b", &mut reply);
    let Ok(list) = Foresight::with_room(alloc, 1) else {
        return None;
    };
    let _ticket = session.begin(list);
    let counts = [
        u64::from(session.names_held()),
        u64::from(session.most_names()),
        session.tables() as u64,
        session.tickets_begun(),
        session.tickets_open() as u64,
    ];
    let entries = [session.entries(0), session.entries(1), session.entries(2)];
    let declared = match session.declared(1) {
        Some(list) => list.is_empty(),
        None => false,
    };
    let oldest = session.oldest_ticket();
    Some((
        counts,
        entries,
        oldest,
        declared && session.declared(0).is_none(),
    ))
}

#[test]
fn tells_what_it_holds(rt: HostRuntime) -> Result<(), Fail> {
    let counts = [7, 100, 2, 2, 1];
    let entries = [Some(1), Some(1), None];
    assert_eq!(rt; told(rt.alloc()), Some((counts, entries, Some(1), true)));
    Ok(())
}
