// A sink fails while many serve.

use crate::serving::serve_past;
use serve_core::MemorySink;
use std::alloc::Global;
use std::sync::Wait;
use std::test::Fail;
use std::thread::Threads;
use worker_gate::OpenGate;

/// The first lines of the session.
const FRONT: &[u8] = b"0 5\n1 5\n2 5\n3 5\n4 5\n5 5\n6 5\n7 5\n8 5\n9 5\n10 5\n";

/// How 32 callers serve 100 tickets where the sink, which takes 3 bytes at a time, fails at this
/// call; and whether just the bytes before it were written.
fn failing_session<R: Threads + Wait + Sync>(
    rt: &R,
    alloc: Global,
    call: u32,
) -> Result<(u8, bool, bool), Fail> {
    let mut fails = Vec::new(alloc);
    fails.push(call)?;
    let mut out = MemorySink::with_room(alloc, 2000, 3, fails)?;
    let session = ("serve --callers 32", "w 0 5\n", 100);
    let (status, is_closed) = serve_past(rt, alloc, session, &mut out, &OpenGate)?;
    let bytes = out.bytes();
    Ok((status, is_closed, FRONT.starts_with(bytes)))
}

/// How many of the calls lead to a write fault, with all tickets served and a front written.
fn failing_sessions<R: Threads + Wait + Sync>(rt: &R, alloc: Global) -> Result<u32, Fail> {
    let mut found = 0u32;
    for call in 0..8 {
        if failing_session(rt, alloc, call)? == (5, true, true) {
            found = found.wrapping_add(1);
        }
    }
    Ok(found)
}

#[test]
fn all_is_served_past_a_fault(rt: HostRuntime) -> Result<(), Fail> {
    assert_eq!(rt; failing_sessions(&rt, rt.alloc())?, 8);
    Ok(())
}
