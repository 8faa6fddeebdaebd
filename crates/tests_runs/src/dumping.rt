// Opening tables, and dumps of the final ones.

use crate::runs::{ran, wrote};
use std::alloc::{AllocError, Global};
use std::sync::Wait;
use std::test::Fail;
use std::thread::Threads;
use worker_gate::OpenGate;

/// Handlers whose sessions are dumped.
const HANDLERS: &str = "map seats; set online;\n\
    handler login(who, seat) { let old = swap(seats, who, seat); mark(online, who); reply old; }\n\
    handler leave(who) { del(seats, who); drop(online, who); reply 0; }\n";

/// The end of a run over some parts of a file, and whether it wrote this.
fn run_over<R: Threads + Wait + Sync>(
    rt: &R,
    alloc: Global,
    command: &str,
    parts: &[&str],
    out: &[u8],
) -> Result<(u8, bool, bool), Fail> {
    let text = joined(alloc, parts)?;
    let ((status, served), ends) = ran(rt, alloc, (command, text.as_bytes()), &OpenGate)?;
    Ok((status, served.is_some(), wrote(&ends, out, "")))
}

/// Parts of a file, one after another.
fn joined(alloc: Global, parts: &[&str]) -> Result<String, AllocError> {
    let mut text = String::new(alloc);
    for part in parts {
        text.push_str(part)?;
    }
    Ok(text)
}

/// What the worked file writes.
fn worked_ends<R: Threads + Wait + Sync>(
    rt: &R,
    alloc: Global,
) -> Result<[(u8, bool, bool); 4], Fail> {
    let parts = [
        HANDLERS,
        "%% tables\nseats bob 3\nonline bob\n%%\nlogin alice 5\nlogin bob 9\n",
    ];
    let replies = b"0 nil\n1 3\n".as_slice();
    let tables = b"%% tables\nseats alice 5\nseats bob 9\nonline alice\nonline bob\n".as_slice();
    Ok([
        run_over(rt, alloc, "serve --callers 1 --shards 1", &parts, replies)?,
        run_over(rt, alloc, "serve --callers 4 --shards 8", &parts, replies)?,
        run_over(rt, alloc, "dump --callers 1 --shards 1", &parts, tables)?,
        run_over(rt, alloc, "dump --callers 4 --shards 8", &parts, tables)?,
    ])
}

#[test]
fn opened_tables_are_served_and_dumped(rt: HostRuntime) -> Result<(), Fail> {
    let found = worked_ends(&rt, rt.alloc())?;
    assert_eq!(rt; found, [(0, true, true); 4]);
    Ok(())
}

/// A dump in its order: nil, numbers by size, symbols by their texts, which first appear in another
/// order; a key that is bound to nil; and `007`, which is 7. Without requests it is what was read.
const ORDERED: &str = "%% tables\nseats nil nil\nseats -3 1\nseats 7 b\nseats a nil\n\
    seats b 7\nonline 7\nonline a\nonline b\n";

/// The same entries in another order, with numbers that are written otherwise.
const MIXED: &str = "%% tables\n\nonline b\nseats b 007\nseats a nil\nseats 007 b # a seat\n\
    online 007\nseats -3 1\nseats nil nil\nonline a\n";

fn ordered_ends<R: Threads + Wait + Sync>(
    rt: &R,
    alloc: Global,
) -> Result<[(u8, bool, bool); 3], Fail> {
    let dump = ORDERED.as_bytes();
    Ok([
        run_over(rt, alloc, "dump", &[HANDLERS, ORDERED, "%%\n"], dump)?,
        run_over(
            rt,
            alloc,
            "dump --shards 8",
            &[HANDLERS, MIXED, "%%\n"],
            dump,
        )?,
        run_over(rt, alloc, "dump", &[HANDLERS, "%%\n"], b"%% tables\n")?,
    ])
}

#[test]
fn a_dump_is_in_order_and_reads_back(rt: HostRuntime) -> Result<(), Fail> {
    let found = ordered_ends(&rt, rt.alloc())?;
    assert_eq!(rt; found, [(0, true, true); 3]);
    Ok(())
}
