// Session files that are served alone: the text is the one that a hall's callers write.

use crate::runs::{Input, ends_of, run_past};
use serve_single::{dump_alone, serve_alone};
use std::alloc::Global;
use std::sync::Wait;
use std::test::Fail;
use std::thread::Threads;
use worker_gate::OpenGate;

/// Handlers over tables that open with entries.
const SESSION: &str = "map m; set s; handler f(n) { let old = swap(m, n, 1); mark(s, n); \
    let c = size(m); reply old, c; }\n%% tables\nm a 3\ns 4\n%%\nf a\n";

/// How a session file ends that is served alone and by callers, and whether both write the same.
fn ends<R: Threads + Wait + Sync>(
    rt: &R,
    alloc: Global,
    command: &str,
    tables: bool,
    input: Input,
) -> Result<(u8, u8, bool), Fail> {
    let mut by_callers = ends_of(alloc, command, input, (&[], &[]))?;
    let mut own = ends_of(alloc, command, input, (&[], &[]))?;
    let (status, _) = run_past(rt, alloc, &mut by_callers, &OpenGate);
    let alone = if tables {
        dump_alone(alloc, &mut own.source, &mut own.out, &mut own.err)
    } else {
        serve_alone(alloc, &mut own.source, &mut own.out, &mut own.err)
    };
    let same = own.out.bytes() == by_callers.out.bytes()
        && own.err.bytes() == by_callers.err.bytes();
    Ok((alone.number(), status, same))
}

#[test]
fn alone_as_by_callers(rt: HostRuntime) -> Result<(), Fail> {
    let input = Input {
        first: SESSION,
        again: "f 5\n",
        times: 300,
    };
    let refused = Input {
        first: SESSION,
        again: "g 5\n",
        times: 1,
    };
    let serve = "serve --callers 4 --shards 3";
    let dump = "dump --callers 2";
    let found = [
        ends(&rt, rt.alloc(), serve, false, input)?,
        ends(&rt, rt.alloc(), dump, true, input)?,
        ends(&rt, rt.alloc(), serve, false, refused)?,
    ];
    assert_eq!(rt; found, [(0, 0, true), (0, 0, true), (1, 1, true)]);
    Ok(())
}
