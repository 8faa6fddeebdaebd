// Laws between runs of several callers. Sessions with their replies are stored runs, in `checks/`.

use crate::runs::{End, Ends, Input, ends_of, run_past};
use std::alloc::Global;
use std::sync::Wait;
use std::test::Fail;
use std::thread::Threads;
use worker_gate::OpenGate;

/// How two runs end, and whether they write the same.
fn both_ends<R: Threads + Wait + Sync>(
    rt: &R,
    alloc: Global,
    one: &mut Ends,
    two: &mut Ends,
) -> ((u8, bool), End) {
    let first = run_past(rt, alloc, one, &OpenGate);
    let (status, is_closed) = run_past(rt, alloc, two, &OpenGate);
    (
        first,
        (status, is_closed, one.out.bytes() == two.out.bytes()),
    )
}

/// How two commands end over 300 requests behind some handlers, and whether they write the same.
fn two_ends<R: Threads + Wait + Sync>(
    rt: &R,
    alloc: Global,
    (one, two): (&str, &str),
    first: &str,
) -> Result<((u8, bool), End), Fail> {
    let input = Input {
        first,
        again: "f 5\n",
        times: 300,
    };
    let mut one = ends_of(alloc, one, input, (&[], &[]))?;
    let mut two = ends_of(alloc, two, input, (&[], &[]))?;
    Ok(both_ends(rt, alloc, &mut one, &mut two))
}

/// Two made sessions of one number; then one and 32 callers over a session in which every two
/// tickets conflict, and over one in which no two do.
fn compared_runs<R: Threads + Wait + Sync>(
    rt: &R,
    alloc: Global,
) -> Result<[((u8, bool), End); 3], Fail> {
    let callers = ("serve --callers 1", "serve --callers 32 --shards 8");
    let conflicts =
        "map m; handler f(n) { let old = swap(m, 1, n); let c = size(m); reply old, c; }\n%%\n";
    let commutes = "set s; handler f(n) { mark(s, n); mark(s, 7); reply n; }\n%%\n";
    Ok([
        two_ends(rt, alloc, ("work 500 1", "work 500 1"), "")?,
        two_ends(rt, alloc, callers, conflicts)?,
        two_ends(rt, alloc, callers, commutes)?,
    ])
}

#[test]
fn runs_that_are_alike(rt: HostRuntime) -> Result<(), Fail> {
    let found = compared_runs(&rt, rt.alloc())?;
    assert_eq!(rt; found, [((0, true), (0, true, true)); 3]);
    Ok(())
}
