// Broken input, and ends that fail at each of their calls in turn.

use crate::runs::{Moves, WHOLE, ends_over, ran, run_past, wrote};
use std::alloc::Global;
use std::sync::Wait;
use std::test::Fail;
use std::thread::Threads;
use worker_gate::OpenGate;

/// Handlers of sign-ins, in 172 bytes, and three requests behind them, in 44.
const SESSION: &[u8] =
    b"map seats;\nset online;\nhandler login(u, now) {\n  let old = swap(seats, u, now);\n  mark(online, u);\n  reply old;\n}\nhandler logout(u) {\n  del(seats, u);\n  drop(online, u);\n}\n%%\nlogin alice 5\nlogin alice 9\nlogout alice\n";

/// What these are replied, in 16 bytes.
const REPLIES: &[u8] = b"0 nil\n1 5\n2 nil\n";

/// After how many of its first bytes the handlers of a session are whole.
const FINE: [usize; 9] = [0, 10, 11, 22, 23, 113, 114, 171, 172];

/// Whether `check` of the first bytes ends as it should: well where the handlers are whole, else
/// with a refusal of the grammar.
fn is_fine_or_refused<R: Threads + Wait + Sync>(
    rt: &R,
    alloc: Global,
    count: usize,
) -> Result<bool, Fail> {
    let front = SESSION.get(..count).unwrap_or(SESSION);
    let ((status, _), ends) = ran(rt, alloc, ("check", front), &OpenGate)?;
    if FINE.contains(&count) {
        return Ok(status == 0);
    }
    let refused = b"refused S2 at ".as_slice();
    Ok(status == 1 && ends.out.bytes().is_empty() && ends.err.bytes().starts_with(refused))
}

/// How many fronts of the handlers are checked as they should be.
fn fronts<R: Threads + Wait + Sync>(rt: &R, alloc: Global) -> Result<u32, Fail> {
    let mut found = 0u32;
    for count in 0..=172 {
        if is_fine_or_refused(rt, alloc, count)? {
            found = found.wrapping_add(1);
        }
    }
    Ok(found)
}

#[test]
fn fronts_of_handlers(rt: HostRuntime) -> Result<(), Fail> {
    assert_eq!(rt; fronts(&rt, rt.alloc())?, 173);
    Ok(())
}

/// Whether serving ends with this status, having written so many bytes of the replies and this on
/// the error output.
fn serves<R: Threads + Wait + Sync>(
    rt: &R,
    alloc: Global,
    (reads, writes): (Moves, Moves),
    (status, count, err): (u8, usize, &str),
) -> Result<bool, Fail> {
    let mut ends = ends_over(alloc, "serve", SESSION, (reads, writes, WHOLE))?;
    let (ended, _) = run_past(rt, alloc, &mut ends, &OpenGate);
    let front = REPLIES.get(..count).unwrap_or(REPLIES);
    Ok(ended == status && wrote(&ends, front, err))
}

/// How many runs end as they should in which the source gives 16 bytes at a time and one of its
/// first 15 calls fails; and whether a 16th call is never made.
fn failing_reads<R: Threads + Wait + Sync>(rt: &R, alloc: Global) -> Result<(u32, bool), Fail> {
    let mut found = 0u32;
    for call in 0..15 {
        let reads = (16, Some(call));
        if serves(rt, alloc, (reads, WHOLE), (4, 0, "read fault\n"))? {
            found = found.wrapping_add(1);
        }
    }
    let never = serves(rt, alloc, ((16, Some(15)), WHOLE), (0, 16, ""))?;
    Ok((found, never))
}

#[test]
fn each_read_fails(rt: HostRuntime) -> Result<(), Fail> {
    assert_eq!(rt; failing_reads(&rt, rt.alloc())?, (15, true));
    Ok(())
}

/// How many runs end as they should in which the output takes a byte at a time and one of its first
/// 16 calls fails: with the bytes before it. And whether a 17th call is never made.
fn failing_writes<R: Threads + Wait + Sync>(rt: &R, alloc: Global) -> Result<(u32, bool), Fail> {
    let mut found = 0u32;
    for call in 0..16 {
        let writes = (1, Some(call));
        let want = (5, call as usize, "write fault\n");
        if serves(rt, alloc, (WHOLE, writes), want)? {
            found = found.wrapping_add(1);
        }
    }
    let never = serves(rt, alloc, (WHOLE, (1, Some(16))), (0, 16, ""))?;
    Ok((found, never))
}

#[test]
fn each_write_fails(rt: HostRuntime) -> Result<(), Fail> {
    assert_eq!(rt; failing_writes(&rt, rt.alloc())?, (16, true));
    Ok(())
}

/// The status of a run whose error output fails at its first call, and whether nothing was written.
fn untold<R: Threads + Wait + Sync>(
    rt: &R,
    alloc: Global,
    command: &str,
    bytes: &[u8],
) -> Result<(u8, bool), Fail> {
    let moves = (WHOLE, WHOLE, (1000, Some(0)));
    let mut ends = ends_over(alloc, command, bytes, moves)?;
    let (status, _) = run_past(rt, alloc, &mut ends, &OpenGate);
    Ok((status, wrote(&ends, b"", "")))
}

/// Runs that are refused at a request, and one whose words are no command.
fn untold_runs<R: Threads + Wait + Sync>(rt: &R, alloc: Global) -> Result<[(u8, bool); 4], Fail> {
    let handler = b"handler f(a) {\n}\n%%\n";
    let mut runs = [(0, false); 4];
    let lines: [&[u8]; 3] = [b"enter alice\n", b"f\n", b"f 5x\n"];
    for i in 0..3 {
        let mut bytes = handler.to_vec(alloc)?;
        bytes.extend_from_slice(lines[i])?;
        runs[i] = untold(rt, alloc, "serve", bytes.as_slice())?;
    }
    runs[3] = untold(rt, alloc, "serve --callers 33", b"")?;
    Ok(runs)
}

/// An error output that fails changes no status.
#[test]
fn an_untold_refusal_stays_one(rt: HostRuntime) -> Result<(), Fail> {
    let refused = (1, true);
    let want = [refused, refused, refused, (2, true)];
    assert_eq!(rt; untold_runs(&rt, rt.alloc())?, want);
    Ok(())
}
