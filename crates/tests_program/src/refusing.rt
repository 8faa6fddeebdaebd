// Runs of long inputs, and runs in which an end fails. Refused inputs are stored runs, in
// `checks/`.

use crate::runs::{End, Input, end_of, ends_of, wrote};
use serve_core::{MemorySink, Status, describe, ranges, tell};
use std::alloc::Global;
use std::sync::Wait;
use std::test::Fail;
use std::thread::Threads;

/// The ends of runs over one byte too many, over as many bytes as may be, and over one request too
/// many.
fn long_ends<R: Threads + Wait + Sync>(rt: &R, alloc: Global) -> Result<[End; 3], Fail> {
    let bytes = Input {
        first: "",
        again: "#",
        times: 4_194_305,
    };
    let most = Input {
        times: 4_194_304,
        ..bytes
    };
    let requests = Input {
        first: "handler nop() { }\n%%\n",
        again: "nop\n",
        times: 20_001,
    };
    let line = "refused Q4 line 20003\n";
    Ok([
        end_of(
            rt,
            alloc,
            ("serve", bytes),
            (&[], &[]),
            (b"", "refused T1\n"),
        )?,
        end_of(rt, alloc, ("check", most), (&[], &[]), (b"", ""))?,
        end_of(rt, alloc, ("serve", requests), (&[], &[]), (b"", line))?,
    ])
}

#[test]
fn long_inputs(rt: HostRuntime) -> Result<(), Fail> {
    let found = long_ends(&rt, rt.alloc())?;
    assert_eq!(rt;
        found,
        [(1, false, true), (0, false, true), (1, false, true)]
    );
    Ok(())
}

/// The end of a run that is given 64 bytes at a time, of which the second read fails; and of one
/// whose output is taken 4 bytes at a time and fails at the second.
fn failed_ends<R: Threads + Wait + Sync>(rt: &R, alloc: Global) -> Result<[End; 2], Fail> {
    let swaps = Input {
        first: "map seats; handler login(u, now) { let old = swap(seats, u, now); reply old; }\n%%\n",
        again: "login alice 5\n",
        times: 2,
    };
    let (read, written) = ("read fault\n", "write fault\n");
    Ok([
        end_of(rt, alloc, ("serve", swaps), (&[1], &[]), (b"", read))?,
        end_of(rt, alloc, ("serve", swaps), (&[], &[1]), (b"0 ni", written))?,
    ])
}

#[test]
fn failing_ends(rt: HostRuntime) -> Result<(), Fail> {
    let found = failed_ends(&rt, rt.alloc())?;
    assert_eq!(rt; found, [(4, false, true), (5, true, true)]);
    Ok(())
}

/// The status of describing a file, and whether its text was written.
fn described(alloc: Global, text: &str) -> Result<(u8, bool), Fail> {
    let input = Input {
        first: text,
        again: "",
        times: 0,
    };
    let mut ends = ends_of(alloc, "", input, (&[], &[]))?;
    let status = describe(alloc, false, &mut ends.source, &mut ends.out, &mut ends.err);
    Ok((status.number(), wrote(&ends, text.as_bytes(), "")))
}

#[test]
fn a_file_is_described(rt: HostRuntime) -> Result<(), Fail> {
    let found = described(
        rt.alloc(),
        "set online;\nhandler login(u) {\n  mark(online, u);\n}\n",
    )?;
    assert_eq!(rt; found, (0, true));
    Ok(())
}

/// The status of a range session, and whether its lines were written.
fn ranged(alloc: Global, lines: &str, text: &str) -> Result<(u8, bool), Fail> {
    let input = Input {
        first: lines,
        again: "",
        times: 0,
    };
    let mut ends = ends_of(alloc, "", input, (&[], &[]))?;
    let status = ranges(alloc, &mut ends.source, &mut ends.out, &mut ends.err);
    Ok((status.number(), wrote(&ends, text.as_bytes(), "")))
}

#[test]
fn a_range_session_is_answered(rt: HostRuntime) -> Result<(), Fail> {
    let lines = "hold put 1..3 any\ndo get 2\ndo get 4\n";
    let found = ranged(rt.alloc(), lines, "0 delayed 0 0\n1 nil\n")?;
    assert_eq!(rt; found, (0, true));
    Ok(())
}

/// The exit status for out of memory, and whether its line is written.
fn memory_is_told(alloc: Global) -> Result<(u8, bool), Fail> {
    let mut err = MemorySink::with_room(alloc, 100, 100, Vec::new(alloc))?;
    tell(&Status::NoMemory, &mut err);
    let is_told = err.bytes() == b"no memory\n".as_slice();
    Ok((Status::NoMemory.number(), is_told))
}

#[test]
fn want_of_memory(rt: HostRuntime) -> Result<(), Fail> {
    let found = memory_is_told(rt.alloc())?;
    assert_eq!(rt; found, (3, true));
    Ok(())
}
