// Audits over memory.

use serve_core::{MemorySink, MemorySource, audit};
use std::alloc::{AllocError, Global};
use std::test::Fail;

/// A session file of one request.
const SESSION: &str = "map a; handler w(k, v) { put(a, k, v); reply v; }\n%%\nw 0 5\n";

/// The trace of its run.
const TRACE: &str = "%% trace\nbegin 0 0\ndone 0 put a 0 5 nil\nend 0 5\n";

/// A piece of a comment.
const PIECE: &str = "################################################################";

/// The session file, a comment that makes it so many bytes long, and the trace.
fn file_of(alloc: Global, front: u32) -> Result<Vec<u8>, AllocError> {
    let mut text = String::from_str(alloc, SESSION)?;
    let comment = front.saturating_sub(SESSION.len() as u32 + 1);
    for _ in 0..comment / 64 {
        text.push_str(PIECE)?;
    }
    for _ in 0..comment % 64 {
        text.push_str("#")?;
    }
    text.push_str("\n")?;
    text.push_str(TRACE)?;
    Ok(text.into_bytes())
}

/// How an audit of such a file ends, of whose reads and writes these fail, and whether this was
/// written.
fn end_of(
    alloc: Global,
    front: u32,
    (reads, writes): (&[u32], &[u32]),
    (out, err): (&str, &str),
) -> Result<(u8, bool), Fail> {
    let bytes = file_of(alloc, front)?;
    let mut source = MemorySource::new(bytes, 65_536, reads.to_vec(alloc)?);
    let mut written = MemorySink::with_room(alloc, 1000, 4, writes.to_vec(alloc)?)?;
    let mut told = MemorySink::with_room(alloc, 1000, 100, Vec::new(alloc))?;
    let status = audit(alloc, &mut source, &mut written, &mut told);
    let is_right = written.bytes() == out.as_bytes() && told.bytes() == err.as_bytes();
    Ok((status.number(), is_right))
}

/// The ends over a front of as many bytes as may be and of one more, of a source that fails, and of
/// an output that fails at its second write.
fn ends(alloc: Global) -> Result<[(u8, bool); 4], Fail> {
    Ok([
        end_of(alloc, 4_194_304, (&[], &[]), ("accepted 3\n", ""))?,
        end_of(alloc, 4_194_305, (&[], &[]), ("", "refused T1\n"))?,
        end_of(alloc, 100, (&[0], &[]), ("", "read fault\n"))?,
        end_of(alloc, 100, (&[], &[1]), ("acce", "write fault\n"))?,
    ])
}

#[test]
fn audits_at_their_bound_and_with_ends_that_fail(rt: HostRuntime) -> Result<(), Fail> {
    let found = ends(rt.alloc())?;
    assert_eq!(rt; found, [(0, true), (1, true), (4, true), (5, true)]);
    Ok(())
}
