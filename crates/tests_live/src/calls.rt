// Calls over a session that is opened and let go in each, so that tests own none.

use byte_ends::{MemorySink, WriteBuffer};
use live_session::{Answered, Batch, Dumped, LiveSession, OpenError};
use std::alloc::Global;

/// What a session over a text replies to lines, in at most so many bytes, after the lines before
/// them; and how far it came with them.
pub(crate) fn served(
    alloc: Global,
    text: &str,
    before: &str,
    lines: &str,
    most: usize,
) -> Option<(WriteBuffer, Batch)> {
    let Ok(mut replies) = WriteBuffer::new(alloc) else {
        return None;
    };
    match LiveSession::open(alloc, text.as_bytes(), 7, 100) {
        Ok(mut session) => {
            let _before = session.serve(before, 10_000, &mut replies);
            replies.clear();
            let batch = session.serve(lines, most, &mut replies);
            session.answered_as_served();
            Some((replies, batch))
        }
        Err(_) => None,
    }
}

/// The tables of a session over a text, once it served lines.
pub(crate) fn dumped(alloc: Global, text: &str, lines: &str) -> Option<MemorySink> {
    let Ok(mut out) = MemorySink::with_room(alloc, 1000, 7, Vec::new(alloc)) else {
        return None;
    };
    let Ok(mut replies) = WriteBuffer::new(alloc) else {
        return None;
    };
    match LiveSession::open(alloc, text.as_bytes(), 7, 100) {
        Ok(mut session) => {
            let _served = session.serve(lines, 10_000, &mut replies);
            match session.dump(&mut out) {
                Dumped::Written => Some(out),
                Dumped::Failed | Dumped::NoMemory => None,
            }
        }
        Err(_) => None,
    }
}

/// What a session over a text, which may have so many names, answers one line, and its reply.
pub(crate) fn answered(
    alloc: Global,
    text: &str,
    most_names: u32,
    line: &str,
) -> Option<(WriteBuffer, Answered)> {
    let Ok(mut reply) = WriteBuffer::new(alloc) else {
        return None;
    };
    if !reply.reserve(264) {
        return None;
    }
    match LiveSession::open(alloc, text.as_bytes(), 7, most_names) {
        Ok(mut session) => {
            let answer = session.request(line, &mut reply);
            Some((reply, answer))
        }
        Err(_) => None,
    }
}

/// A word for what comes of opening a session over a text, which may have so many names.
pub(crate) fn opened(alloc: Global, text: &str, most_names: u32) -> &'static str {
    match LiveSession::open(alloc, text.as_bytes(), 7, most_names) {
        Ok(_) => "opened",
        Err(OpenError::Refused(_)) => "refused",
        Err(OpenError::HasRequests) => "has requests",
        Err(OpenError::TooManyNames) => "too many names",
        Err(OpenError::NoMemory) => "no memory",
    }
}
