// The trace part of a session file.

ghost use Rattle.std.specs.Prelude.{◌≡◌, ◌≤◌, MatchOption, IfSome, IsUtf8, IsCharBoundary, length, false, true};
ghost use Rattle.request_files.specs.TracePart.{IsTracePlace, has_trace};

use crate::mark::Mark;
use crate::mark_place::find_mark;

/// Where the trace part of a session file stands.
#[derive(Clone, Copy, Debug)]
pub struct TracePlace {
    /// How many bytes stand before the line `%% trace`.
    pub front: usize,
    /// How many bytes stand before what is behind that line.
    pub rest: usize,
    /// The number in the file of the first line behind it.
    pub line: u32,
}

/// Where the trace part stands: it begins at the first line behind the dividing line that is
/// `%% trace`. `None` where there is no such line. The bytes may be cut at both places where they
/// are UTF-8.
pub fn find_trace(bytes: &[u8]) -> Option<TracePlace>
    requires { length bytes.now ≤ 67108864 }
    ensures place { MatchOption result (has_trace bytes.now ≡ false) (IsTracePlace bytes.now) }
    ensures found { IfSome result (λ _. has_trace bytes.now ≡ true) }
    ensures edges { IfSome result (λ p. IsUtf8 bytes.now → IsCharBoundary bytes.now p.front
        × IsCharBoundary bytes.now p.rest) }
{
    let division = find_mark(bytes, Mark::Dividing);
    let (_, rest) = bytes.split_at(division.rest);
    let trace = find_mark(rest, Mark::Trace);
    if !trace.found {
        return None;
    }
    Some(TracePlace {
        front: division.rest + trace.front,
        rest: division.rest + trace.rest,
        line: division.next + (trace.next - 1),
    })
}
