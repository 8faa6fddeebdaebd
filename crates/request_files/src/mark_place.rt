// Where a mark stands.

ghost use Rattle.std.specs.Prelude.{◌≡◌, ◌≤◌, false, length};
ghost use Rattle.request_files.specs.Marks.{IsPlace, place, says};

use crate::mark::Mark;
use text_lines::line_len;

/// Where the first line that is a mark stands in a file.
#[derive(Clone, Copy, Debug)]
pub(crate) struct MarkPlace {
    /// Whether a line is the mark; else all stands before it.
    pub(crate) found: bool,
    /// How many bytes stand before it.
    pub(crate) front: usize,
    /// How many bytes stand before what is behind it.
    pub(crate) rest: usize,
    /// The number of the line behind it.
    pub(crate) next: u32,
}

/// The place in so many bytes without a mark, where the line behind it would have this number.
fn unmarked(len: usize, next: u32) -> MarkPlace
    ensures { result ≡ place false len len next }
{
    MarkPlace {
        found: false,
        front: len,
        rest: len,
        next,
    }
}

/// Where the first line that is the mark stands.
pub(crate) fn find_mark(bytes: &[u8], mark: Mark) -> MarkPlace
    requires { length bytes.now ≤ 67108864 }
    ensures { IsPlace (says mark) bytes.now result }
{
    let mut at = 0;
    let mut number: u32 = 1;
    'lines: while at < bytes.len() {
        let (_, rest) = bytes.split_at(at);
        let len = line_len(rest);
        let (line, _) = rest.split_at(len);
        if mark.is(line) {
            return MarkPlace {
                found: true,
                front: at,
                rest: (at + len + 1).min(bytes.len()),
                next: number + 1,
            };
        }
        if len == rest.len() {
            return unmarked(bytes.len(), number + 2);
        }
        at += len + 1;
        number += 1;
    }
    unmarked(bytes.len(), number + 1)
}
