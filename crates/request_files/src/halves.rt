// What stands before a mark and behind it.

ghost use Rattle.std.specs.Prelude.{◌≡◌, ◌+◌, ◌≤◌, length};
ghost use Rattle.std.specs.List.{list_any};
ghost use Rattle.session_values.specs.Limits.{max_input};
ghost use Rattle.text_lines.specs.Text.{lines};
ghost use Rattle.request_files.specs.Divide as spec;
ghost use Rattle.request_files.specs.Marks.{says};

use crate::mark::Mark;
use crate::mark_place::find_mark;

/// What stands before a mark and behind it.
#[derive(Clone, Copy, Debug)]
pub(crate) struct Halves<'a> {
    /// Whether a line is the mark; else all stands before it.
    pub(crate) found: bool,
    pub(crate) head: &'a str,
    pub(crate) tail: &'a str,
    /// The number of the line behind the mark.
    pub(crate) next: u32,
}

/// What stands before the first line that is the mark, and behind it.
pub(crate) fn split_at_mark(text: &str, mark: Mark) -> Halves<'_>
    requires { length text.now ≤ max_input }
    ensures found { result.found ≡ list_any (says mark) (lines text.now) }
    ensures head { result.head.now ≡ spec.before (says mark) text.now }
    ensures tail { result.tail.now ≡ spec.behind (says mark) text.now }
    ensures next { result.next ≡ spec.line_behind (says mark) text.now }
    ensures within { length result.head.now ≤ max_input }
    ensures tail_within { length result.tail.now ≤ max_input }
    ensures early { result.next ≤ max_input + 2 }
{
    let place = find_mark(text.as_bytes(), mark);
    let (head, _) = text.split_at(place.front);
    let (_, tail) = text.split_at(place.rest);
    Halves {
        found: place.found,
        head,
        tail,
        next: place.next,
    }
}
