// The parts of a session file.

ghost use Rattle.std.specs.Prelude.{◌≡◌, ◌+◌, ◌≤◌, MatchOption, length, false};
ghost use Rattle.std.specs.List.{list_any};
ghost use Rattle.session_values.specs.Limits.{max_input};
ghost use Rattle.text_lines.specs.Text.{lines};
ghost use Rattle.request_files.specs.Divide as spec;

use crate::halves::split_at_mark;
use crate::mark::Mark;

/// The parts of a file that has a dividing line. They are no longer than an input may be, and so
/// early in it that their lines have numbers of 32 bits.
#[derive(Clone, Copy, Debug)]
pub struct Divided<'a> {
    /// What stands before the dividing line, or before the table part where there is one, with the
    /// line feed of its last line.
    pub handlers: &'a str,
    /// What stands between the line `%% tables` and the dividing line: nothing where no such line
    /// is.
    pub tables: &'a str,
    /// What stands behind the dividing line.
    pub requests: &'a str,
    /// The number in the file of the first line of the tables; without a table part, of a line
    /// behind the handlers.
    pub first_table: u32,
    /// The number in the file of the first line of the requests.
    pub first: u32,
    ghost handlers_short: { length handlers.now ≤ max_input },
    ghost tables_short: { length tables.now ≤ max_input },
    ghost requests_short: { length requests.now ≤ max_input },
    ghost first_table_early: { first_table ≤ max_input + 2 },
    ghost first_early: { first ≤ max_input + 2 },
}

/// The parts around the first line that is `%%`, or `None` where no line is. The table part begins
/// at the first line before it that is `%% tables`.
pub fn divide(text: &str) -> Option<Divided<'_>>
    requires { length text.now ≤ max_input }
    ensures { MatchOption result (list_any spec.is_dividing (lines text.now) ≡ false)
        (λ d. spec.Divides text.now d.handlers.now d.tables.now d.requests.now d.first_table
        d.first) }
{
    let whole = split_at_mark(text, Mark::Dividing);
    if !whole.found {
        return None;
    }
    let front = split_at_mark(whole.head, Mark::Tables);
    Some(Divided {
        handlers: front.head,
        tables: front.tail,
        requests: whole.tail,
        first_table: front.next,
        first: whole.next,
    })
}

/// Whether some line is `%%` or `%% tables`.
pub fn has_mark(text: &str) -> bool
    requires { length text.now ≤ max_input }
    ensures { result ≡ list_any spec.is_mark (lines text.now) }
{
    split_at_mark(text, Mark::Any).found
}
