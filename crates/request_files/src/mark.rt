// The marks of a session file.

ghost use Rattle.std.specs.Prelude.{◌≡◌};
ghost use Rattle.std.specs.List.{list_all};
ghost use Rattle.text_lines.specs.Bytes as classes;
ghost use Rattle.request_files.specs.Clients.{is_next_mark as is_next};
ghost use Rattle.request_files.specs.Divide as spec;
ghost use Rattle.request_files.specs.Marks.{says};
ghost use Rattle.request_files.specs.TracePart.{is_trace_mark as is_traces};

use text_lines::is_blank;

/// A line that parts a session file.
#[derive(Clone, Copy, Debug)]
pub(crate) enum Mark {
    /// The dividing line, `%%`.
    Dividing,
    /// The line behind which tables stand, `%% tables`.
    Tables,
    /// One of them.
    Any,
    /// The line behind which a trace stands, `%% trace`.
    Trace,
}

fn are_blanks(bytes: &[u8]) -> bool
    ensures { result ≡ list_all classes.is_blank bytes.now }
{
    bytes.iter().all(|b| is_blank(*b))
}

#[tactic(auto, unfolding(crate::specs::Divide::is_dividing))]
fn is_dividing(line: &[u8]) -> bool
    ensures { result ≡ spec.is_dividing line.now }
{
    if line.len() < 2 {
        return false;
    }
    let (mark, rest) = line.split_at(2);
    if mark != b"%%".as_slice() {
        return false;
    }
    are_blanks(rest)
}

#[tactic(auto, unfolding(crate::specs::Divide::is_table_mark))]
fn is_table_mark(line: &[u8]) -> bool
    ensures { result ≡ spec.is_table_mark line.now }
{
    if line.len() < 9 {
        return false;
    }
    let (mark, rest) = line.split_at(9);
    if mark != b"%% tables".as_slice() {
        return false;
    }
    are_blanks(rest)
}

#[tactic(auto, unfolding(crate::specs::TracePart::is_trace_mark))]
fn is_trace_mark(line: &[u8]) -> bool
    ensures { result ≡ is_traces line.now }
{
    if line.len() < 8 {
        return false;
    }
    let (mark, rest) = line.split_at(8);
    if mark != b"%% trace".as_slice() {
        return false;
    }
    are_blanks(rest)
}

/// Whether the next client's requests begin behind a line.
#[tactic(auto, unfolding(crate::specs::Clients::is_next_mark))]
pub(crate) fn is_next_mark(line: &[u8]) -> bool
    ensures { result ≡ is_next line.now }
{
    if line.len() < 7 {
        return false;
    }
    let (mark, rest) = line.split_at(7);
    if mark != b"%% next".as_slice() {
        return false;
    }
    are_blanks(rest)
}

impl Mark {
    /// Whether a line is the mark.
    pub(crate) fn is(self, line: &[u8]) -> bool
        ensures { result ≡ says self line.now }
    {
        match self {
            Mark::Dividing => is_dividing(line),
            Mark::Tables => is_table_mark(line),
            Mark::Any => is_dividing(line) || is_table_mark(line),
            Mark::Trace => is_trace_mark(line),
        }
    }
}
