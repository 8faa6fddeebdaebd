// The refusal's line among the lines of an input.

ghost use Rattle.std.specs.Prelude.{◌≡◌, ◌≤◌, drop, length};
ghost use Rattle.foresight_where.specs.Chosen.{back_of, front_of, refusal_line};
ghost use Rattle.foresight_where.specs.Chosen as spec;
ghost use Rattle.foresight_where.specs.Endings.{most};

use refusal_places::refusal_of;
use text_lines::line_len;

/// An input, cut at its first line that is a refusal's.
#[derive(Clone, Copy, Debug)]
pub(crate) struct Cut<'a> {
    /// The lines before it, with their line feeds; all where there is no such line.
    pub(crate) front: &'a [u8],
    /// The line without its line feed; nothing where there is none.
    pub(crate) line: &'a [u8],
    /// What stands behind its line feed.
    pub(crate) back: &'a [u8],
}

/// Whether a line is a refusal's.
#[tactic(auto, unfolding(crate::specs::Chosen::is_refusal))]
fn is_refusal(line: &[u8]) -> bool
    requires { length line.now ≤ most }
    ensures { result ≡ spec.is_refusal line.now }
{
    let Ok(text) = std::str::from_utf8(line) else {
        return false;
    };
    match refusal_of(text) {
        Some(_) => true,
        None => false,
    }
}

/// What stands behind the line feed at the front of these bytes.
fn behind_feed(bytes: &[u8]) -> &[u8]
    ensures { result.now ≡ drop 1 bytes.now }
{
    if bytes.is_empty() { bytes } else { &bytes[1..] }
}

/// The input, cut at its first line that is a refusal's.
pub(crate) fn cut_input(input: &[u8]) -> Cut<'_>
    requires { length input.now ≤ most }
    ensures front { result.front.now ≡ front_of input.now }
    ensures line { result.line.now ≡ refusal_line input.now }
    ensures back { result.back.now ≡ back_of input.now }
    ensures short { length result.line.now ≤ most }
{
    let mut at = 0;
    'lines: while at < input.len() {
        let (front, rest) = input.split_at(at);
        let len = line_len(rest);
        let (line, after) = rest.split_at(len);
        if is_refusal(line) {
            let back = behind_feed(after);
            return Cut { front, line, back };
        }
        at += len + 1;
    }
    Cut {
        front: input,
        line: &[],
        back: &[],
    }
}
