// The lines of a text, and their words.

ghost use Rattle.std.specs.Prelude.{◌≡◌, ◌-◌, ◌<◌, ◌≤◌, ◌∷◌, [], MatchOption, true, drop, length};
ghost use Rattle.std.specs.List.{list_all};
ghost use Rattle.text_lines.specs.Text.{is_line_byte, lines as lines_of, words as words_of};

use text_lines::{Line, Lines, line_len};

/// The first line of a text, and what stands behind its line feed.
pub(crate) fn first_line(text: &str) -> (&str, &str)
    requires { 0 < length text.now }
    ensures lines { lines_of text.now ≡ result.0.now ∷ lines_of result.1.now }
    ensures line { list_all is_line_byte result.0.now ≡ true }
    ensures short { length result.0.now ≤ length text.now }
    ensures left { length result.1.now < length text.now }
    ensures back { result.1.now ≡ drop (length text.now - length result.1.now) text.now }
{
    let len = line_len(text.as_bytes());
    let (line, _) = text.split_at(len);
    // the last line needs no line feed
    let (_, next) = text.split_at((len + 1).min(text.len()));
    (line, next)
}

/// The words of a request's line.
#[derive(Clone, Copy)]
pub(crate) struct RequestWords<'a> {
    /// The first, which names a handler.
    pub(crate) name: &'a str,
    /// Those behind it.
    pub(crate) arguments: Line<'a>,
}

/// The words of a line, where it has some.
pub(crate) fn request_words(line: &str) -> Option<RequestWords<'_>>
    requires line { list_all is_line_byte line.now ≡ true }
    requires short { length line.now ≤ 4294967295 }
    ensures { MatchOption result (words_of line.now ≡ [])
        (λ w. words_of line.now ≡ w.name.now ∷ words_of w.arguments.rest.now) }
{
    let mut lines = Lines::over(line, 0);
    let Some((_, mut arguments)) = lines.next() else {
        return None;
    };
    let Some(name) = arguments.next() else {
        return None;
    };
    Some(RequestWords { name, arguments })
}
