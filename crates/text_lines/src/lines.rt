// The lines of a text.

ghost use Rattle.std.specs.Prelude.{◌≡◌, ◌+◌, ◌≤◌, length};

use crate::line::Line;
use crate::scan::line_len;

/// All lines of a text, each with its number.
#[derive(Clone, Copy, Debug)]
pub struct Lines<'a> {
    rest: &'a str,
    number: u32,
    ghost room: { number + length rest.now ≤ 4294967295 },
}

impl<'a> Lines<'a> {
    /// The lines of a text whose first line has this number.
    pub fn over(text: &'a str, first: u32) -> Lines<'a>
        requires { first + length text.now ≤ 4294967295 }
        ensures rest { result.rest.now ≡ text.now }
        ensures number { result.number ≡ first }
    {
        Lines {
            rest: text,
            number: first,
        }
    }
}

impl<'a> Iterator for Lines<'a> {
    ghost use Rattle.std.specs.Prelude.{length};
    ghost use Rattle.std.specs.Iterator.{at_most};
    ghost use Rattle.text_lines.specs.Steps.{TakesLine};

    type Item = (u32, Line<'a>);

    ghost next_gives = { TakesLine };

    ghost remaining = { λ s. at_most (length s.rest.now) };

    fn next(&mut self) -> Option<(u32, Line<'a>)> {
        if self.rest.is_empty() {
            return None;
        }
        let (text, number) = (self.rest, self.number);
        let len = line_len(text.as_bytes());
        let (line, _) = text.split_at(len);
        // the last line needs no line feed
        let (_, next) = text.split_at((len + 1).min(text.len()));
        self.rest = next;
        self.number = number + 1;
        Some((number, Line { rest: line }))
    }
}
