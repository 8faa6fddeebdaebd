// The words of a line.

ghost use Rattle.std.specs.Prelude.{◌≤◌, length};

use crate::scan::{blanks_len, word_len};
use crate::word_value::{leading_number, value};
use session_values::{Names, NoMemory, Value};

/// The words of a line that stand before its comment, as slices of the line.
#[derive(Clone, Copy, Debug)]
pub struct Line<'a> {
    pub(crate) rest: &'a str,
    ghost short: { length rest.now ≤ 4294967295 },
}

impl<'a> Iterator for Line<'a> {
    ghost use Rattle.std.specs.Prelude.{length};
    ghost use Rattle.std.specs.Iterator.{at_most};
    ghost use Rattle.text_lines.specs.Steps.{TakesWord};

    type Item = &'a str;

    ghost next_gives = { TakesWord };

    ghost remaining = { λ s. at_most (length s.rest.now) };

    fn next(&mut self) -> Option<&'a str> {
        let (_, rest) = self.rest.split_at(blanks_len(self.rest.as_bytes()));
        let (word, after) = rest.split_at(word_len(rest.as_bytes()));
        if word.is_empty() {
            return None;
        }
        self.rest = after;
        Some(word)
    }
}

impl<'a> Line<'a> {
    ghost use Rattle.std.specs.Prelude.{◌≡◌, ◌<◌, drop, length};
    ghost use Rattle.std.specs.List.{prefix_len};
    ghost use Rattle.text_lines.specs.Bytes.{is_blank};
    ghost use Rattle.text_lines.specs.Steps.{TakesValue};
    ghost use Rattle.text_lines.specs.Text.{is_word_byte, words};

    /// Takes the next word of the line, if one is left, and returns its value, or `None` inside if
    /// it isn't one: `next` and `value` in one, which reads a number of a few digits in one pass.
    #[inline]
    pub fn next_value(&mut self, names: &mut Names) -> Result<Option<Option<Value>>, NoMemory>
        requires { 0 < length (words self.old.rest.now) → length names.old < 4294967295 }
        ensures steps { TakesValue self.old names.old result self.new names.new }
    {
        let (_, rest) = self.rest.split_at(blanks_len(self.rest.as_bytes()));
        let Some((number, len)) = leading_number(rest.as_bytes()) else {
            return self.front_value(rest, names);
        };
        if len == 0 {
            return Ok(None);
        }
        let (_, after) = rest.split_at(len);
        self.rest = after;
        Ok(Some(Some(Value::Num(number as i64))))
    }

    /// Takes the word that `rest` begins with, which is the line behind its blanks, and returns the
    /// word's value, or `None` inside if it isn't one.
    fn front_value(
        &mut self,
        rest: &'a str,
        names: &mut Names,
    ) -> Result<Option<Option<Value>>, NoMemory>
        requires blanks { rest.now
            ≡ drop (prefix_len is_blank self.old.rest.now) self.old.rest.now }
        requires word { 0 < prefix_len is_word_byte rest.now }
        requires names { length names.old < 4294967295 }
        ensures steps { TakesValue self.old names.old result self.new names.new }
    {
        let (word, after) = rest.split_at(word_len(rest.as_bytes()));
        self.rest = after;
        Ok(Some(value(word, names)?))
    }
}
