// The words of a line behind its first, with the places of their symbols.

ghost use Rattle.std.specs.Prelude.{◌≡◌, ◌+◌, ◌<◌, ◌≤◌, length, slice_get, vec_capacity, IfOk, IfSome, OnOk, OnErr, Some};
ghost use Rattle.std.specs.List.{AllByRecursion};
ghost use Rattle.session_values.specs.Names.{Begins};
ghost use Rattle.text_lines.specs.Text.{words as words_of};
ghost use Rattle.trace_lines.specs.EventRows as spec;
ghost use Rattle.trace_lines.specs.Placing.{IsPlaced, max_words, place_if_symbol, texts};

use session_values::{Names, NoMemory};
use text_lines::{Line, is_symbol};

/// More words than stand behind the first of an event.
pub(crate) const MAX_WORDS: usize = 11;

/// A word, with the place of its symbol if it is the literal of one.
#[derive(Clone, Copy)]
pub(crate) struct Word<'a> {
    pub(crate) text: &'a str,
    pub(crate) place: Option<u32>,
}

/// Places what stands behind a quote, if it is a symbol's text.
fn place_symbol(text: &str, names: &mut Names) -> Result<Option<u32>, NoMemory>
    requires { length names.old < 4294967295 }
    ensures place { IfOk result (λ place. place ≡ place_if_symbol names.new text.now) }
    ensures there { IfOk result (λ place. IfSome place (λ p.
        slice_get names.new p ≡ Some text.now)) }
    ensures names { OnOk result (names.new ≡ spec.placed_symbol names.old text.now) }
    ensures err { OnErr result (names.new ≡ names.old) }
{
    if is_symbol(text) {
        Ok(Some(names.place(text)?))
    } else {
        Ok(None)
    }
}

/// The word, whose symbol is placed if it is the literal of one.
fn placed<'a>(text: &'a str, names: &mut Names) -> Result<Word<'a>, NoMemory>
    requires { length names.old < 4294967295 }
    ensures text { IfOk result (λ word. word.text.now ≡ text.now) }
    ensures placed { IfOk result (IsPlaced names.new) }
    ensures names { OnOk result (names.new ≡ spec.placed_literal names.old text.now) }
    ensures err { OnErr result (names.new ≡ names.old) }
{
    match text.strip_prefix('\'') {
        Some(symbol) => {
            let place = place_symbol(symbol, names)?;
            Ok(Word { text, place })
        }
        None => Ok(Word { text, place: None }),
    }
}

/// Takes the words of a line that are left, as many as are kept, and places the symbols of the
/// literals among them.
pub(crate) fn take_words<'a>(
    mut line: Line<'a>,
    names: &mut Names,
    words: &mut Vec<Word<'a>>,
) -> Result<(), NoMemory>
    requires room { length names.old + length (words_of line.rest.now) ≤ 4294967295 }
    requires kept { max_words ≤ vec_capacity words.old }
    // As many as are kept are more than an event has.
    ensures all { OnOk result (length words.new.items < max_words →
        texts words.new.items ≡ words_of line.entry.rest.now) }
    ensures many { OnOk result (max_words ≤ length words.new.items →
        max_words ≤ length (words_of line.entry.rest.now)) }
    ensures placed { OnOk result (AllByRecursion (IsPlaced names.new) words.new.items) }
    ensures names { OnOk result (length words.new.items < max_words →
        names.new ≡ spec.placed_literals names.old (words_of line.entry.rest.now)) }
    ensures kept { Begins names.old names.new }
    ensures more { length names.new ≤ length names.old + length (words_of line.entry.rest.now) }
    ensures capacity { vec_capacity words.new ≡ vec_capacity words.old }
{
    words.clear();
    'words: while let Some(text) = line.next() {
        words.push_reserved(placed(text, names)?);
        if words.len() >= MAX_WORDS {
            return Ok(());
        }
    }
    Ok(())
}
