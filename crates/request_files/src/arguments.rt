// The arguments of a request.

ghost use Rattle.std.specs.Prelude.{◌≡◌, ◌+◌, ◌++◌, ◌≤◌, length, true, IfOk};
ghost use Rattle.std.specs.List.{list_all};
ghost use Rattle.session_values.specs.Names.{Begins};
ghost use Rattle.text_lines.specs.Text.{words as words_of};
ghost use Rattle.text_lines.specs.Values as value_spec;

use session_values::{Names, NoMemory, Value};
use text_lines::Line;

/// The number of words that are left.
pub(crate) fn count(mut words: Line<'_>) -> usize
    ensures { result ≡ length (words_of words.entry.rest.now) }
{
    let mut count = 0;
    'words: while let Some(_) = words.next() {
        count += 1;
    }
    count
}

/// Appends the values of the words that are left, and says whether each of them is one.
pub(crate) fn values(
    mut words: Line<'_>,
    names: &mut Names,
    list: &mut Vec<Value>,
) -> Result<bool, NoMemory>
    requires { length names.old + length (words_of words.rest.now) ≤ 4294967295 }
    ensures tests { IfOk result (λ b. b ≡ list_all value_spec.is_value
        (words_of words.entry.rest.now)) }
    ensures values { IfOk result (λ b. b ≡ true → list.new.items ≡ list.old.items
        ++ value_spec.values_of names.new (words_of words.entry.rest.now)) }
    ensures names { IfOk result (λ b. b ≡ true →
        names.new ≡ value_spec.placed_all names.old (words_of words.entry.rest.now)) }
    ensures kept { Begins names.old names.new }
    ensures room { length names.new ≤ length names.old + length (words_of words.entry.rest.now) }
{
    'words: while let Some(found) = words.next_value(names)? {
        match found {
            Some(v) => list.push(v)?,
            None => return Ok(false),
        }
    }
    Ok(true)
}
