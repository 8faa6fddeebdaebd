// The names of a text.

ghost use Rattle.std.specs.Prelude.{◌≡◌, ◌+◌, ◌≤◌, [], length, IfOk, OnOk};
ghost use Rattle.text_lines.specs.Text.{words as words_of};
ghost use Rattle.text_lines.specs.Values.{placed_all};
ghost use Rattle.range_tables.specs.Faults.{names_of as names_spec};

use session_values::{Names, NoMemory};
use std::alloc::Global;
use std::hash::{DefaultHasher, Hasher};
use text_lines::{Line, Lines};

/// No names yet. Their hashes begin from a hash of all that is read, so whoever changes a name
/// changes all of them, and can't choose names that collide.
fn no_names(alloc: Global, text: &str) -> Names
    ensures { result ≡ [] }
{
    let mut hasher = DefaultHasher::new();
    hasher.write(text.as_bytes());
    Names::with_seed(alloc, hasher.finish())
}

/// Places each symbol among the words that are left.
fn place_all(mut words: Line<'_>, names: &mut Names) -> Result<(), NoMemory>
    requires { length names.old + length (words_of words.rest.now) ≤ 4294967295 }
    ensures names { OnOk result
        (names.new ≡ placed_all names.old (words_of words.entry.rest.now)) }
    ensures room { OnOk result
        (length names.new ≤ length names.old + length (words_of words.entry.rest.now)) }
{
    'words: while let Some(_) = words.next_value(names)? {}
    Ok(())
}

/// Each symbol behind the first word of a line of the text, in order of first appearance.
pub(crate) fn names_of(alloc: Global, text: &str) -> Result<Names, NoMemory>
    requires { length text.now ≤ 4294967294 }
    ensures { IfOk result (λ names. names ≡ names_spec text.now) }
{
    let mut names = no_names(alloc, text);
    let mut lines = Lines::over(text, 1);
    'lines: while let Some((_, line)) = lines.next() {
        let mut words = line;
        if let Some(_name) = words.next() {
            place_all(words, &mut names)?;
        }
    }
    Ok(names)
}
