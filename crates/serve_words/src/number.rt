// The numbers of a command line.

ghost use Rattle.std.specs.Prelude.{◌≡◌, ◌≤◌, IfSome};
ghost use Rattle.serve_words.specs.Numbers as spec;

use text_lines::first_byte;

/// The number that the word says, if it is one from `low` to `high`.
pub(crate) fn number_within(low: u32, high: u32, word: &str) -> Option<u32>
    ensures number { result ≡ spec.number_within low high word.now }
    ensures bounds { IfSome result (λ n. (low ≤ n) × (n ≤ high)) }
{
    match number(word) {
        Some(n) if low <= n && n <= high => Some(n),
        _ => None,
    }
}

/// The number that the word says, if it is one.
fn number(word: &str) -> Option<u32>
    ensures { result ≡ spec.number word.now }
{
    let first = first_byte(word);
    // `parse` takes a plus sign and leading zeros, which the numbers of a command line don't have
    if first == b'+' {
        return None;
    }
    if first == b'0' && word.len() > 1 {
        return None;
    }
    word.parse::<u32>().ok()
}
