// The numbers of refusals.

ghost use Rattle.std.specs.Prelude.{◌≡◌};
ghost use Rattle.serve_words.specs.Numbers as spec;

use text_lines::first_byte;

/// The number of 32 bits that the word says, if it is one: digits without a leading zero.
pub(crate) fn number(word: &str) -> Option<u32>
    ensures { result ≡ spec.number word.now }
{
    let first = first_byte(word);
    // `parse` takes a plus sign and leading zeros, which no refusal has
    if first == b'+' {
        return None;
    }
    if first == b'0' && word.len() > 1 {
        return None;
    }
    word.parse::<u32>().ok()
}
