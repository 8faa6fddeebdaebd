// Short texts.

ghost use Rattle.std.specs.Prelude.{◌≡◌, ◌+◌, ◌≤◌, ◌++◌, length, decimal};
ghost use Rattle.arrayvec.specs.ArrayString.{array_string_len};

use arrayvec::ArrayString;
use itoa::Buffer;

/// A text of at most 256 bytes, which takes no memory.
pub type ShortText = ArrayString<256>;

/// The text that is this one.
pub fn short_text(text: &str) -> ShortText
    requires { length text.now ≤ 256 }
    ensures { result.bytes ≡ text.now }
{
    let mut short = ArrayString::new();
    short.push_str(text);
    short
}

/// Appends a number in decimal.
pub fn push_number(text: &mut ShortText, n: u64)
    requires { array_string_len text.old + 20 ≤ 256 }
    ensures text { text.new.bytes ≡ text.old.bytes ++ decimal n }
    ensures len { array_string_len text.new ≤ array_string_len text.old + 20 }
{
    let mut buffer = Buffer::new();
    text.push_str(buffer.format(n));
}
