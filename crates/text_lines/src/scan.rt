// Runs of bytes.

ghost use Rattle.std.specs.Prelude.{◌≡◌, ◌≤◌, length};
ghost use Rattle.std.specs.List.{prefix_len};
ghost use Rattle.text_lines.specs.Bytes as classes;
ghost use Rattle.text_lines.specs.Text as spec;

use crate::bytes::is_blank;
use memchr::memchr;

#[inline]
pub(crate) fn is_word_byte(byte: u8) -> bool
    ensures { result ≡ spec.is_word_byte byte }
{
    !(is_blank(byte) || byte == b'#')
}

/// How many blanks stand in front.
pub(crate) fn blanks_len(bytes: &[u8]) -> usize
    ensures len { result ≡ prefix_len classes.is_blank bytes.now }
    ensures within { result ≤ length bytes.now }
{
    bytes.iter().take_while(|b| is_blank(**b)).count()
}

/// How many bytes of a word stand in front.
pub(crate) fn word_len(bytes: &[u8]) -> usize
    ensures len { result ≡ prefix_len spec.is_word_byte bytes.now }
    ensures within { result ≤ length bytes.now }
{
    bytes.iter().take_while(|b| is_word_byte(**b)).count()
}

/// How many bytes of a text stand before its first line feed.
pub fn line_len(bytes: &[u8]) -> usize
    ensures len { result ≡ prefix_len spec.is_line_byte bytes.now }
    ensures within { result ≤ length bytes.now }
{
    match memchr(b'\n', bytes) {
        Some(len) => len,
        None => bytes.len(),
    }
}
