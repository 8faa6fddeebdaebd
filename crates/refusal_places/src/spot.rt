// Lines and columns.

ghost use Rattle.std.specs.Prelude.{◌≡◌, ◌<◌, ◌≤◌, length, slice_get, IfSome};
ghost use Rattle.std.specs.List.{count_by};
ghost use Rattle.text_lines.specs.Text.{lines as lines_of};
ghost use Rattle.refusal_places.specs.Spots as spec;

use text_lines::line_len;

/// A line of a file, with a place in it.
#[derive(Clone, Copy, Debug)]
pub struct Spot<'a> {
    /// Its number, from 1.
    pub line: u64,
    /// What stands in the line before the place.
    pub front: &'a [u8],
    /// The whole line without its line feed.
    pub text: &'a [u8],
}

/// The line of a byte, where the file has that many bytes before it.
pub fn byte_spot(file: &[u8], at: u32) -> Option<Spot<'_>>
    requires { length file.now < 4294967296 }
    ensures spot { spec.spot_option result ≡ spec.byte_spot file.now at }
    ensures bound { IfSome result (λ s. length s.front.now < 4294967296) }
{
    let at = at as usize;
    if at > file.len() {
        return None;
    }
    let (before, _) = file.split_at(at);
    let start = at - tail_len(before);
    let (_, front) = before.split_at(start);
    let (_, rest) = file.split_at(start);
    Some(Spot {
        line: 1 + feeds(before) as u64,
        front,
        text: line_of(rest),
    })
}

/// How many line feeds these bytes have.
fn feeds(bytes: &[u8]) -> usize
    ensures count { result ≡ count_by spec.is_feed bytes.now }
    ensures within { result ≤ length bytes.now }
{
    bytes.iter().filter(|b| **b == b'\n').count()
}

/// How many bytes of a line stand at the end of these.
fn tail_len(bytes: &[u8]) -> usize
    ensures len { result ≡ spec.tail_len bytes.now }
    ensures within { result ≤ length bytes.now }
{
    bytes.iter().rev().take_while(|b| !(**b == b'\n')).count()
}

/// The line that begins at the front of these bytes.
fn line_of(bytes: &[u8]) -> &[u8]
    ensures { result.now ≡ spec.line_of bytes.now }
{
    let (line, _) = bytes.split_at(line_len(bytes));
    line
}

/// The line with this number from 1, where it is there.
pub fn line_spot(file: &[u8], number: u32) -> Option<Spot<'_>>
    ensures spot { spec.spot_option result ≡ spec.line_spot file.now number }
    ensures bound { IfSome result (λ s. length s.front.now < 4294967296) }
{
    if number == 0 {
        return None;
    }
    match nth_line(file, number - 1) {
        Some(text) => Some(Spot {
            line: u64::from(number),
            front: &[],
            text,
        }),
        None => None,
    }
}

/// The line behind so many others.
fn nth_line(file: &[u8], skipped: u32) -> Option<&[u8]>
    ensures { spec.text_option result ≡ slice_get (lines_of file.now) skipped }
{
    let mut rest = file;
    for done in 0..skipped {
        let len = line_len(rest);
        if len == rest.len() {
            return None;
        }
        let (_, tail) = rest.split_at(len);
        let (_, next) = tail.split_at(1);
        rest = next;
    }
    if rest.is_empty() {
        None
    } else {
        Some(line_of(rest))
    }
}

/// Whether a byte is the first of a character.
#[inline]
pub(crate) fn begins_character(byte: u8) -> bool
    ensures { result ≡ spec.begins_character byte }
{
    byte < 128 || 192 <= byte
}

/// The column, from 1, of a place in a line with these bytes before it.
pub fn column_of(front: &[u8]) -> u64
    requires { length front.now < 4294967296 }
    ensures { result ≡ spec.column_of front.now }
{
    1 + front.iter().filter(|b| begins_character(**b)).count() as u64
}
