// The pieces of a text that shows a place.

ghost use Rattle.std.specs.Prelude.{◌≡◌, ◌<◌, ◌++◌, ◌∷◌, [], codes, length, OnOk};
ghost use Rattle.std.specs.Fmt.{decimal};
ghost use Rattle.refusal_places.specs.PlaceText as spec;
ghost use Rattle.refusal_places.specs.Spots.{blank_for as blank_of, indent_of, spot_of};

use crate::spot::{Spot, begins_character, column_of};
use itoa::Buffer;
use session_values::NoMemory;

/// Appends a number in decimal.
fn push_number(text: &mut Vec<u8>, n: u64) -> Result<(), NoMemory>
    ensures { OnOk result (text.new.items ≡ text.old.items ++ decimal n) }
{
    let mut buffer = Buffer::new();
    text.extend_from_slice(buffer.format(n).as_bytes())?;
    Ok(())
}

/// Appends the file, the line and the column.
pub fn push_place(text: &mut Vec<u8>, name: &str, spot: &Spot<'_>) -> Result<(), NoMemory>
    requires { length spot.now.front.now < 4294967296 }
    ensures { OnOk result (text.new.items
        ≡ text.old.items ++ spec.place_name name.now (spot_of spot.now)) }
{
    text.extend_from_slice(name.as_bytes())?;
    text.push(b':')?;
    push_number(text, spot.line)?;
    text.push(b':')?;
    push_number(text, column_of(spot.front))
}

/// Appends what is said of the place that stands there, to the end of the line.
pub(crate) fn push_head(
    text: &mut Vec<u8>,
    sentence: &str,
    count: Option<u32>,
) -> Result<(), NoMemory>
    ensures { OnOk result (text.new.items
        ≡ text.old.items ++ (codes ": " ++ spec.counted sentence.now count ++ 10 ∷ [])) }
{
    text.extend_from_slice(b": ")?;
    text.extend_from_slice(sentence.as_bytes())?;
    if let Some(n) = count {
        text.extend_from_slice(b": ")?;
        push_number(text, u64::from(n))?;
    }
    text.push(b'\n')?;
    Ok(())
}

/// Appends a line and its line feed.
pub(crate) fn push_line(text: &mut Vec<u8>, line: &[u8]) -> Result<(), NoMemory>
    ensures { OnOk result (text.new.items ≡ text.old.items ++ (line.now ++ 10 ∷ [])) }
{
    text.extend_from_slice(line)?;
    text.push(b'\n')?;
    Ok(())
}

/// Appends the caret's line for a place in a line with these bytes before it.
pub(crate) fn push_caret(text: &mut Vec<u8>, front: &[u8]) -> Result<(), NoMemory>
    ensures { OnOk result (text.new.items ≡ text.old.items ++ spec.caret_line front.now) }
{
    push_indent(text, front)?;
    text.extend_from_slice(b"^\n")?;
    Ok(())
}

/// Appends a blank for each character, a tab for a tab.
fn push_indent(text: &mut Vec<u8>, front: &[u8]) -> Result<(), NoMemory>
    ensures { OnOk result (text.new.items ≡ text.old.items ++ indent_of front.now) }
{
    for byte in front {
        if begins_character(*byte) {
            text.push(blank_for(*byte))?;
        }
    }
    Ok(())
}

/// A tab for a tab, else a space.
fn blank_for(byte: u8) -> u8
    ensures { result ≡ blank_of byte }
{
    if byte == b'\t' { b'\t' } else { b' ' }
}
