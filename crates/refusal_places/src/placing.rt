// The text that shows where a rule is broken.

ghost use Rattle.std.specs.Prelude.{◌≡◌, ◌<◌, length, Some, IfOk, IfSome};
ghost use Rattle.refusal_places.specs.PlaceText as spec;
ghost use Rattle.refusal_places.specs.Refusals.{said};
ghost use Rattle.refusal_places.specs.RuleTable.{row_of};
ghost use Rattle.refusal_places.specs.Spots.{spot_option};

use crate::pieces::{push_caret, push_head, push_line, push_place};
use crate::refusal::{Place, Refusal};
use crate::spot::{Spot, byte_spot, line_spot};
use session_values::NoMemory;
use std::alloc::Global;

/// The text that shows where a refusal's rule is broken in a file with this name, if the file has
/// that place.
pub fn place_text(
    alloc: Global,
    name: &str,
    file: &[u8],
    refusal: &Refusal,
) -> Result<Option<Vec<u8>>, NoMemory>
    requires { length file.now < 4294967296 }
    ensures { IfOk result (λ text. spec.bytes_option text
        ≡ spec.place_text name.now file.now (said (row_of refusal.now.rule) refusal.now.place)) }
{
    let sentence = refusal.rule.sentence;
    match refusal.place {
        Place::Nowhere => plain_text(alloc, name, sentence),
        Place::Byte(at) => caret_text(alloc, name, sentence, None, byte_spot(file, at)),
        Place::Counted(at, count) => {
            caret_text(alloc, name, sentence, Some(count), byte_spot(file, at))
        }
        Place::Line(line) => line_text(alloc, name, sentence, line_spot(file, line)),
    }
}

/// The text where no place is named.
fn plain_text(alloc: Global, name: &str, sentence: &str) -> Result<Option<Vec<u8>>, NoMemory>
    ensures { IfOk result (λ text. spec.bytes_option text
        ≡ Some (spec.head_line name.now sentence.now)) }
{
    let mut text = Vec::new(alloc);
    text.extend_from_slice(name.as_bytes())?;
    push_head(&mut text, sentence, None)?;
    Ok(Some(text))
}

/// The text of a byte.
fn caret_text(
    alloc: Global,
    name: &str,
    sentence: &str,
    count: Option<u32>,
    spot: Option<Spot<'_>>,
) -> Result<Option<Vec<u8>>, NoMemory>
    requires { IfSome spot (λ s. length s.front.now < 4294967296) }
    ensures { IfOk result (λ text. spec.bytes_option text
        ≡ spec.caret_text name.now (spec.counted sentence.now count) (spot_option spot.entry)) }
{
    let Some(spot) = spot else {
        return Ok(None);
    };
    let mut text = Vec::new(alloc);
    push_place(&mut text, name, &spot)?;
    push_head(&mut text, sentence, count)?;
    push_line(&mut text, spot.text)?;
    push_caret(&mut text, spot.front)?;
    Ok(Some(text))
}

/// The text of a line.
fn line_text(
    alloc: Global,
    name: &str,
    sentence: &str,
    spot: Option<Spot<'_>>,
) -> Result<Option<Vec<u8>>, NoMemory>
    requires { IfSome spot (λ s. length s.front.now < 4294967296) }
    ensures { IfOk result (λ text. spec.bytes_option text
        ≡ spec.line_text name.now sentence.now (spot_option spot.entry)) }
{
    let Some(spot) = spot else {
        return Ok(None);
    };
    let mut text = Vec::new(alloc);
    push_place(&mut text, name, &spot)?;
    push_head(&mut text, sentence, None)?;
    push_line(&mut text, spot.text)?;
    Ok(Some(text))
}
