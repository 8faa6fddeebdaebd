// The JSON that tells of a refusal.

ghost use Rattle.std.specs.Prelude.{◌≡◌, ◌<◌, ◌++◌, false, length, map, string_bytes, Some, IfOk, IfSome, OnOk};
ghost use Rattle.serde_json.specs.View.{view};
ghost use Rattle.serde_json.specs.Written.{has_float};
ghost use Rattle.refusal_places.specs.PlaceText.{counted};
ghost use Rattle.refusal_places.specs.Refusals.{said};
ghost use Rattle.refusal_places.specs.RuleTable.{row_of};
ghost use Rattle.refusal_places.specs.Spots.{spot_option};
ghost use Rattle.refusal_advice.specs.Json as spec;

use crate::advising::advice_for;
use crate::explaining::first_line;
use itoa::Buffer;
use refusal_places::{Place, Refusal, Spot, byte_spot, column_of, line_spot, refusal_of};
use serde_json::{Value, json};
use session_values::NoMemory;
use std::alloc::{AllocError, Global};

/// A place's line and column, from 1, where it has them.
#[derive(Clone, Copy, Debug)]
pub(crate) struct Numbers {
    pub(crate) line: Option<u64>,
    pub(crate) column: Option<u64>,
}

/// The line and the column of a spot.
fn spot_numbers(spot: Option<Spot<'_>>) -> Option<Numbers>
    requires { IfSome spot (λ s. length s.front.now < 4294967296) }
    ensures { result ≡ spec.spot_numbers (spot_option spot.entry) }
{
    match spot {
        Some(spot) => Some(Numbers {
            line: Some(spot.line),
            column: Some(column_of(spot.front)),
        }),
        None => None,
    }
}

/// The line and the column of a place, if the file has it.
fn numbers_of(file: &[u8], place: Place) -> Option<Numbers>
    requires { length file.now < 4294967296 }
    ensures { result ≡ spec.numbers_of file.now place }
{
    match place {
        Place::Nowhere => Some(Numbers {
            line: None,
            column: None,
        }),
        Place::Byte(at) => spot_numbers(byte_spot(file, at)),
        Place::Counted(at, _) => spot_numbers(byte_spot(file, at)),
        Place::Line(line) => spot_numbers(line_spot(file, line)),
    }
}

/// The count that a place has beside it.
fn count_of(place: Place) -> Option<u32>
    ensures { result ≡ spec.count_of place }
{
    match place {
        Place::Counted(_, count) => Some(count),
        Place::Nowhere | Place::Byte(_) | Place::Line(_) => None,
    }
}

/// A sentence, and a count behind it where there is one.
fn counted_text(alloc: Global, sentence: &str, count: Option<u32>) -> Result<String, AllocError>
    ensures { IfOk result (λ text. string_bytes text ≡ counted sentence.now count) }
{
    let mut text = String::from_str(alloc, sentence)?;
    if let Some(count) = count {
        let mut buffer = Buffer::new();
        text.push_str(": ")?;
        text.push_str(buffer.format(count))?;
    }
    Ok(text)
}

/// A count, or null.
fn count_value(count: Option<u64>) -> Value
    ensures { view result ≡ spec.count_value count }
{
    match count {
        Some(n) => Value::from(n),
        None => Value::Null,
    }
}

/// The lines of an advice.
#[tactic(auto, using(crate::proofs::Objects::values_more, crate::proofs::Objects::values_all))]
fn line_values(alloc: Global, lines: &[String]) -> Result<Vec<Value>, AllocError>
    ensures { IfOk result (λ values. map view values.items
        ≡ map spec.line_value (map string_bytes lines.now)) }
{
    let mut values = Vec::new(alloc);
    for line in lines {
        values.push(line_value(alloc, line.as_str())?)?;
    }
    Ok(values)
}

/// One of them.
fn line_value(alloc: Global, line: &str) -> Result<Value, AllocError>
    ensures { IfOk result (λ v. view v ≡ spec.line_value line.now) }
{
    Ok(Value::String(String::from_str(alloc, first_line(line))?))
}

/// The object with these members.
fn object_of(
    alloc: Global,
    advice: Value,
    place: Numbers,
    file: &str,
    rule: &str,
    sentence: &str,
) -> Result<Value, AllocError>
    ensures { IfOk result (λ v. view v ≡ spec.object_of (view advice) place file.now rule.now
        sentence.now) }
{
    json!(in alloc; {
        "advice": advice,
        "column": count_value(place.column),
        "file": file,
        "line": count_value(place.line),
        "rule": rule,
        "sentence": sentence
    })
}

/// The object of a refusal whose advice is this.
fn refusal_value(
    alloc: Global,
    name: &str,
    refusal: &Refusal,
    place: Numbers,
    advice: &[String],
) -> Result<Value, AllocError>
    ensures { IfOk result (λ v. view v ≡ spec.refusal_value name.now
        (said (row_of refusal.now.rule) refusal.now.place) place (map string_bytes advice.now)) }
{
    let sentence = counted_text(alloc, refusal.rule.sentence, count_of(refusal.place))?;
    let advice = Value::Array(line_values(alloc, advice)?);
    object_of(
        alloc,
        advice,
        place,
        name,
        refusal.rule.word,
        sentence.as_str(),
    )
}

/// The text of a value without a fraction, and a line feed.
fn json_text(alloc: Global, value: &Value) -> Result<Vec<u8>, AllocError>
    ensures { IfOk result (λ text. has_float (view value.now) ≡ false
        → text.items ≡ spec.json_text (view value.now)) }
{
    let mut text = value.to_vec(alloc)?;
    text.push(b'\n')?;
    Ok(text)
}

/// The JSON on a refusal in a file with this name whose place is this.
fn placed_json(
    alloc: Global,
    name: &str,
    file: &[u8],
    refusal: &Refusal,
    place: Numbers,
) -> Result<Vec<u8>, NoMemory>
    requires { spec.numbers_of file.now refusal.now.place ≡ Some place }
    ensures { IfOk result (λ text. spec.IsJsonOf name.now file.now
        (said (row_of refusal.now.rule) refusal.now.place) text.items) }
{
    let advice = advice_for(alloc, file, refusal)?;
    let value = refusal_value(alloc, name, refusal, place, advice.as_slice())?;
    Ok(json_text(alloc, &value)?)
}

/// The JSON on a refusal in a file with this name, if the file has its place.
fn refusal_json(
    alloc: Global,
    name: &str,
    file: &[u8],
    refusal: &Refusal,
) -> Result<Option<Vec<u8>>, NoMemory>
    requires { length file.now < 4294967296 }
    ensures { IfOk result (spec.IsJsonIn name.now file.now
        (said (row_of refusal.now.rule) refusal.now.place)) }
{
    match numbers_of(file, refusal.place) {
        Some(place) => Ok(Some(placed_json(alloc, name, file, refusal, place)?)),
        None => Ok(None),
    }
}

/// What the text tells of a refusal's line, as JSON: one object, and a line feed. None where the input
/// is no such line, or names a place that the file hasn't.
pub(crate) fn told_json(
    alloc: Global,
    name: &str,
    file: &[u8],
    input: &[u8],
) -> Result<Option<Vec<u8>>, NoMemory>
    requires file { length file.now < 4294967296 }
    requires input { length input.now < 4294967295 }
    ensures { IfOk result (spec.IsJsonTo name.now file.now input.now) }
{
    let Ok(text) = std::str::from_utf8(input) else {
        return Ok(None);
    };
    match refusal_of(text) {
        Some(refusal) => refusal_json(alloc, name, file, &refusal),
        None => Ok(None),
    }
}
