// What is written for a refusal's line and a file.

ghost use Rattle.std.specs.Prelude.{◌≡◌, ◌<◌, false, length, IfOk, List, ℕ};
ghost use Rattle.refusal_places.specs.Answers as spec;
ghost use Rattle.refusal_places.specs.PlaceText.{bytes_option};
ghost use Rattle.refusal_places.specs.Refusals.{said_option};

use crate::placing::place_text;
use crate::reading::refusal_of;
use crate::refusal::{Place, Refusal};
use session_values::NoMemory;
use std::alloc::Global;

/// Whether what is told depends on what the file holds: the refusal names a place, or its rule is
/// that of the missing line between handlers and requests.
pub fn needs_file(input: &[u8]) -> bool
    requires { length input.now < 4294967295 }
    ensures needs { result ≡ spec.needs_file (spec.said_of input.now) }
    // If it doesn't, any file will do.
    ensures any { result ≡ false → (name file other : List ℕ)
        → spec.answer name file input.now ≡ spec.answer name other input.now }
{
    match refusal_in(input) {
        Some(refusal) => refusal.place != Place::Nowhere || refusal.rule.word == "T2",
        None => false,
    }
}

/// The text that shows where the rule is broken that a refusal's line names, in a file with this
/// name. None where the input is no such line, or names a place that the file hasn't: then it is
/// to be handed on as it is.
pub fn answer(
    alloc: Global,
    name: &str,
    file: &[u8],
    input: &[u8],
) -> Result<Option<Vec<u8>>, NoMemory>
    requires file { length file.now < 4294967296 }
    requires input { length input.now < 4294967295 }
    ensures { IfOk result (λ text. bytes_option text
        ≡ spec.answer name.now file.now input.now) }
{
    match refusal_in(input) {
        Some(refusal) => place_text(alloc, name, file, &refusal),
        None => Ok(None),
    }
}

/// The refusal that the input is, if it is one.
fn refusal_in(input: &[u8]) -> Option<Refusal>
    requires { length input.now < 4294967295 }
    ensures { said_option result ≡ spec.said_of input.now }
{
    let Ok(text) = std::str::from_utf8(input) else {
        return None;
    };
    refusal_of(text)
}
