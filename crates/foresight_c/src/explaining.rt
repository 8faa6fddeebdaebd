// What is told of a refusal, in a caller's room.

ghost use Rattle.std.specs.Prelude.{◌≡◌, ◌<◌, ◌≤◌, ◌^◌, IfOk, MatchOption, length};
ghost use Rattle.std.specs.Bool.{Decides};
ghost use Rattle.refusal_advice.specs.Json.{IsExplained};
ghost use Rattle.foresight_c.specs.Explaining.{AreReadable, ExplainsAs, HasText, IsNothing, form_number};

use crate::answer::Answer;
use crate::fronts::put_front;
use refusal_advice::{Form, explain};
use session_values::NoMemory;
use std::alloc::Global;

/// The form of this number.
pub(crate) fn form_of(number: u8) -> Option<Form>
    ensures { MatchOption result (2 ≤ number) (λ f. form_number f ≡ number) }
{
    match number {
        0 => Some(Form::Text),
        1 => Some(Form::Json),
        _ => None,
    }
}

/// Says that nothing was handed over, and why.
pub(crate) fn nothing(number: u8, answer: &mut Answer) -> u8
    ensures written { answer.new.written ≡ 0 }
    ensures needed { answer.new.needed ≡ 0 }
    ensures told { answer.new.told ≡ 0 }
    ensures number { result ≡ number }
{
    answer.written = 0;
    answer.needed = 0;
    answer.told = 0;
    number
}

// Whether a text and a line are short enough to be read.
fn are_readable(text: &[u8], refusal: &[u8]) -> bool
    ensures { Decides result (AreReadable text.now refusal.now) }
{
    text.len() < 4294967296 && refusal.len() < 4294967295
}

// Hands over a text: as much of it as the room takes, and how many bytes it has.
fn hand(text: &[u8], out: &mut [u8], answer: &mut Answer) -> u8
    ensures { HasText text.now out.old out.new answer.new result }
{
    let fits = text.len() <= out.len();
    answer.written = put_front(out, text);
    answer.needed = text.len();
    answer.told = 0;
    if fits { 0 } else { 5 }
}

/// Tells of a refusal of a text that goes by this name.
pub(crate) fn explain_as(
    alloc: Global,
    form: Form,
    name: &str,
    text: &[u8],
    refusal: &[u8],
    out: &mut [u8],
    answer: &mut Answer,
) -> u8
    ensures { ExplainsAs form name.now text.now refusal.now out.old out.new answer.new result }
{
    if !are_readable(text, refusal) {
        return nothing(17, answer);
    }
    match explain(alloc, form, name, text, refusal) {
        Ok(Some(told)) => hand(told.as_slice(), out, answer),
        Ok(None) => nothing(17, answer),
        Err(_) => nothing(3, answer),
    }
}
