// What is told of a refusal in plain words. `embedding/foresight.h` declares it.

ghost use Rattle.foresight_c.specs.Explaining.{Explains};

use crate::answer::Answer;
use crate::explaining::{explain_as, form_of, nothing};
use std::alloc::Global;

/// What `foresight_where` tells of a refusal: of the line that a call said of a text, which goes by
/// this name. The form is 0 for a text and 1 for JSON.
#[unsafe(no_mangle)]
pub extern "C" fn foresight_explain(
    alloc: Global,
    text: &[u8],
    name: &[u8],
    refusal: &[u8],
    form: u8,
    out: &mut [u8],
    answer: &mut Answer,
) -> u8
    ensures { Explains form name.now text.now refusal.now out.old out.new answer.new result }
{
    let Some(form) = form_of(form) else {
        return nothing(10, answer);
    };
    match std::str::from_utf8(name) {
        Ok(name) => explain_as(alloc, form, name, text, refusal, out, answer),
        Err(_) => nothing(16, answer),
    }
}
