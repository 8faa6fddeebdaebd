// What a call hands over of a run that is done.

ghost use Rattle.std.specs.Prelude.{◌≡◌, [], length};
ghost use Rattle.foresight_c.specs.Endings as spec;
ghost use Rattle.foresight_c.specs.Answered.{IsGiven, IsHandedOver};

use crate::answer::Answer;
use crate::fronts::put_front;
use crate::text_rooms::{length_of, put_text_front};
use byte_ends::PutsText;
use serve_faults::{Status, message_of};

/// Hands over the text of a run that ended so: the text and the status's line at the front of their
/// rooms, and how many bytes of them. It answers the status's number.
pub(crate) fn hand_over(
    status: Status,
    text: &[u8],
    out: &mut [u8],
    message: &mut [u8],
    answer: &mut Answer,
) -> u8
    ensures { IsHandedOver (spec.ending status (length text.now) (length out.old))
        (spec.handed (spec.ending status (length text.now) (length out.old)) text.now)
        out.old out.new message.old message.new answer.new result }
{
    let ended = ending(status, text.len(), out.len());
    let whole = handed(&ended, text);
    answer.needed = whole.len();
    answer.written = put_front(out, whole);
    answer.told = put_front(message, message_of(&ended).as_str().as_bytes());
    ended.number()
}

/// Hands over a text by putting it into its room. It is counted first: if its length is no number
/// that an answer has place for, the answer is out of memory, and the room stays as it was.
pub(crate) fn hand_text<P: PutsText>(
    text: &P,
    out: &mut [u8],
    message: &mut [u8],
    answer: &mut Answer,
) -> u8
    requires { P.CanPut text.now }
    ensures { IsGiven (P.text text.now) out.old out.new message.old message.new answer.new result }
{
    match length_of(text) {
        Some(needed) => {
            let ended = ending(Status::Fine, needed, out.len());
            answer.needed = needed;
            answer.written = put_text_front(out, text);
            answer.told = put_front(message, message_of(&ended).as_str().as_bytes());
            ended.number()
        }
        None => hand_ending(&Status::NoMemory, out, message, answer),
    }
}

/// Hands over how a call ended for which there is no text.
pub(crate) fn hand_ending(
    ended: &Status,
    out: &mut [u8],
    message: &mut [u8],
    answer: &mut Answer,
) -> u8
    ensures { IsHandedOver ended.now [] out.old out.new message.old message.new answer.new result }
{
    answer.needed = 0;
    answer.written = put_front(out, &[]);
    answer.told = put_front(message, message_of(ended).as_str().as_bytes());
    ended.number()
}

/// How a call ends whose run ended so, with a text of so many bytes for a room of so many.
fn ending(status: Status, length: usize, room: usize) -> Status
    ensures { result ≡ spec.ending status length room }
{
    match status {
        Status::Fine if length > room => Status::WriteFault,
        // The store fails only if memory runs out.
        Status::WriteFault => Status::NoMemory,
        ended => ended,
    }
}

/// The text of a call that ends so; another one has none.
fn handed<'a>(ended: &Status, text: &'a [u8]) -> &'a [u8]
    ensures { result.now ≡ spec.handed ended.now text.now }
{
    match ended {
        Status::Fine | Status::WriteFault => text,
        _ => &[],
    }
}
