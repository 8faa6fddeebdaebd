// A command that is answered in a caller's rooms.

ghost use Rattle.std.specs.Prelude.{ℕ};
ghost use Rattle.serve_faults.specs.Command.TheVariants.{Audit, Ranges};
ghost use Rattle.serve_faults.specs.Ways.{describing};
ghost use Rattle.foresight_c.specs.Answered.{IsAnswered};
ghost use Rattle.serve_single.specs.Serving.{serving};
ghost use Rattle.foresight_c.specs.Calls.{command_of};

use crate::answer::Answer;
use crate::handing::{hand_ending, hand_over, hand_text};
use crate::text_store::TextStore;
use serve_faults::Status;
use serve_single::{audit_bytes, describe_bytes, ranges_bytes, serve_bytes};
use std::alloc::Global;

/// The commands that the library answers.
#[derive(Clone, Copy)]
pub(crate) enum Call {
    Check,
    Show,
    Ranges,
    Audit,
    Serve,
    Dump,
}

/// Answers a command to a text, in the caller's rooms.
pub(crate) fn answer_call(
    alloc: Global,
    call: Call,
    text: &[u8],
    out: &mut [u8],
    message: &mut [u8],
    answer: &mut Answer,
) -> u8
    ensures { (callers shards : ℕ) → IsAnswered (command_of call callers shards) text.now
        out.old out.new message.old message.new answer.new result }
{
    match call {
        Call::Check => answer_handlers(alloc, false, text, out, message, answer),
        Call::Show => answer_handlers(alloc, true, text, out, message, answer),
        Call::Ranges => answer_ranges(alloc, text, out, message, answer),
        Call::Audit => answer_trace(alloc, text, out, message, answer),
        Call::Serve => answer_session(alloc, false, text, out, message, answer),
        Call::Dump => answer_session(alloc, true, text, out, message, answer),
    }
}

// Answers `check` or, with `shown`, `show`. The text is put into its room.
fn answer_handlers(
    alloc: Global,
    shown: bool,
    text: &[u8],
    out: &mut [u8],
    message: &mut [u8],
    answer: &mut Answer,
) -> u8
    ensures { IsAnswered (describing shown) text.now out.old out.new message.old message.new
        answer.new result }
{
    match describe_bytes(alloc, shown, text) {
        Ok(description) => hand_text(&description, out, message, answer),
        Err(status) => hand_ending(&status, out, message, answer),
    }
}

// Answers `ranges`.
fn answer_ranges(
    alloc: Global,
    text: &[u8],
    out: &mut [u8],
    message: &mut [u8],
    answer: &mut Answer,
) -> u8
    ensures { IsAnswered Ranges text.now out.old out.new message.old message.new answer.new result }
{
    match ranges_bytes(alloc, text) {
        Ok(lines) => hand_over(Status::Fine, lines.as_slice(), out, message, answer),
        Err(status) => hand_ending(&status, out, message, answer),
    }
}

// Answers `audit`.
fn answer_trace(
    alloc: Global,
    text: &[u8],
    out: &mut [u8],
    message: &mut [u8],
    answer: &mut Answer,
) -> u8
    ensures { IsAnswered Audit text.now out.old out.new message.old message.new answer.new result }
{
    let mut store = TextStore::new(alloc);
    let status = audit_bytes(alloc, text, &mut store);
    hand_over(status, store.bytes(), out, message, answer)
}

// Answers `serve` or, with `tables`, `dump`. The text goes to a store first: a sink has to hold all
// that it takes, also what the room has no place for.
fn answer_session(
    alloc: Global,
    tables: bool,
    text: &[u8],
    out: &mut [u8],
    message: &mut [u8],
    answer: &mut Answer,
) -> u8
    ensures { (callers shards : ℕ) → IsAnswered (serving tables callers shards) text.now
        out.old out.new message.old message.new answer.new result }
{
    let mut store = TextStore::new(alloc);
    let status = serve_bytes(alloc, tables, text, &mut store);
    hand_over(status, store.bytes(), out, message, answer)
}
