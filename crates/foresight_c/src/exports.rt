// The calls of the library.

ghost use Rattle.std.specs.Prelude.{ℕ};
ghost use Rattle.serve_faults.specs.Command.TheVariants.{Audit, Check, Dump, Ranges, Serve, Show};
ghost use Rattle.foresight_c.specs.Answered.{IsAnswered};

use crate::answer::Answer;
use crate::calling::{Call, answer_call};
use std::alloc::Global;

/// What `check` answers to a file of handlers: its canonical text.
#[unsafe(no_mangle)]
pub extern "C" fn foresight_check(
    alloc: Global,
    text: &[u8],
    out: &mut [u8],
    message: &mut [u8],
    answer: &mut Answer,
) -> u8
    ensures { IsAnswered Check text.now out.old out.new message.old message.new answer.new result }
{
    answer_call(alloc, Call::Check, text, out, message, answer)
}

/// What `show` answers to a file of handlers: its text with the declarations.
#[unsafe(no_mangle)]
pub extern "C" fn foresight_show(
    alloc: Global,
    text: &[u8],
    out: &mut [u8],
    message: &mut [u8],
    answer: &mut Answer,
) -> u8
    ensures { IsAnswered Show text.now out.old out.new message.old message.new answer.new result }
{
    answer_call(alloc, Call::Show, text, out, message, answer)
}

/// What `ranges` answers to a range session: a line for each of its lines.
#[unsafe(no_mangle)]
pub extern "C" fn foresight_ranges(
    alloc: Global,
    text: &[u8],
    out: &mut [u8],
    message: &mut [u8],
    answer: &mut Answer,
) -> u8
    ensures { IsAnswered Ranges text.now out.old out.new message.old message.new answer.new result }
{
    answer_call(alloc, Call::Ranges, text, out, message, answer)
}

/// What `audit` answers to a session file that ends in a trace: the verdict.
#[unsafe(no_mangle)]
pub extern "C" fn foresight_audit(
    alloc: Global,
    text: &[u8],
    out: &mut [u8],
    message: &mut [u8],
    answer: &mut Answer,
) -> u8
    ensures { IsAnswered Audit text.now out.old out.new message.old message.new answer.new result }
{
    answer_call(alloc, Call::Audit, text, out, message, answer)
}

/// What `serve` answers to a session file: the replies of its requests.
#[unsafe(no_mangle)]
pub extern "C" fn foresight_serve(
    alloc: Global,
    text: &[u8],
    out: &mut [u8],
    message: &mut [u8],
    answer: &mut Answer,
) -> u8
    ensures { (callers shards : ℕ) → IsAnswered (Serve callers shards) text.now out.old out.new
        message.old message.new answer.new result }
{
    answer_call(alloc, Call::Serve, text, out, message, answer)
}

/// What `dump` answers to a session file: the tables that its requests leave.
#[unsafe(no_mangle)]
pub extern "C" fn foresight_dump(
    alloc: Global,
    text: &[u8],
    out: &mut [u8],
    message: &mut [u8],
    answer: &mut Answer,
) -> u8
    ensures { (callers shards : ℕ) → IsAnswered (Dump callers shards) text.now out.old out.new
        message.old message.new answer.new result }
{
    answer_call(alloc, Call::Dump, text, out, message, answer)
}
