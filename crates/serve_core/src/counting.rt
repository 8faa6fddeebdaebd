// Counting: how many operations a session made, and how many bytes its reply lines have.

ghost use Rattle.std.specs.Prelude.{◌≡◌, ◌≤◌, [], ◌∷◌, length};
ghost use Rattle.session_values.specs.Limits.{max_requests};
ghost use Rattle.session_journal.specs.Journal.{done_operations};
ghost use Rattle.session_values.specs.ReplyText.{reply_text};
ghost use Rattle.reply_sheet.specs.Printable.{ArePrintableReplies};

use reply_sheet::{LineBuf, line};
use session_journal::Event;
use session_values::{Names, Reply};

/// How many operations were done.
pub(crate) fn count_calls(events: &[Event]) -> u64
    ensures { result ≡ length (done_operations events.now) }
{
    let mut calls = 0;
    for event in events {
        calls += count_done(event);
    }
    calls
}

// One where an operation was done, else none.
fn count_done(event: &Event) -> u64
    ensures calls { result ≡ length (done_operations (event.now ∷ [])) }
    ensures few { result ≤ 1 }
{
    match event {
        Event::Begin { .. } => 0,
        Event::Done { .. } => 1,
        Event::Delay { .. } => 0,
        Event::End { .. } => 0,
    }
}

/// How many bytes the reply lines have.
pub(crate) fn count_bytes(replies: &[Reply], names: &Names) -> u64
    requires few { length replies.now ≤ max_requests }
    requires printable { ArePrintableReplies names.now replies.now }
    ensures { result ≡ length (reply_text names.now 0 replies.now) }
{
    let mut text = LineBuf::new();
    let mut bytes = 0;
    for (ticket, reply) in replies.iter().enumerate() {
        line(ticket as u32, reply, names, &mut text);
        bytes += text.len() as u64;
    }
    bytes
}
