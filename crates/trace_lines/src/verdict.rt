// A verdict's line.

ghost use Rattle.std.specs.Prelude.{◌≡◌, ◌≤◌, length};
ghost use Rattle.session_journal.specs.Script.{Meaning};
ghost use Rattle.session_journal.specs.Verdicts.{IsVerdict};
ghost use Rattle.trace_lines.specs.VerdictText as spec;

use byte_ends::{ShortText, push_number, short_text};
use session_journal::{Trace, Verdict};

/// The line of a verdict on a trace: `accepted` and the number of its events, or the rule that is
/// broken and the line of the event, or the ticket.
pub fn verdict_line(trace: &Trace, verdict: Verdict) -> ShortText
    requires { (m : Meaning) × IsVerdict m trace.now.events verdict }
    ensures { result.bytes ≡ spec.verdict_text trace.now verdict }
{
    match verdict {
        Verdict::Accepted => accepted(trace.events().len() as u64),
        Verdict::Event { rule, at } => rejected(rule, " line ", trace.line(at)),
        Verdict::Ticket { rule, ticket } => rejected(rule, " ticket ", ticket),
    }
}

fn accepted(events: u64) -> ShortText
    ensures { result.bytes ≡ spec.accepted events }
{
    let mut text = short_text("accepted ");
    push_number(&mut text, events);
    text.push_str("\n");
    text
}

/// A rule that is broken, and a line or a ticket.
fn rejected(rule: u32, place: &str, n: u32) -> ShortText
    requires { length place.now ≤ 20 }
    ensures { result.bytes ≡ spec.rejected rule place.now n }
{
    let mut text = short_text("rejected V");
    push_number(&mut text, u64::from(rule));
    text.push_str(place);
    push_number(&mut text, u64::from(n));
    text.push_str("\n");
    text
}
