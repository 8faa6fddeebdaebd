// The summary of a session.

ghost use Rattle.std.specs.Prelude.{◌≡◌};
ghost use Rattle.serve_words.specs.Summary as spec;

use byte_ends::{ShortText, push_number, short_text};

/// The three lines that say how many requests a session had, how many operations they made, and
/// how many bytes their reply lines have.
pub fn summary_text(requests: u32, calls: u64, bytes: u64) -> ShortText
    ensures { result.bytes ≡ spec.summary requests calls bytes }
{
    let mut text = short_text("requests ");
    push_number(&mut text, u64::from(requests));
    text.push_str("\ncalls ");
    push_number(&mut text, calls);
    text.push_str("\nbytes ");
    push_number(&mut text, bytes);
    text.push_str("\n");
    text
}
