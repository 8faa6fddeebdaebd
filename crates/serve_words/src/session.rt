// The text of a made session.

ghost use Rattle.std.specs.Prelude.{◌≡◌, ◌+◌, ◌<◌, ◌≤◌, ◌++◌, codes, decimal, length, string_bytes, string_len, IfOk, OnOk};
ghost use Rattle.session_values.specs.Limits.{max_requests};
ghost use Rattle.serve_words.specs.Draws.{next_state, drawn};
ghost use Rattle.serve_words.specs.Session as spec;

use crate::draws::Draws;
use itoa::Buffer;
use session_values::NoMemory;
use std::alloc::Global;

/// The handlers of a made session.
const HANDLERS: &str =
    "map seats;\nset online;\nhandler login(u, now) {\n  let old = swap(seats, u, now);\n  mark(online, u);\n  reply old;\n}\nhandler logout(u) {\n  del(seats, u);\n  drop(online, u);\n}\nhandler seen(u) {\n  let at = get(seats, u);\n  let on = has(online, u);\n  reply at, on;\n}\nhandler crowd() {\n  let n = count(online);\n  reply n;\n}\n";

/// The text of a session of so many requests, whose draws begin from `start`.
pub fn session_text(alloc: Global, requests: u32, start: u32) -> Result<String, NoMemory>
    requires { requests ≤ max_requests }
    ensures text { IfOk result (λ t. string_bytes t ≡ spec.session_text requests start) }
    ensures short { IfOk result (λ t. length (string_bytes t) ≤ 1000000) }
{
    let mut text = String::from_str(alloc, HANDLERS)?;
    text.push_str("%%\n")?;
    let mut draws = Draws { state: start };
    for _ in 0..requests {
        push_request(&mut draws, &mut text)?;
    }
    Ok(text)
}

/// Appends the line of the next request.
fn push_request(draws: &mut Draws, text: &mut String) -> Result<(), NoMemory>
    ensures state { draws.new.state ≡ next_state (next_state (next_state draws.old.state)) }
    ensures text { OnOk result (string_bytes text.new ≡ string_bytes text.old
        ++ spec.request_line (drawn (next_state draws.old.state))
        (drawn (next_state (next_state draws.old.state))) (drawn draws.new.state)) }
    ensures len { string_len text.new ≤ string_len text.old + 40 }
{
    let kind = draws.draw() % 4;
    let user = draws.draw() % 100;
    let time = draws.draw() % 1000;
    match kind {
        0 => {
            push_word("login u", user, text)?;
            push_word(" ", time, text)?;
        }
        1 => push_word("logout u", user, text)?,
        2 => push_word("seen u", user, text)?,
        _ => text.push_str("crowd")?,
    }
    text.push_str("\n")?;
    Ok(())
}

/// Appends a text and a number.
fn push_word(front: &str, number: u32, text: &mut String) -> Result<(), NoMemory>
    requires { length front.now ≤ 8 }
    ensures text { OnOk result
        (string_bytes text.new ≡ string_bytes text.old ++ front.now ++ decimal number) }
    ensures len { string_len text.new ≤ string_len text.old + length front.now + 10 }
{
    let mut buffer = Buffer::new();
    text.push_str(front)?;
    text.push_str(buffer.format(number))?;
    Ok(())
}
