// The lines that operations write.

ghost use Rattle.std.specs.Prelude.{◌≡◌, ◌++◌, codes, OnOk};
ghost use Rattle.std.specs.Fmt.{decimal};
ghost use Rattle.session_values.specs.ReplyText.{value_text};
ghost use Rattle.range_tables.specs.Session as spec;

use itoa::Buffer;
use session_values::{Names, NoMemory, Value};

/// Appends a text.
fn push(out: &mut Vec<u8>, text: &[u8]) -> Result<(), NoMemory>
    ensures { OnOk result (out.new.items ≡ out.old.items ++ text.now) }
{
    out.extend_from_slice(text)?;
    Ok(())
}

/// Appends a number.
fn push_number(out: &mut Vec<u8>, n: u64) -> Result<(), NoMemory>
    ensures { OnOk result (out.new.items ≡ out.old.items ++ decimal n) }
{
    let mut buffer = Buffer::new();
    push(out, buffer.format(n).as_bytes())
}

/// Appends the text of a value, a symbol without a quote.
fn push_value(out: &mut Vec<u8>, value: Value, names: &Names) -> Result<(), NoMemory>
    ensures { OnOk result (out.new.items ≡ out.old.items ++ value_text names.now value) }
{
    match value {
        Value::Nil => push(out, b"nil"),
        Value::Num(n) => {
            let mut buffer = Buffer::new();
            push(out, buffer.format(n).as_bytes())
        }
        Value::Sym(place) => {
            if place < names.len() {
                push(out, names.text(place).as_bytes())
            } else {
                Ok(())
            }
        }
    }
}

/// Appends the line of an operation that was done: its number and its reply.
#[tactic(auto, using(crate::proofs::Texts::of_four), unfolding(crate::specs::Session::reply_text))]
pub(crate) fn push_reply(
    out: &mut Vec<u8>,
    asked: u32,
    reply: Value,
    names: &Names,
) -> Result<(), NoMemory>
    ensures { OnOk result (out.new.items
        ≡ out.old.items ++ spec.reply_text names.now asked reply) }
{
    push_number(out, u64::from(asked))?;
    push(out, b" ")?;
    push_value(out, reply, names)?;
    push(out, b"\n")?;
    Ok(())
}

/// Appends the line of an operation that is delayed: its number, the hold and the symbol.
#[tactic(auto, using(crate::proofs::Texts::of_six), unfolding(crate::specs::Session::delay_text))]
pub(crate) fn push_delay(
    out: &mut Vec<u8>,
    asked: u32,
    hold: usize,
    symbol: usize,
) -> Result<(), NoMemory>
    ensures { OnOk result (out.new.items
        ≡ out.old.items ++ spec.delay_text asked hold symbol) }
{
    push_number(out, u64::from(asked))?;
    push(out, b" delayed ")?;
    push_number(out, hold as u64)?;
    push(out, b" ")?;
    push_number(out, symbol as u64)?;
    push(out, b"\n")?;
    Ok(())
}
