// The lines that tell who waits for whom.

ghost use Rattle.std.specs.Prelude.{◌≡◌, ◌<◌, ◌++◌, ◌&&◌, IfOk, OnOk, length, codes, decimal};
ghost use Rattle.std.specs.Prelude.{string_bytes};
ghost use Rattle.std.specs.List.{flat_map};
ghost use Rattle.session_values.specs.Kinds.{is_keyed};
ghost use Rattle.refusal_places.specs.Spots as places;
ghost use Rattle.waiting_pairs.specs.Lines as spec;

use crate::asked::Asked;
use crate::naming::{handler_name, named, push_arg, push_symbol};
use crate::waiting::Wait;
use itoa::Buffer;
use refusal_places::{Spot, byte_spot, column_of};
use serve_reading::Program;
use session_values::{Names, NoMemory};
use std::alloc::Global;

/// What stands above the lines: what their columns are.
const HEAD: &str =
    "# waits, operation, for, point, may call, keys: over paths of the text, not over runs\n";

/// Appends the line and the column of a place.
fn push_spot(out: &mut String, spot: &Spot<'_>) -> Result<(), NoMemory>
    requires { length spot.now.front.now < 4294967296 }
    ensures { OnOk result (string_bytes out.new ≡ string_bytes out.old ++ codes ":"
        ++ decimal spot.now.line ++ codes ":" ++ decimal (places.column_of spot.now.front.now)) }
{
    let mut buffer = Buffer::new();
    out.push_str(":")?;
    out.push_str(buffer.format(spot.line))?;
    out.push_str(":")?;
    out.push_str(buffer.format(column_of(spot.front)))?;
    Ok(())
}

/// Appends a name with the line and the column of a byte.
fn push_placed(out: &mut String, name: &str, text: &[u8], at: u32) -> Result<(), NoMemory>
    requires { length text.now < 4294967296 }
    ensures { OnOk result (string_bytes out.new ≡ string_bytes out.old
        ++ spec.placed name.now (places.byte_spot text.now at)) }
{
    out.push_str(name)?;
    match byte_spot(text, at) {
        Some(spot) => push_spot(out, &spot),
        None => Ok(()),
    }
}

/// Appends the operation that waits.
fn push_waiter(
    out: &mut String,
    program: &Program,
    names: &Names,
    text: &[u8],
    asked: &Asked,
) -> Result<(), NoMemory>
    requires { length text.now < 4294967296 }
    ensures { OnOk result (string_bytes out.new ≡ string_bytes out.old
        ++ spec.waiter_words names.now program.now.file text.now asked.now) }
{
    let name = named(names, handler_name(program, asked.handler));
    push_placed(out, name, text, asked.at)?;
    out.push_str("\t")?;
    push_symbol(out, program, names, asked.handler, &asked.op)?;
    out.push_str("\t")?;
    Ok(())
}

/// Appends what is waited for.
fn push_holder(
    out: &mut String,
    program: &Program,
    names: &Names,
    wait: &Wait,
) -> Result<(), NoMemory>
    ensures { OnOk result (string_bytes out.new ≡ string_bytes out.old
        ++ spec.holder_words names.now program.now.file wait.now) }
{
    let name = named(names, handler_name(program, wait.holder));
    out.push_str(name)?;
    out.push_str("\t")?;
    let mut buffer = Buffer::new();
    out.push_str(buffer.format(wait.point))?;
    out.push_str("\t")?;
    push_symbol(out, program, names, wait.holder, &wait.symbol)?;
    out.push_str("\t")?;
    Ok(())
}

/// Appends which arguments are equal, to the end of the line.
fn push_keys(
    out: &mut String,
    program: &Program,
    names: &Names,
    wait: &Wait,
) -> Result<(), NoMemory>
    ensures { OnOk result (string_bytes out.new ≡ string_bytes out.old
        ++ spec.key_words names.now program.now.file wait.now) }
{
    if wait.asked.op.kind.is_keyed() && wait.symbol.kind.is_keyed() {
        push_arg(out, program, names, wait.asked.handler, wait.asked.op.key())?;
        out.push_str(" = ")?;
        push_arg(out, program, names, wait.holder, wait.symbol.key())?;
        out.push_str("\n")?;
        Ok(())
    } else {
        out.push_str("any key\n")?;
        Ok(())
    }
}

/// Appends a line.
fn push_wait(
    out: &mut String,
    program: &Program,
    names: &Names,
    text: &[u8],
    wait: &Wait,
) -> Result<(), NoMemory>
    requires { length text.now < 4294967296 }
    ensures { OnOk result (string_bytes out.new ≡ string_bytes out.old
        ++ spec.line names.now program.now.file text.now wait.now) }
{
    push_waiter(out, program, names, text, &wait.asked)?;
    push_holder(out, program, names, wait)?;
    push_keys(out, program, names, wait)
}

/// The lines that tell who waits for whom, of handlers with this text, below one that names the
/// columns.
pub fn wait_lines(
    alloc: Global,
    program: &Program,
    names: &Names,
    text: &[u8],
    waits: &[Wait],
) -> Result<Vec<u8>, NoMemory>
    requires { length text.now < 4294967296 }
    ensures { IfOk result (λ lines. lines.items
        ≡ spec.lines names.now program.now.file text.now waits.now) }
{
    let mut out = String::new(alloc);
    out.push_str(HEAD)?;
    for wait in waits {
        push_wait(&mut out, program, names, text, wait)?;
    }
    Ok(out.into_bytes())
}
