// The JSON that tells who waits for whom.

ghost use Rattle.std.specs.Prelude.{◌≡◌, ◌<◌, [], ◌∷◌, ◌++◌, false, IfOk, length, map};
ghost use Rattle.serde_json.specs.Data.{array};
ghost use Rattle.serde_json.specs.View.{items_of, view};
ghost use Rattle.serde_json.specs.Written.{compact_text, items_have_float};
ghost use Rattle.refusal_places.specs.Spots as places;
ghost use Rattle.waiting_pairs.specs.Json as spec;

use crate::naming::{arg_text, handler_name, named, symbol_text};
use crate::waiting::Wait;
use refusal_places::{byte_spot, column_of};
use serde_json::{Value, json};
use serve_reading::Program;
use session_values::{Names, NoMemory};
use std::alloc::{AllocError, Global};

/// What a wait's object holds beside its keys.
#[derive(Clone, Copy)]
struct Parts<'a> {
    /// The handler that waits.
    waits: &'a str,
    /// Its operation.
    operation: &'a str,
    /// The operation's line, from 1.
    line: Option<u64>,
    /// Its column, from 1.
    column: Option<u64>,
    /// The handler that is waited for.
    holder: &'a str,
    /// A point of it.
    point: u32,
    /// What may still be called from there on.
    may_call: &'a str,
}

/// The line of a byte.
fn line_number(text: &[u8], at: u32) -> Option<u64>
    requires { length text.now < 4294967296 }
    ensures { result ≡ spec.line_of (places.byte_spot text.now at) }
{
    match byte_spot(text, at) {
        Some(spot) => Some(spot.line),
        None => None,
    }
}

/// The column of a byte.
fn column_number(text: &[u8], at: u32) -> Option<u64>
    requires { length text.now < 4294967296 }
    ensures { result ≡ spec.column_at (places.byte_spot text.now at) }
{
    match byte_spot(text, at) {
        Some(spot) => Some(column_of(spot.front)),
        None => None,
    }
}

/// A count, or null.
fn count_value(count: Option<u64>) -> Value
    ensures { view result ≡ spec.count_value count }
{
    match count {
        Some(n) => Value::from(n),
        None => Value::Null,
    }
}

/// The arguments that are equal where it waits; none where any delays.
fn keys_value(
    alloc: Global,
    program: &Program,
    names: &Names,
    wait: &Wait,
) -> Result<Value, NoMemory>
    ensures { IfOk result (λ v. view v
        ≡ spec.keys_value names.now program.now.file wait.now) }
{
    if wait.asked.op.kind.is_keyed() && wait.symbol.kind.is_keyed() {
        let own = arg_text(
            alloc,
            program,
            names,
            wait.asked.handler,
            wait.asked.op.key(),
        )?;
        let held = arg_text(alloc, program, names, wait.holder, wait.symbol.key())?;
        Ok(json!(in alloc; [&own, &held])?)
    } else {
        Ok(json!(in alloc; [])?)
    }
}

/// The object of a wait with these parts.
fn object(alloc: Global, parts: &Parts<'_>, keys: Value) -> Result<Value, AllocError>
    ensures { IfOk result (λ v. view v ≡ spec.parts_value parts.now.waits.now
        parts.now.operation.now parts.now.line parts.now.column parts.now.holder.now
        parts.now.point parts.now.may_call.now (view keys)) }
{
    json!(in alloc; {
        "waits": parts.waits,
        "operation": parts.operation,
        "line": count_value(parts.line),
        "column": count_value(parts.column),
        "for": parts.holder,
        "point": parts.point,
        "may_call": parts.may_call,
        "keys": keys
    })
}

/// The object of a wait.
fn wait_value(
    alloc: Global,
    program: &Program,
    names: &Names,
    text: &[u8],
    wait: &Wait,
) -> Result<Value, NoMemory>
    requires { length text.now < 4294967296 }
    ensures { IfOk result (λ v. view v
        ≡ spec.wait_value names.now program.now.file text.now wait.now) }
{
    let asked = &wait.asked;
    let operation = symbol_text(alloc, program, names, asked.handler, &asked.op)?;
    let may_call = symbol_text(alloc, program, names, wait.holder, &wait.symbol)?;
    let keys = keys_value(alloc, program, names, wait)?;
    let parts = Parts {
        waits: named(names, handler_name(program, asked.handler)),
        operation: operation.as_str(),
        line: line_number(text, asked.at),
        column: column_number(text, asked.at),
        holder: named(names, handler_name(program, wait.holder)),
        point: wait.point,
        may_call: may_call.as_str(),
    };
    Ok(object(alloc, &parts, keys)?)
}

/// The objects of waits, in the same order.
fn wait_values(
    alloc: Global,
    program: &Program,
    names: &Names,
    text: &[u8],
    waits: &[Wait],
) -> Result<Vec<Value>, NoMemory>
    requires { length text.now < 4294967296 }
    ensures { IfOk result (λ values. map view values.items
        ≡ map (spec.wait_value names.now program.now.file text.now) waits.now) }
{
    let mut values = Vec::new(alloc);
    for wait in waits {
        values.push(wait_value(alloc, program, names, text, wait)?)?;
    }
    Ok(values)
}

/// The text of a list of JSON values without a fraction, and a line feed.
fn list_text(alloc: Global, values: Vec<Value>) -> Result<Vec<u8>, NoMemory>
    ensures { IfOk result (λ text. items_have_float (items_of (map view values.items)) ≡ false
        → text.items ≡ compact_text (array (items_of (map view values.items))) ++ 10 ∷ []) }
{
    let mut text = Value::Array(values).to_vec(alloc)?;
    text.push(b'\n')?;
    Ok(text)
}

/// The JSON that tells who waits for whom, of handlers with this text: an array with an object for
/// each wait, and a line feed.
pub fn wait_json(
    alloc: Global,
    program: &Program,
    names: &Names,
    text: &[u8],
    waits: &[Wait],
) -> Result<Vec<u8>, NoMemory>
    requires { length text.now < 4294967296 }
    ensures { IfOk result (λ json. json.items
        ≡ spec.json names.now program.now.file text.now waits.now) }
{
    let values = wait_values(alloc, program, names, text, waits)?;
    list_text(alloc, values)
}
