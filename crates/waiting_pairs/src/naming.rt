// The words in which names, arguments and symbols are told.

ghost use Rattle.std.specs.Prelude.{◌≡◌, ◌++◌, IfOk, OnOk, slice_get, string_bytes};
ghost use Rattle.serve_reading.specs.Resolved.{table_names, variables_at};
ghost use Rattle.waiting_pairs.specs.Lines as spec;

use itoa::Buffer;
use serve_reading::Program;
use session_values::{Names, NoMemory, Value};
use std::alloc::Global;
use symbolic_ops::{Arg, Symbol};

/// The name of a table.
fn table_name(program: &Program, table: u32) -> Option<u32>
    ensures { result ≡ slice_get (table_names program.now.file) table }
{
    let tables = &program.checked().file().tables;
    if table < tables.len() {
        Some(tables.get(table).name)
    } else {
        None
    }
}

/// The name of a handler.
pub fn handler_name(program: &Program, handler: u32) -> Option<u32>
    ensures { result ≡ slice_get (spec.handler_names program.now.file) handler }
{
    let handlers = &program.checked().file().handlers;
    if handler < handlers.len() {
        Some(handlers.get(handler).name)
    } else {
        None
    }
}

/// The name of a variable of a handler.
fn variable_name(program: &Program, handler: u32, variable: u32) -> Option<u32>
    ensures { result ≡ slice_get (variables_at program.now.file handler) variable }
{
    let checked = program.checked();
    if handler >= checked.handlers() {
        return None;
    }
    let variables = &checked.handler(handler).variables;
    if variable < variables.len() {
        Some(*variables.get(variable))
    } else {
        None
    }
}

/// The text of a name; nothing where there is none.
pub fn named(names: &Names, place: Option<u32>) -> &str
    ensures { result.now ≡ spec.named names.now place }
{
    match place {
        Some(place) => {
            if place < names.len() {
                names.text(place)
            } else {
                ""
            }
        }
        None => "",
    }
}

/// Appends a literal.
fn push_literal(out: &mut String, names: &Names, value: Value) -> Result<(), NoMemory>
    ensures { OnOk result (string_bytes out.new ≡ string_bytes out.old
        ++ spec.literal_word names.now value) }
{
    match value {
        Value::Nil => {
            out.push_str("nil")?;
            Ok(())
        }
        Value::Num(n) => {
            let mut buffer = Buffer::new();
            out.push_str(buffer.format(n))?;
            Ok(())
        }
        Value::Sym(place) => {
            out.push_str("'")?;
            out.push_str(named(names, Some(place)))?;
            Ok(())
        }
    }
}

/// Appends an argument of a handler's symbol.
pub(crate) fn push_arg(
    out: &mut String,
    program: &Program,
    names: &Names,
    handler: u32,
    arg: Arg,
) -> Result<(), NoMemory>
    ensures { OnOk result (string_bytes out.new ≡ string_bytes out.old
        ++ spec.arg_word names.now (variables_at program.now.file handler) arg) }
{
    match arg {
        Arg::Known(value) => push_literal(out, names, value),
        Arg::Var(x) => {
            let name = named(names, variable_name(program, handler, x));
            out.push_str(name)?;
            Ok(())
        }
        Arg::Any => {
            out.push_str("any")?;
            Ok(())
        }
    }
}

/// Appends a comma, a space and the argument, if the operation has it.
fn push_further(
    out: &mut String,
    program: &Program,
    names: &Names,
    handler: u32,
    has: bool,
    arg: Arg,
) -> Result<(), NoMemory>
    ensures { OnOk result (string_bytes out.new ≡ string_bytes out.old
        ++ spec.further names.now (variables_at program.now.file handler) has arg) }
{
    if has {
        out.push_str(", ")?;
        push_arg(out, program, names, handler, arg)
    } else {
        Ok(())
    }
}

/// Appends a symbol of a handler.
pub fn push_symbol(
    out: &mut String,
    program: &Program,
    names: &Names,
    handler: u32,
    s: &Symbol,
) -> Result<(), NoMemory>
    ensures { OnOk result (string_bytes out.new ≡ string_bytes out.old
        ++ spec.symbol_words names.now program.now.file handler s.now) }
{
    out.push_str(s.kind.word())?;
    out.push_str("(")?;
    out.push_str(named(names, table_name(program, s.table)))?;
    let count = s.kind.arguments();
    push_further(out, program, names, handler, 0 < count, s.key())?;
    push_further(out, program, names, handler, 1 < count, s.value())?;
    out.push_str(")")?;
    Ok(())
}

/// A symbol of a handler.
pub fn symbol_text(
    alloc: Global,
    program: &Program,
    names: &Names,
    handler: u32,
    s: &Symbol,
) -> Result<String, NoMemory>
    ensures { IfOk result (λ text. string_bytes text
        ≡ spec.symbol_words names.now program.now.file handler s.now) }
{
    let mut out = String::new(alloc);
    push_symbol(&mut out, program, names, handler, s)?;
    Ok(out)
}

/// An argument of a handler's symbol.
pub(crate) fn arg_text(
    alloc: Global,
    program: &Program,
    names: &Names,
    handler: u32,
    arg: Arg,
) -> Result<String, NoMemory>
    ensures { IfOk result (λ text. string_bytes text
        ≡ spec.arg_word names.now (variables_at program.now.file handler) arg) }
{
    let mut out = String::new(alloc);
    push_arg(&mut out, program, names, handler, arg)?;
    Ok(out)
}
