// The text of a program.

ghost use Rattle.std.specs.Prelude.{◌≡◌, IfOk, slice_get, string_bytes};
ghost use Rattle.byte_ends.specs.Texts.{Ends};
ghost use Rattle.handler_check.specs.Resolved.{table_names, variables_at};
ghost use Rattle.syntax_printer.specs.Countable.{IsCountable};
ghost use Rattle.syntax_printer.specs.Lines.{shown_text};
ghost use Rattle.syntax_trees.specs.Mentions.{AreNamed, file_mentions};
ghost use Rattle.declaration_insertion.specs.Program.{declared_at};
ghost use Rattle.declaration_insertion.specs.Shown.{shown_of};

use crate::program::Program;
use byte_ends::TextSink;
use session_values::{Names, NoMemory};
use std::alloc::Global;
use symbolic_ops::Symbol;
use syntax_printer::{Declarations, print_with_declarations, put_with_declarations};

/// The declaration of a point; nothing where there is no such point.
fn symbols_at(program: &Program, handler: u32, point: u32) -> &[Symbol]
    ensures { result.now ≡ declared_at program.now handler point }
{
    let checked = program.checked();
    if handler < checked.handlers() && point < checked.handler(handler).points {
        program.declaration(handler, point)
    } else {
        &[]
    }
}

/// The name of a table.
fn table_name(program: &Program, table: u32) -> Option<u32>
    ensures { result ≡ slice_get (table_names program.now.file) table }
{
    let tables = &program.checked().file().tables;
    if table < tables.len() {
        Some(tables.get(table).name)
    } else {
        None
    }
}

/// The name of a variable of a handler.
fn variable_name(program: &Program, handler: u32, variable: u32) -> Option<u32>
    ensures { result ≡ slice_get (variables_at program.now.file handler) variable }
{
    let checked = program.checked();
    if handler >= checked.handlers() {
        return None;
    }
    let variables = &checked.handler(handler).variables;
    if variable < variables.len() {
        Some(*variables.get(variable))
    } else {
        None
    }
}

impl Declarations for Program {
    ghost use Rattle.declaration_insertion.specs.Shown.{shown_of};

    ghost at_points = { shown_of };

    fn is_shown(&self) -> bool {
        true
    }

    fn symbols(&self, handler: u32, point: u32) -> &[Symbol] {
        symbols_at(self, handler, point)
    }

    fn table(&self, table: u32) -> Option<u32> {
        table_name(self, table)
    }

    fn variable(&self, handler: u32, variable: u32) -> Option<u32> {
        variable_name(self, handler, variable)
    }
}

/// The canonical text with the declarations: a line `mayuse ..;` at each point, and an else part of
/// each `if`. So many bytes are reserved for it ahead; it may be longer.
pub fn show(
    alloc: Global,
    room: usize,
    program: &Program,
    names: &Names,
) -> Result<String, NoMemory>
    requires { AreNamed names.now (file_mentions program.now.file) }
    ensures { IfOk result (λ text. string_bytes text
        ≡ shown_text names.now (shown_of program.now) program.now.file) }
{
    print_with_declarations(alloc, room, program.checked().file(), program, names)
}

/// Puts the same text at a sink.
pub fn put_shown<T: TextSink>(program: &Program, names: &Names, out: &mut T)
    requires named { AreNamed names.now (file_mentions program.now.file) }
    requires countable { IsCountable program.now.file }
    ensures { Ends T.IsDue (shown_text names.now (shown_of program.now) program.now.file)
        out.old out.new }
{
    put_with_declarations(program.checked().file(), program, names, out)
}
