// What is written for a refusal's line.

ghost use Rattle.std.specs.Prelude.{◌≡◌, ◌≢◌, ◌++◌, ◌≤◌, List, ℕ, length};
ghost use Rattle.byte_ends.specs.Changes.{change};
ghost use Rattle.refusal_places.specs.RuleTable.{rules_text};
ghost use Rattle.refusal_advice.specs.declared.explaining.Form.TheVariants as form;
ghost use Rattle.foresight_where.specs.declared.ending.Ending.TheVariants.{NoMemory, Reported};
ghost use Rattle.foresight_where.specs.Chosen.{back_of, front_of, refusal_line};
ghost use Rattle.foresight_where.specs.Endings.{most, version_line};
ghost use Rattle.foresight_where.specs.Runs.{Prints};
ghost use Rattle.foresight_where.specs.Showing.{Shows, Writes};

use crate::asking::Asked;
use crate::choosing::Cut;
use crate::ending::Ending;
use byte_ends::{Sink, write_all};
use refusal_advice::{Form, explain};
use refusal_places::rules_text;
use std::alloc::Global;

/// Tells of the first refusal of an input in the form that is asked for.
pub(crate) fn show<O: Sink>(
    alloc: Global,
    asked: Asked<'_>,
    file: &[u8],
    input: &[u8],
    cut: &Cut<'_>,
    out: &mut O,
) -> Ending
    requires file { length file.now ≤ most }
    requires front { cut.now.front.now ≡ front_of input.now }
    requires line { cut.now.line.now ≡ refusal_line input.now }
    requires back { cut.now.back.now ≡ back_of input.now }
    requires short { length cut.now.line.now ≤ most }
    ensures { Shows asked.entry.form asked.entry.name.now input.now file.now
        (change O.held O.faults out.old out.new) result }
{
    match asked.form {
        Form::Text => show_text(alloc, asked.name, file, input, cut, out),
        Form::Json => show_json(alloc, asked.name, file, cut.line, out),
    }
}

/// Writes what is told of a refusal's line as JSON, or `null` where nothing is.
#[tactic(auto, using(crate::proofs::Writing::shows_json, crate::proofs::Writing::shows_null))]
fn show_json<O: Sink>(alloc: Global, name: &str, file: &[u8], line: &[u8], out: &mut O) -> Ending
    requires file { length file.now ≤ most }
    requires line { length line.now ≤ most }
    ensures { (input : List ℕ) → line.now ≡ refusal_line input
        → Shows form.Json name.now input file.now (change O.held O.faults out.old out.new) result }
{
    match explain(alloc, Form::Json, name, file, line) {
        Ok(Some(text)) => written(out, &text, Ending::Reported),
        Ok(None) => written(out, b"null\n", Ending::HandedOn),
        Err(_) => Ending::NoMemory,
    }
}

/// Writes the input with the text of the place that its first refusal names in place of that line,
/// and behind that what is advised there, or the input as it is.
#[tactic(auto, using(crate::proofs::Writing::shows_told, crate::proofs::Writing::shows_input))]
fn show_text<O: Sink>(
    alloc: Global,
    name: &str,
    file: &[u8],
    input: &[u8],
    cut: &Cut<'_>,
    out: &mut O,
) -> Ending
    requires file { length file.now ≤ most }
    requires front { cut.now.front.now ≡ front_of input.now }
    requires line { cut.now.line.now ≡ refusal_line input.now }
    requires back { cut.now.back.now ≡ back_of input.now }
    requires short { length cut.now.line.now ≤ most }
    ensures { Shows form.Text name.now input.now file.now
        (change O.held O.faults out.old out.new) result }
{
    match explain(alloc, Form::Text, name, file, cut.line) {
        Ok(Some(text)) => write_within(out, cut.front, &text, cut.back),
        Ok(None) => written(out, input, Ending::HandedOn),
        Err(_) => Ending::NoMemory,
    }
}

/// Writes a text between what stands before it and behind it.
fn write_within<O: Sink>(out: &mut O, front: &[u8], text: &[u8], back: &[u8]) -> Ending
    ensures { Writes (front.now ++ (text.now ++ back.now)) Reported
        (change O.held O.faults out.old out.new) result }
{
    if write_all(out, front) {
        write_before(out, text, back)
    } else {
        Ending::WriteFault
    }
}

/// Writes a text and what stands behind it.
fn write_before<O: Sink>(out: &mut O, text: &[u8], back: &[u8]) -> Ending
    ensures { Writes (text.now ++ back.now) Reported (change O.held O.faults out.old out.new) result }
{
    if write_all(out, text) {
        written(out, back, Ending::Reported)
    } else {
        Ending::WriteFault
    }
}

/// Writes all bytes, and tells how that ended.
fn written<O: Sink>(out: &mut O, bytes: &[u8], ending: Ending) -> Ending
    ensures { Writes bytes.now ending (change O.held O.faults out.old out.new) result }
{
    if write_all(out, bytes) {
        ending
    } else {
        Ending::WriteFault
    }
}

/// Writes the table of rules.
pub(crate) fn show_rules<O: Sink>(alloc: Global, out: &mut O) -> Ending
    ensures { Prints rules_text (change O.held O.faults out.old out.new) result }
{
    match rules_text(alloc) {
        Ok(text) => written(out, &text, Ending::Reported),
        Err(_) => Ending::NoMemory,
    }
}

/// Writes the line that tells the program's version.
pub(crate) fn show_version<O: Sink>(out: &mut O) -> Ending
    ensures prints { Prints version_line (change O.held O.faults out.old out.new) result }
    ensures memory { result ≢ NoMemory }
{
    written(out, b"foresight_where 2.1\n", Ending::Reported)
}
