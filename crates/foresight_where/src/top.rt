// The top call.

ghost use Rattle.std.specs.Prelude.{◌≤◌, map, length, string_bytes};
ghost use Rattle.byte_ends.specs.Changes.{change};
ghost use Rattle.foresight_where.specs.Endings.{most};
ghost use Rattle.foresight_where.specs.Runs.{EndsWithLine, Runs, RunsAlone, RunsBefore, Places, PlacesIn};

use crate::asking::Asked;
use crate::choosing::cut_input;
use crate::ending::Ending;
use crate::reading::{read_bytes, read_file};
use crate::showing::{show, show_rules, show_version};
use byte_ends::{Sink, Source, write_all};
use refusal_advice::Form;
use refusal_places::needs_file;
use standard_streams::OpensFiles;
use std::alloc::Global;

/// All that the program does: `words` are those after the program's name. It reads an input from
/// `source` and, where its first refusal needs it, the file with the name that is the last word; it
/// writes the input to `out`, with what is told of that refusal in place of its line, or as it is,
/// or what is told of it as JSON, or the table of rules or the version, and one line to `err` where
/// none of these is written. Its promises stand by name in `specs/Runs.antt`.
pub(crate) fn run<I: Source, F: OpensFiles, O: Sink, E: Sink>(
    alloc: Global,
    words: &[String],
    source: &mut I,
    files: &mut F,
    out: &mut O,
    err: &mut E,
) -> Ending
    ensures runs { Runs (map string_bytes words.now) (change I.left I.faults source.old source.new)
        (change F.left F.faults files.old files.new) (F.bytes_of files.old)
        (change O.held O.faults out.old out.new) result }
    ensures line { EndsWithLine (change E.held E.faults err.old err.new) result }
{
    let ending = answer(alloc, words, source, files, out);
    tell(ending, err);
    ending
}

// What is done for these words.
fn answer<I: Source, F: OpensFiles, O: Sink>(
    alloc: Global,
    words: &[String],
    source: &mut I,
    files: &mut F,
    out: &mut O,
) -> Ending
    ensures { Runs (map string_bytes words.now) (change I.left I.faults source.old source.new)
        (change F.left F.faults files.old files.new) (F.bytes_of files.old)
        (change O.held O.faults out.old out.new) result }
{
    match words {
        [word] => alone(alloc, word.as_str(), source, files, out),
        [word, name] => before(alloc, word.as_str(), name.as_str(), source, files, out),
        _ => Ending::Usage,
    }
}

// What is done for one word.
fn alone<I: Source, F: OpensFiles, O: Sink>(
    alloc: Global,
    word: &str,
    source: &mut I,
    files: &mut F,
    out: &mut O,
) -> Ending
    ensures { RunsAlone word.now (change I.left I.faults source.old source.new)
        (change F.left F.faults files.old files.new) (F.bytes_of files.old word.now)
        (change O.held O.faults out.old out.new) result }
{
    if word == "--rules" {
        show_rules(alloc, out)
    } else if word == "--version" {
        show_version(out)
    } else if word == "--json" {
        Ending::Usage
    } else {
        let asked = Asked {
            form: Form::Text,
            name: word,
        };
        place(alloc, asked, source, files, out)
    }
}

// What is done for a word before a file's name.
fn before<I: Source, F: OpensFiles, O: Sink>(
    alloc: Global,
    word: &str,
    name: &str,
    source: &mut I,
    files: &mut F,
    out: &mut O,
) -> Ending
    ensures { RunsBefore word.now name.now (change I.left I.faults source.old source.new)
        (change F.left F.faults files.old files.new) (F.bytes_of files.old name.now)
        (change O.held O.faults out.old out.new) result }
{
    if word == "--json" {
        let form = Form::Json;
        place(alloc, Asked { form, name }, source, files, out)
    } else {
        Ending::Usage
    }
}

// Shows the place that the first refusal of the input names in the file that is asked for.
fn place<I: Source, F: OpensFiles, O: Sink>(
    alloc: Global,
    asked: Asked<'_>,
    source: &mut I,
    files: &mut F,
    out: &mut O,
) -> Ending
    ensures { Places asked.entry.form asked.entry.name.now
        (change I.left I.faults source.old source.new)
        (change F.left F.faults files.old files.new) (F.bytes_of files.old asked.entry.name.now)
        (change O.held O.faults out.old out.new) result }
{
    match read_bytes(alloc, source) {
        Ok(input) => place_in(alloc, asked, &input, files, out),
        Err(ending) => ending,
    }
}

// Shows the place in the file with this name that the first refusal among these bytes names. The
// file is read only where that needs it.
fn place_in<F: OpensFiles, O: Sink>(
    alloc: Global,
    asked: Asked<'_>,
    input: &[u8],
    files: &mut F,
    out: &mut O,
) -> Ending
    requires { length input.now ≤ most }
    ensures { PlacesIn asked.entry.form asked.entry.name.now input.now
        (change F.left F.faults files.old files.new) (F.bytes_of files.old asked.entry.name.now)
        (change O.held O.faults out.old out.new) result }
{
    let cut = cut_input(input);
    if !needs_file(cut.line) {
        return show(alloc, asked, &[], input, &cut, out);
    }
    match read_file(alloc, asked.name, files) {
        Ok(file) => show(alloc, asked, &file, input, &cut, out),
        Err(ending) => ending,
    }
}

/// Writes the line that tells how a run ended, as far as `err` takes it.
pub(crate) fn tell<E: Sink>(ending: Ending, err: &mut E)
    ensures { EndsWithLine (change E.held E.faults err.old err.new) ending }
{
    let _told = write_all(err, ending.line().as_bytes());
}
