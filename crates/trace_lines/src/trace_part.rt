// The events of a trace part.

ghost use Rattle.std.specs.Prelude.{◌≡◌, ◌≢◌, ◌+◌, ◌<◌, ◌≤◌, ◌++◌, ◌∷◌, [], length, map, vec_capacity, List, Some, None, IfOk, IfSome, OnOk};
ghost use Rattle.session_values.specs.Names.{Begins};
ghost use Rattle.session_journal.specs.declared.event.Event.{Event as SpecEvent};
ghost use Rattle.text_lines.specs.Rows.{Row, row_of, rows as rows_of};
ghost use Rattle.text_lines.specs.Text.{Text, lines as lines_of, words as words_of};
ghost use Rattle.session_journal.specs.Traces.{HasKnownSymbol, max_events};
ghost use Rattle.trace_lines.specs.EventRows as spec;
ghost use Rattle.trace_lines.specs.EventWords.{event_of};
ghost use Rattle.trace_lines.specs.Placing.{max_words};
ghost use Rattle.trace_lines.specs.Pushing.{IsPushed};

use crate::event_words::event;
use crate::front::Tables;
use crate::numbered_line::NumberedLine;
use crate::refusal::TraceRefusal;
use crate::words::{MAX_WORDS, Word, take_words};
use session_journal::{Event, MAX_EVENTS, Trace};
use session_values::{Names, NoMemory, TableKind};
use std::alloc::Global;
use text_lines::{Line, Lines};

/// Adds an event.
fn push(trace: &mut Trace, e: Event, line: u32) -> Result<(), TraceRefusal>
    requires room { length trace.old.events < max_events }
    requires known { HasKnownSymbol e }
    ensures pushed { IfOk result (λ _. trace.new ≡ record {
      events = trace.old.events ++ e ∷ [];
      lines = trace.old.lines ++ line ∷ [];
    }) }
    ensures refused { (x : _) → result ≡ Err x → x ≡ TraceRefusal.NoMemory }
{
    match trace.push(e, line) {
        Ok(()) => Ok(()),
        Err(_) => Err(TraceRefusal::NoMemory),
    }
}

/// The event of a line with this first word. The symbols among the other words are placed.
fn read_event<'a>(
    word: &str,
    line: Line<'a>,
    tables: Tables<'_>,
    names: &mut Names,
    words: &mut Vec<Word<'a>>,
) -> Result<Option<Event>, NoMemory>
    requires known { spec.AreKnown names.old tables.places.now }
    requires room { length names.old + length (words_of line.rest.now) ≤ 4294967295 }
    requires kept { max_words ≤ vec_capacity words.old }
    // More names change nothing of it.
    ensures event { IfOk result (λ e. (later : List Text) → Begins names.new later
        → e ≡ event_of later tables.entry.places.now tables.entry.kinds.now
        (word.now ∷ words_of line.entry.rest.now)) }
    ensures known { IfOk result (λ e. IfSome e HasKnownSymbol) }
    ensures names { IfOk result (λ e. IfSome e (λ _. names.new
        ≡ spec.placed_literals names.old (words_of line.entry.rest.now))) }
    ensures kept { Begins names.old names.new }
    ensures more { length names.new ≤ length names.old + length (words_of line.entry.rest.now) }
    ensures capacity { vec_capacity words.new ≡ vec_capacity words.old }
{
    take_words(line, names, words)?;
    if words.len() >= MAX_WORDS {
        return Ok(None);
    }
    Ok(event(word, words.as_slice(), tables, names))
}

/// Adds the event of a line behind the others, or says why there is none.
fn take_line<'a>(
    trace: &mut Trace,
    line: NumberedLine<'a>,
    tables: Tables<'_>,
    names: &mut Names,
    kept: &mut Vec<Word<'a>>,
) -> Result<(), TraceRefusal>
    requires known { spec.AreKnown names.old tables.places.now }
    requires room { length names.old + length (words_of line.words.rest.now) ≤ 4294967295 }
    requires kept { max_words ≤ vec_capacity kept.old }
    ensures fine { OnOk result (spec.event_fault names.old tables.entry.places.now
        tables.entry.kinds.now (length trace.old.events)
        (row_of line.entry.number line.entry.word.now (words_of line.entry.words.rest.now))
        ≡ None) }
    // More names change nothing of it.
    ensures pushed { OnOk result ((later : List Text) → Begins names.new later
        → IsPushed later tables.entry.places.now tables.entry.kinds.now
        (row_of line.entry.number line.entry.word.now (words_of line.entry.words.rest.now))
        trace.old trace.new) }
    ensures names { OnOk result (names.new
        ≡ spec.placed_literals names.old (words_of line.entry.words.rest.now)) }
    ensures kept { Begins names.old names.new }
    ensures more { length names.new
        ≤ length names.old + length (words_of line.entry.words.rest.now) }
    ensures capacity { vec_capacity kept.new ≡ vec_capacity kept.old }
    ensures refused { (e : _) → result ≡ Err e → e ≢ TraceRefusal.NoMemory →
        spec.event_fault names.old tables.entry.places.now tables.entry.kinds.now
        (length trace.old.events)
        (row_of line.entry.number line.entry.word.now (words_of line.entry.words.rest.now))
        ≡ Some e }
{
    let seen = trace.events().len();
    if seen >= MAX_EVENTS {
        return Err(TraceRefusal::TooManyEvents { line: line.number });
    }
    match read_event(line.word, line.words, tables, names, kept) {
        Ok(Some(e)) => push(trace, e, line.number),
        Ok(None) => Err(TraceRefusal::BadEvent { line: line.number }),
        Err(_) => Err(TraceRefusal::NoMemory),
    }
}

/// The events of lines, or the first fault among them.
fn events_of(
    alloc: Global,
    tables: Tables<'_>,
    text: &str,
    first: u32,
    names: &mut Names,
) -> Result<Trace, TraceRefusal>
    requires known { spec.AreKnown names.old tables.places.now }
    requires lines { first + length text.now ≤ 4294967295 }
    requires names { length names.old + length text.now ≤ 4294967295 }
    ensures fine { IfOk result (λ _. spec.first_event_fault names.old tables.entry.places.now
        tables.entry.kinds.now 0 (rows_of first (lines_of text.now)) ≡ None) }
    ensures names { IfOk result (λ _. names.new
        ≡ spec.names_after names.old (rows_of first (lines_of text.now))) }
    ensures events { IfOk result (λ trace. map (spec.row_event names.new tables.entry.places.now
        tables.entry.kinds.now) (rows_of first (lines_of text.now))
        ≡ map (λ (e : SpecEvent). Some e) trace.events) }
    ensures lines { IfOk result (λ trace. trace.lines
        ≡ map (λ (r : Row). r.line) (rows_of first (lines_of text.now))) }
    ensures refused { (e : _) → result ≡ Err e → e ≢ TraceRefusal.NoMemory →
        spec.first_event_fault names.old tables.entry.places.now tables.entry.kinds.now 0
        (rows_of first (lines_of text.now)) ≡ Some e }
    ensures kept { Begins names.old names.new }
    ensures room { length names.new ≤ length names.old + length text.now }
{
    let mut trace = Trace::new(alloc);
    let Ok(mut kept) = Vec::with_capacity(alloc, MAX_WORDS) else {
        return Err(TraceRefusal::NoMemory);
    };
    let mut lines = Lines::over(text, first);
    'lines: while let Some((number, line)) = lines.next() {
        let mut words = line;
        if let Some(word) = words.next() {
            let numbered = NumberedLine {
                number,
                word,
                words,
            };
            match take_line(&mut trace, numbered, tables, names, &mut kept) {
                Ok(()) => {}
                Err(e) => return Err(e),
            }
        }
    }
    Ok(trace)
}

/// The events of a text's lines, whose first line has the number `first`. Tables go by their names,
/// whose places in the list of names these are, in the order of their numbers, and are of these
/// kinds. The symbols among the events are placed behind the names that are there.
pub fn read_trace(
    alloc: Global,
    tables: &[u32],
    shape: &[TableKind],
    text: &str,
    first: u32,
    names: &mut Names,
) -> Result<Trace, TraceRefusal>
    requires tables { spec.AreKnown names.old tables.now }
    requires lines { first + length text.now ≤ 4294967295 }
    requires names { length names.old + length text.now ≤ 4294967295 }
    ensures ok { IfOk result (λ trace. spec.IsTrace names.old names.new tables.now shape.now
        (rows_of first (lines_of text.now)) trace) }
    ensures refused { (e : _) → result ≡ Err e → e ≢ TraceRefusal.NoMemory →
        spec.first_event_fault names.old tables.now shape.now 0
        (rows_of first (lines_of text.now)) ≡ Some e }
    ensures kept { Begins names.old names.new }
    // As many new names as bytes that were read, at most.
    ensures room { length names.new ≤ length names.old + length text.now }
{
    if u32::try_from(tables.len()).is_err() {
        return Err(TraceRefusal::NoMemory);
    }
    let tables = Tables {
        places: tables,
        kinds: shape,
    };
    events_of(alloc, tables, text, first, names)
}
