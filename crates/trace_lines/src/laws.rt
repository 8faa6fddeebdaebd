//! Laws of the lines of traces: what is written of an event reads back, and what is read is what
//! is written.

ghost use Rattle.std.specs.Prelude.{◌≡◌, ℕ, ◌≤◌, List, None, Some, length, map};
ghost use Rattle.std.specs.List.{AllByRecursion};
ghost use Rattle.session_values.specs.Names.{AreDistinct};
ghost use Rattle.session_values.specs.declared.kind.TableKind.{TableKind};
ghost use Rattle.text_lines.specs.Rows.{rows};
ghost use Rattle.text_lines.specs.Text.{lines, words};
ghost use Rattle.text_lines.specs.Words.{IsWord};
ghost use Rattle.session_journal.specs.Script.{Meaning};
ghost use Rattle.session_journal.specs.Accepted.{Accepted};
ghost use Rattle.session_journal.specs.Traces.{TraceView, max_events};
ghost use Rattle.trace_lines.specs.EventRows.{IsTrace, first_event_fault};
ghost use Rattle.trace_lines.specs.EventText.{event_words, events_text};
ghost use Rattle.trace_lines.specs.EventWords.{IsPlain, IsReadableEvent, IsTableName, as_read, event_of, table_names};

use session_journal::Event;

/// The words of an event are this event again, with Any for each argument of a symbol that was
/// written as `any`.
pub fn event_reads_back()
    ensures { (names : List (List ℕ)) (tables : List ℕ) (shape : List TableKind) (e : Event)
        → AreDistinct names → AreDistinct (table_names names tables)
        → IsReadableEvent names tables shape e
        → event_of names tables shape (event_words names tables e) ≡ Some (as_read names e) }
{}

/// Words that are an event are those that are written of it, where each number among them is written
/// as its decimal text and each symbol's text is among the names.
pub fn event_is_written_again()
    ensures { (names : List (List ℕ)) (tables : List ℕ) (shape : List TableKind)
        (ws : List (List ℕ)) (e : Event) → length shape ≡ length tables
        → AllByRecursion (IsPlain names) ws → event_of names tables shape ws ≡ Some e
        → event_words names tables e ≡ ws }
{}

/// The lines of some events are these events again, in their order, where the tables' names are
/// words.
pub fn events_read_back()
    ensures { (names : List (List ℕ)) (tables : List ℕ) (shape : List TableKind)
        (es : List Event) → AreDistinct names → AreDistinct (table_names names tables)
        → AllByRecursion IsWord (table_names names tables)
        → AllByRecursion (IsReadableEvent names tables shape) es
        → map (event_of names tables shape) (map words (lines (events_text names tables es)))
        ≡ map Some (map (as_read names) es) }
{}

/// What is read from the lines of some events is a trace of these events, with Any for each argument
/// of a symbol that was written as `any`; and no name is new.
pub fn traces_read_back()
    ensures events { (names new : List (List ℕ)) (tables : List ℕ) (shape : List TableKind) (n : ℕ)
        (es : List Event) (trace : TraceView) → AreDistinct names
        → AreDistinct (table_names names tables)
        → AllByRecursion IsTableName (table_names names tables)
        → AllByRecursion (IsReadableEvent names tables shape) es
        → IsTrace names new tables shape (rows n (lines (events_text names tables es))) trace
        → (trace.events ≡ map (as_read names) es) × (new ≡ names) }
    // Nor have these lines a fault, where they are few enough.
    ensures fine { (names : List (List ℕ)) (tables : List ℕ) (shape : List TableKind) (n : ℕ)
        (es : List Event) → AreDistinct names → AreDistinct (table_names names tables)
        → AllByRecursion IsTableName (table_names names tables)
        → AllByRecursion (IsReadableEvent names tables shape) es → length es ≤ max_events
        → first_event_fault names tables shape 0 (rows n (lines (events_text names tables es)))
        ≡ None }
{}

/// What is read of an accepted list of events is accepted too: what stands for more commutes with
/// less.
pub fn accepted_as_read()
    ensures { (names : List (List ℕ)) (m : Meaning) (J : List Event) → Accepted m J
        → Accepted m (map (as_read names) J) }
{}
