// Laws of the definitions, each the contract of a function with an empty body.

ghost use Rattle.std.specs.Prelude.{◌≡◌, ℕ, List, true};
ghost use Rattle.std.specs.List.{AllByRecursion};
ghost use Rattle.session_journal.specs.Opening.{Pair};
ghost use Rattle.session_values.specs.Serial.{serial_replies, tables_before};
ghost use Rattle.handler_syntax.specs.Language.{File, IsNamedFile};
ghost use Rattle.request_files.specs.declared.request.Request.{Request};
ghost use Rattle.request_files.specs.Requests.{ArePrintable};
ghost use Rattle.request_files.specs.Session.{session};
ghost use Rattle.serve_faults.specs.Answer.{Answer, AreOne, IsAnswer};
ghost use Rattle.serve_faults.specs.Printable.{IsPrintableTable};
ghost use Rattle.table_lines.specs.TableRows.{ArePrintable as ArePrintableEntries};
ghost use Rattle.reply_sheet.specs.Printable.{ArePrintableReplies};
ghost use Rattle.session_journal.specs.declared.event.Event.{Event};
ghost use Rattle.session_values.specs.Dialogue.{Calls};
ghost use Rattle.session_values.specs.Tables.{Fits};
ghost use Rattle.session_values.specs.declared.op.Op.{Op};
ghost use Rattle.session_values.specs.declared.value.Value.{Value};
ghost use Rattle.handler_check.specs.Resolved.{shape_of};
ghost use Rattle.request_files.specs.Values.{is_symbol};
ghost use Rattle.session_journal.specs.Accepted.{Accepted};
ghost use Rattle.session_journal.specs.Bare.{bare_script};
ghost use Rattle.session_journal.specs.Traces.{HasKnownSymbol};
ghost use Rattle.trace_lines.specs.Bounds.{IsHeldEvent};
ghost use Rattle.serve_faults.specs.Traced.{CanBeTold};

/// A command line and an input have one answer at most; or two texts, where the input doesn't fix
/// the command's text.
pub fn one_answer()
    ensures { (words : List (List ℕ)) (bytes : List ℕ) (a b : Answer)
        → IsAnswer words bytes a → IsAnswer words bytes b → AreOne words a b }
{}

/// Where the symbols of a session's handlers, opening tables and requests have texts that a line
/// has room for, so have those of all replies.
pub fn replies_are_printable()
    ensures { (names : List (List ℕ)) (file : File) (opened : List (List Pair))
        (requests : List Request) (n : ℕ) → IsNamedFile names file
        → ArePrintableEntries names opened → ArePrintable names requests
        → ArePrintableReplies names (serial_replies (session file opened requests) n) }
{}

/// And so have those of all tables.
pub fn tables_are_printable()
    ensures { (names : List (List ℕ)) (file : File) (opened : List (List Pair))
        (requests : List Request) (n : ℕ) → IsNamedFile names file
        → ArePrintableEntries names opened → ArePrintable names requests
        → AllByRecursion (IsPrintableTable names)
        (tables_before (session file opened requests) n) }
{}

/// And the events that are accepted for the session can be written and read back, where each text
/// of its names is a symbol's, its calls fit its tables, a program can hold the events, and none of
/// their symbols has a variable.
pub fn events_can_be_told()
    ensures { (names : List (List ℕ)) (file : File) (opened : List (List Pair))
        (requests : List Request) (events : List Event)
        → AllByRecursion (λ text. is_symbol text ≡ true) names → IsNamedFile names file
        → ArePrintableEntries names opened → ArePrintable names requests
        → ((t : ℕ) (replies : List Value) (op : Op)
        → (session file opened requests).next t replies ≡ Calls op → Fits (shape_of file) op)
        → Accepted (bare_script (session file opened requests)) events
        → AllByRecursion IsHeldEvent events → AllByRecursion HasKnownSymbol events
        → CanBeTold names file events }
{}
