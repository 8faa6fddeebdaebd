// Laws of dumps, of traces and of answers: each is the contract of a function with an empty body.

ghost use Rattle.std.specs.Prelude.{ℕ, List, [], Some};
ghost use Rattle.serve_faults.specs.Command.TheVariants.{Audit, Dump, Trace};
ghost use Rattle.handler_syntax.specs.Language.{File};
ghost use Rattle.serve_faults.specs.Answer.{Answer, CommandAnswers, IsAnswer, Text, dumped_text};
ghost use Rattle.serve_faults.specs.Input.{IsInput, parts_of};
ghost use Rattle.serve_faults.specs.Session.{IsSession};
ghost use Rattle.serve_faults.specs.VerdictText.{accepted};
ghost use Rattle.file_laws.specs.Joined.{IsAcceptedTrace};
ghost use Rattle.file_laws.specs.Judged.{IsSerialTrace};
ghost use Rattle.file_laws.specs.Reopened.{EndsAlike, HasFewLines, MeetsLimits, OpensAsEnded, reopened};

/// What was dumped of a session, put behind its handlers in place of the table part, is read as the
/// tables that were dumped, symbols compared by their texts, whatever requests follow, where it has
/// no more lines than a table part may have. Without requests, where the file isn't too large, these
/// are the final tables again, and the dump is the same bytes, by however many callers and over
/// however many shards.
pub fn dumps_read_back()
    ensures answer { (callers shards : ℕ) (input text : List ℕ)
        → CommandAnswers (Some (Dump callers shards)) input (Text text)
        → MeetsLimits input text → (other_callers other_shards : ℕ)
        → CommandAnswers (Some (Dump other_callers other_shards)) (reopened input text [])
        (Text text) }
    ensures opens { (callers shards : ℕ) (input requests : List ℕ) (file : File)
        → IsInput (Dump callers shards) input → IsSession (parts_of input) file
        → HasFewLines (dumped_text input file)
        → OpensAsEnded input (reopened input (dumped_text input file) requests) requests file }
    ensures ends { (callers shards : ℕ) (input : List ℕ) (file : File)
        → IsInput (Dump callers shards) input → IsSession (parts_of input) file
        → HasFewLines (dumped_text input file)
        → EndsAlike input (reopened input (dumped_text input file) []) file }
{}

/// A text that `trace` answers to a session file is that of accepted events. They are read from the
/// lines behind its first, with Any for each argument that was written as `any`; what is read is
/// accepted too; and `audit` accepts it where the text stands behind the session file.
pub fn traces_are_accepted()
    ensures { (callers shards : ℕ) (input text : List ℕ)
        → CommandAnswers (Some (Trace callers shards)) input (Text text)
        → IsAcceptedTrace input text }
{}

/// If `audit` answers that a trace is accepted, the operations and replies of each ticket in it are
/// those of serving the requests of the session file one at a time.
pub fn accepted_traces_are_serial()
    ensures { (input : List ℕ) (events : ℕ)
        → CommandAnswers (Some Audit) input (Text (accepted events)) → IsSerialTrace input }
{}

/// Each command line has an answer to each input: usage, the first rule that the input breaks, or a
/// text.
pub fn some_answer()
    ensures { (words : List (List ℕ)) (bytes : List ℕ)
        → (answer : Answer) × IsAnswer words bytes answer }
{}
