// How a run ends.

ghost use Rattle.std.specs.Prelude.{◌≡◌};

use crate::rule_violation::RuleViolation;
use handler_check::CheckRefusal;
use handler_syntax::SyntaxRefusal;
use may_use_analysis::AnalysisRefusal;
use range_tables::RangeRefusal;
use request_files::RequestRefusal;
use table_lines::TableRefusal;
use trace_lines::TraceRefusal;

/// Why an input is refused. It is never out of memory.
#[derive(Debug, Drop)]
pub enum Fault {
    /// It has more than 4,194,304 bytes; of a file that ends in a trace, what stands before the trace
    /// has, or the whole more than 67,108,864.
    TooLarge,
    /// It has no dividing line, and requests are to be served.
    NoRequests,
    /// It has a dividing line or a line `%% tables`, and is to be a file of handlers alone.
    HasRequests,
    /// It is no UTF-8.
    NotText,
    /// It has no trace part, and a trace is to be judged.
    NoTrace,
    /// Its requests are those of more than 16 clients.
    TooManyClients,
    /// The text of the handlers is no file of the grammar within its limits.
    Syntax(RuleViolation<SyntaxRefusal>),
    /// The handlers break a rule of the checker.
    Check(RuleViolation<CheckRefusal>),
    /// Too many operations may still come at a point of the handlers.
    Analysis(RuleViolation<AnalysisRefusal>),
    /// A line of the table part breaks a rule.
    Tables(RuleViolation<TableRefusal>),
    /// A request breaks a rule.
    Request(RuleViolation<RequestRefusal>),
    /// A line of the trace part breaks a rule.
    Trace(RuleViolation<TraceRefusal>),
    /// A line of a range session breaks a rule.
    Ranges(RuleViolation<RangeRefusal>),
}

/// How a run ended.
#[derive(Debug, Drop)]
pub enum Status {
    /// The whole text was written.
    Fine,
    Refused(Fault),
    /// The words are no command line; nothing was read.
    Usage,
    NoMemory,
    /// The source failed.
    ReadFault,
    /// The sink failed; what was written is a front of the text.
    WriteFault,
}

impl Status {
    ghost use Rattle.serve_faults.specs.ExitStatus.{exit_status};

    /// The program's exit status: 0 fine, 1 refused, 2 usage, 3 no memory, 4 read fault, 5 write
    /// fault.
    pub fn number(&self) -> u8
        ensures { result ≡ exit_status self.now }
    {
        match self {
            Status::Fine => 0,
            Status::Refused(_) => 1,
            Status::Usage => 2,
            Status::NoMemory => 3,
            Status::ReadFault => 4,
            Status::WriteFault => 5,
        }
    }
}
