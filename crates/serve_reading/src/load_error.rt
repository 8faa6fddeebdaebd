// Why there is nothing to write.

ghost use Rattle.handler_syntax.specs.Language.syntax_refusal as syntax;
ghost use Rattle.handler_check.specs.declared.refusal.CheckRefusal.TheVariants as check;
ghost use Rattle.may_use_analysis.specs.declared.refusal.AnalysisRefusal.TheVariants as analysis;
ghost use Rattle.request_files.specs.declared.refusal.RequestRefusal.TheVariants as request;
ghost use Rattle.table_lines.specs.declared.refusal.TableRefusal.TheVariants as table;
ghost use Rattle.trace_lines.specs.declared.refusal.TraceRefusal.TheVariants as trace;
ghost use Rattle.range_tables.specs.declared.refusal.RangeRefusal.TheVariants as range;
ghost use Rattle.serve_faults.specs.declared.status.Fault.TheVariants as fault;
ghost use Rattle.serve_reading.specs.Reasons.{IsNamedAs};

use handler_check::CheckRefusal;
use handler_syntax::SyntaxRefusal;
use may_use_analysis::AnalysisRefusal;
use range_tables::RangeRefusal;
use request_files::RequestRefusal;
use serve_faults::{Fault, RuleViolation};
use session_values::NoMemory;
use std::alloc::AllocError;
use table_lines::TableRefusal;
use trace_lines::TraceRefusal;

/// Why there is nothing to write.
#[derive(Debug, Drop)]
pub enum LoadError {
    /// This is the first broken rule.
    Refused(Fault),
    NoMemory,
}

impl From<NoMemory> for LoadError {
    ghost use Rattle.std.specs.Prelude.{◌≡◌};
    ghost use Rattle.serve_reading.specs.declared.load_error.LoadError.TheVariants as load_error;

    ghost from_gives = { λ _ e. e ≡ load_error.NoMemory };

    fn from(_: NoMemory) -> LoadError {
        LoadError::NoMemory
    }
}

impl From<AllocError> for LoadError {
    ghost use Rattle.std.specs.Prelude.{◌≡◌};
    ghost use Rattle.serve_reading.specs.declared.load_error.LoadError.TheVariants as load_error;

    ghost from_gives = { λ _ e. e ≡ load_error.NoMemory };

    fn from(_: AllocError) -> LoadError {
        LoadError::NoMemory
    }
}

impl From<SyntaxRefusal> for LoadError {
    ghost from_gives = { IsNamedAs syntax.NoMemory fault.Syntax };

    fn from(e: SyntaxRefusal) -> LoadError {
        match e {
            SyntaxRefusal::NoMemory => LoadError::NoMemory,
            e => LoadError::Refused(Fault::Syntax(RuleViolation::new(e))),
        }
    }
}

impl From<CheckRefusal> for LoadError {
    ghost from_gives = { IsNamedAs check.NoMemory fault.Check };

    fn from(e: CheckRefusal) -> LoadError {
        match e {
            CheckRefusal::NoMemory => LoadError::NoMemory,
            e => LoadError::Refused(Fault::Check(RuleViolation::new(e))),
        }
    }
}

impl From<AnalysisRefusal> for LoadError {
    ghost from_gives = { IsNamedAs analysis.NoMemory fault.Analysis };

    fn from(e: AnalysisRefusal) -> LoadError {
        match e {
            AnalysisRefusal::NoMemory => LoadError::NoMemory,
            e => LoadError::Refused(Fault::Analysis(RuleViolation::new(e))),
        }
    }
}

impl From<TableRefusal> for LoadError {
    ghost from_gives = { IsNamedAs table.NoMemory fault.Tables };

    fn from(e: TableRefusal) -> LoadError {
        match e {
            TableRefusal::NoMemory => LoadError::NoMemory,
            e => LoadError::Refused(Fault::Tables(RuleViolation::new(e))),
        }
    }
}

impl From<RequestRefusal> for LoadError {
    ghost from_gives = { IsNamedAs request.NoMemory fault.Request };

    fn from(e: RequestRefusal) -> LoadError {
        match e {
            RequestRefusal::NoMemory => LoadError::NoMemory,
            e => LoadError::Refused(Fault::Request(RuleViolation::new(e))),
        }
    }
}

impl From<TraceRefusal> for LoadError {
    ghost from_gives = { IsNamedAs trace.NoMemory fault.Trace };

    fn from(e: TraceRefusal) -> LoadError {
        match e {
            TraceRefusal::NoMemory => LoadError::NoMemory,
            e => LoadError::Refused(Fault::Trace(RuleViolation::new(e))),
        }
    }
}

impl From<RangeRefusal> for LoadError {
    ghost from_gives = { IsNamedAs range.NoMemory fault.Ranges };

    fn from(e: RangeRefusal) -> LoadError {
        match e {
            RangeRefusal::NoMemory => LoadError::NoMemory,
            e => LoadError::Refused(Fault::Ranges(RuleViolation::new(e))),
        }
    }
}
