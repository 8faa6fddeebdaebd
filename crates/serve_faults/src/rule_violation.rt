// Refusals that name a broken rule.

ghost use Rattle.std.specs.Prelude.{◌≡◌, ◌≢◌};
ghost use Rattle.handler_syntax.specs.Language.syntax_refusal as syntax;
ghost use Rattle.handler_check.specs.declared.refusal.CheckRefusal.TheVariants as check;
ghost use Rattle.may_use_analysis.specs.declared.refusal.AnalysisRefusal.TheVariants as analysis;
ghost use Rattle.request_files.specs.declared.refusal.RequestRefusal.TheVariants as request;
ghost use Rattle.table_lines.specs.declared.refusal.TableRefusal.TheVariants as table;
ghost use Rattle.trace_lines.specs.declared.refusal.TraceRefusal.TheVariants as trace;
ghost use Rattle.range_tables.specs.declared.refusal.RangeRefusal.TheVariants as range;

use handler_check::CheckRefusal;
use handler_syntax::SyntaxRefusal;
use may_use_analysis::AnalysisRefusal;
use range_tables::RangeRefusal;
use request_files::RequestRefusal;
use std::marker::Model;
use table_lines::TableRefusal;
use trace_lines::TraceRefusal;

/// Why a part of the program refuses a text: a rule that is broken, or that memory ran out.
pub trait Refusal {
    /// A rule is broken.
    ghost is_certain: { Self → Type 0 };
}

impl Refusal for SyntaxRefusal {
    ghost is_certain = { λ e. e ≢ syntax.NoMemory };
}

impl Refusal for CheckRefusal {
    ghost is_certain = { λ e. e ≢ check.NoMemory };
}

impl Refusal for AnalysisRefusal {
    ghost is_certain = { λ e. e ≢ analysis.NoMemory };
}

impl Refusal for RequestRefusal {
    ghost is_certain = { λ e. e ≢ request.NoMemory };
}

impl Refusal for TableRefusal {
    ghost is_certain = { λ e. e ≢ table.NoMemory };
}

impl Refusal for TraceRefusal {
    ghost is_certain = { λ e. e ≢ trace.NoMemory };
}

impl Refusal for RangeRefusal {
    ghost is_certain = { λ e. e ≢ range.NoMemory };
}

/// A refusal that is never out of memory. Contracts see the refusal.
#[derive(Debug, Drop)]
pub struct RuleViolation<E: Refusal> {
    refusal: E,
}

impl<E: Refusal> Model for RuleViolation<E> {
    ghost Value = { E };

    ghost view = { λ s. s.refusal };

    ghost invariant = { λ s. E.is_certain s.refusal };
}

impl<E: Refusal> RuleViolation<E> {
    /// The refusal, which names a broken rule.
    pub fn new(refusal: E) -> RuleViolation<E>
        requires { E.is_certain refusal }
        ensures { result ≡ refusal }
    {
        RuleViolation { refusal }
    }

    /// The refusal, with the place that it names.
    pub fn refusal(&self) -> &E
        ensures same { result.now ≡ self.now }
        ensures certain { E.is_certain result.now }
    {
        &self.refusal
    }
}
