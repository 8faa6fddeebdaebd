// Which tables a list of symbols touches.

ghost use Rattle.std.specs.Prelude.{◌≡◌, ◌<◌, false};
ghost use Rattle.std.specs.List.{AllByRecursion};
ghost use Rattle.symbolic_ops.specs.declared.symbol.Symbol.{Symbol as AnySymbol};
ghost use Rattle.symbolic_ops.specs.Commuting.{CommutesWith};
ghost use Rattle.admission_book.specs.Touched.{IsTouched, mark_of, no_tables};

use session_values::{Kind, Op};
use symbolic_ops::Symbol;

/// A mark for each table that some symbols read, and one for each that they change. Tables are told
/// apart by the remainder of their numbers by 8, and a session has no more than 7. A mark too many
/// costs time alone.
#[derive(Clone, Copy, Debug)]
pub(crate) struct TouchedTables {
    marks: [bool; 16],
}

/// The place of the mark of a table that an operation of this kind touches.
#[inline(always)]
fn mark_of(kind: Kind, table: u32) -> usize
    ensures place { result ≡ mark_of kind table }
    ensures within { result < 16 }
{
    let group = (table % 8) as usize;
    if kind.reads() { group } else { group + 8 }
}

impl TouchedTables {
    /// Those of no symbol.
    pub(crate) fn none() -> TouchedTables
        ensures { result ≡ no_tables }
    {
        TouchedTables { marks: [false; 16] }
    }

    /// Those of a list of symbols.
    pub(crate) fn of(symbols: &[Symbol]) -> TouchedTables
        ensures { AllByRecursion (λ s. IsTouched result s) symbols.now }
    {
        let mut touched = TouchedTables::none();
        for s in symbols {
            touched.note(s);
        }
        touched
    }

    /// Sets the mark of a symbol.
    #[inline(always)]
    fn note(&mut self, s: &Symbol)
        ensures noted { IsTouched self.new s.now }
        ensures kept { (y : AnySymbol) → IsTouched self.old y → IsTouched self.new y }
    {
        self.marks[mark_of(s.kind, s.table)] = true;
    }

    /// Whether some symbol of them may be one with which the operation doesn't commute.
    #[inline(always)]
    pub(crate) fn may_be_against(&self, op: &Op) -> bool
        ensures { result ≡ false → (s : AnySymbol) → IsTouched self.now s → CommutesWith op.now s }
    {
        op.bounds();
        let group = (op.table % 8) as usize;
        self.marks[group + 8] || (!op.kind.reads() && self.marks[group])
    }
}
