// What delays are counted by.

ghost use Rattle.std.specs.Prelude.{◌≡◌};
ghost use Rattle.waiting_pairs.specs.Causes as spec;

use crate::sought::known_or_zero;
use session_values::Op;
use std::hash::{Hash, Hasher};
use symbolic_ops::Symbol;

/// What delays are counted by: one that is the same in all of these is one more of its kind.
#[derive(Clone, Copy, Debug, Drop)]
pub struct Cause {
    /// The number of the handler that waited; none where the file has no such request.
    pub waits: Option<u32>,
    /// Its operation.
    pub operation: Op,
    /// The number of the handler for which it waited; none where the file has no such request.
    pub holder: Option<u32>,
    /// What that one might still call, against which the operation was.
    pub symbol: Symbol,
}

/// Whether both are the same number, or none.
fn same_number(a: Option<u32>, b: Option<u32>) -> bool
    ensures { result ≡ spec.same_number a b }
{
    match (a, b) {
        (Some(x), Some(y)) => x == y,
        (None, None) => true,
        (Some(_), None) | (None, Some(_)) => false,
    }
}

impl PartialEq for Cause {
    ghost use Rattle.std.specs.Cmp.{partial_equiv_from_equiv};
    ghost use Rattle.waiting_pairs.specs.Causes.{is_same};
    ghost use Rattle.waiting_pairs.specs.Same.{same_equiv};

    ghost eq = { is_same };

    ghost laws = { partial_equiv_from_equiv same_equiv };

    fn eq(&self, other: &Cause) -> bool {
        same_number(self.waits, other.waits)
            && self.operation == other.operation
            && same_number(self.holder, other.holder)
            && self.symbol == other.symbol
    }
}

impl Eq for Cause {
    ghost use Rattle.waiting_pairs.specs.Same.{same_equiv};

    ghost laws = { same_equiv };
}

impl Hash for Cause {
    ghost use Rattle.waiting_pairs.specs.Causes.{hash_input};
    ghost use Rattle.waiting_pairs.specs.Same.{cause_alike};

    ghost hash_input = { hash_input };

    ghost respects_eq = { cause_alike };

    fn hash<H: Hasher>(&self, state: &mut H) {
        state.write_u32(self.operation.table);
        self.operation.key().hash(state);
        self.operation.value().hash(state);
        known_or_zero(self.symbol.key()).hash(state);
        known_or_zero(self.symbol.value()).hash(state);
        self.waits.hash(state);
        self.holder.hash(state);
    }
}
