// Symbols that are looked up.

ghost use Rattle.std.specs.Prelude.{◌≡◌};
ghost use Rattle.waiting_pairs.specs.Sought as spec;

use session_values::Value;
use std::hash::{Hash, Hasher};
use symbolic_ops::{Arg, Symbol};

/// The argument's value, and 0 where none is known.
pub(crate) fn known_or_zero(arg: Arg) -> Value
    ensures { result ≡ spec.known_or_zero arg }
{
    match arg {
        Arg::Known(v) => v,
        Arg::Var(_) | Arg::Any => Value::Num(0),
    }
}

/// A symbol, found by its table, key and value.
#[derive(Clone, Copy, Debug, Drop)]
pub(crate) struct Sought {
    pub(crate) symbol: Symbol,
}

impl PartialEq for Sought {
    ghost use Rattle.std.specs.Cmp.{on_equiv, partial_equiv_from_equiv};
    ghost use Rattle.symbolic_ops.specs.Order.{symbol_eq_equiv};
    ghost use Rattle.waiting_pairs.specs.Sought.{is_sought};

    ghost eq = { is_sought };

    ghost laws = { partial_equiv_from_equiv (on_equiv (λ s. s.symbol) symbol_eq_equiv) };

    fn eq(&self, other: &Sought) -> bool {
        self.symbol == other.symbol
    }
}

impl Eq for Sought {
    ghost use Rattle.std.specs.Cmp.{on_equiv};
    ghost use Rattle.symbolic_ops.specs.Order.{symbol_eq_equiv};

    ghost laws = { on_equiv (λ s. s.symbol) symbol_eq_equiv };
}

impl Hash for Sought {
    ghost use Rattle.waiting_pairs.specs.Sought.{sought_input};
    ghost use Rattle.waiting_pairs.specs.Same.{sought_alike};

    ghost hash_input = { sought_input };

    ghost respects_eq = { sought_alike };

    fn hash<H: Hasher>(&self, state: &mut H) {
        state.write_u32(self.symbol.table);
        known_or_zero(self.symbol.key()).hash(state);
        known_or_zero(self.symbol.value()).hash(state);
    }
}
