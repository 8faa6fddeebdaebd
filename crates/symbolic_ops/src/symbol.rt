// Symbols.

ghost use Rattle.std.specs.Prelude.{◌≡◌, ◌<◌};
ghost use Rattle.std.specs.Bool.{Decides};
ghost use Rattle.session_values.specs.declared.value.Value.TheVariants.{Nil};
ghost use Rattle.session_values.specs.Kinds.{arguments};
ghost use Rattle.symbolic_ops.specs.declared.arg.Arg.TheVariants.{Known};
ghost use Rattle.symbolic_ops.specs.Order.{symbol_cmp};
ghost use Rattle.symbolic_ops.specs.Symbol.{IsHeldSymbol, IsSymbol};
ghost use Rattle.symbolic_ops.specs.Matching.{Below, HasNoVar, StandsFor, exact_symbol};

use crate::arg::Arg;
use crate::arg_sort::ArgSort;
use crate::laws::order_of_args;
use session_values::laws::order_of_kinds;
use session_values::{Kind, Op, Value};
use std::cmp::Ordering;
use std::marker::Model;

/// The operations of one kind on one table whose arguments agree with these. An argument that the
/// kind has no use for is known to be nil. Key and value are laid out side by side, each as its
/// sort and its payload, so that a symbol takes 24 bytes.
#[derive(Clone, Copy, Debug)]
pub struct Symbol {
    /// The table's number, from 0 in the order of the file.
    pub table: u32,
    pub kind: Kind,
    key_sort: ArgSort,
    value_sort: ArgSort,
    key_payload: i64,
    value_payload: i64,
}

impl Model for Symbol {
    ghost use Rattle.symbolic_ops.specs.Symbol.{SymbolView, IsSymbol};
    ghost use Rattle.symbolic_ops.specs.ArgSorts.{IsArgPayload, arg_of, arg_payload_back, arg_payload_of, arg_sort_back, arg_sort_of};

    ghost Value = { SymbolView };

    ghost view = { λ s. record {
      kind = s.kind;
      table = s.table;
      key = arg_of s.key_sort s.key_payload;
      value = arg_of s.value_sort s.value_payload;
    } };

    ghost invariant = { λ s. IsArgPayload s.key_sort s.key_payload
        × IsArgPayload s.value_sort s.value_payload
        × IsSymbol s.kind (arg_of s.key_sort s.key_payload)
        (arg_of s.value_sort s.value_payload) };

    ghost inverse = { λ s. record {
      table = s.table;
      kind = s.kind;
      key_sort = arg_sort_of s.key;
      value_sort = arg_sort_of s.value;
      key_payload = arg_payload_of s.key;
      value_payload = arg_payload_of s.value;
    } };

    ghost inverse_ok = { λ s h i. record {
      table = s.table;
      kind = s.kind;
      key_sort = arg_sort_back s.key_sort s.key_payload i;
      value_sort = arg_sort_back s.value_sort s.value_payload i;
      key_payload = arg_payload_back s.key_sort s.key_payload h.0 i;
      value_payload = arg_payload_back s.value_sort s.value_payload h.1 i;
    } };
}

impl PartialEq for Symbol {
    ghost use Rattle.std.specs.Cmp.{partial_equiv_from_equiv};
    ghost use Rattle.symbolic_ops.specs.Order.{symbol_eq, symbol_eq_equiv};

    ghost eq = { symbol_eq };

    ghost laws = { partial_equiv_from_equiv symbol_eq_equiv };

    fn eq(&self, other: &Symbol) -> bool {
        self.kind == other.kind
            && self.table == other.table
            && self.key() == other.key()
            && self.value() == other.value()
    }
}

impl Eq for Symbol {
    ghost use Rattle.symbolic_ops.specs.Order.{symbol_eq_equiv};

    ghost laws = { symbol_eq_equiv };
}

impl Symbol {
    /// The symbol of these parts.
    #[inline(always)]
    pub fn new(kind: Kind, table: u32, key: Arg, value: Arg) -> Symbol
        requires { IsSymbol kind key value }
        ensures { result ≡ record { kind = kind; table = table; key = key; value = value } }
    {
        Symbol {
            table,
            kind,
            key_sort: key.sort(),
            value_sort: value.sort(),
            key_payload: key.payload(),
            value_payload: value.payload(),
        }
    }

    /// What is known of the key.
    #[inline(always)]
    pub fn key(&self) -> Arg
        ensures { result ≡ self.now.key }
    {
        self.key_sort.arg(self.key_payload)
    }

    /// What is known of the value.
    #[inline(always)]
    pub fn value(&self) -> Arg
        ensures { result ≡ self.now.value }
    {
        self.value_sort.arg(self.value_payload)
    }

    /// The symbol that stands for this operation alone.
    pub fn exact(op: &Op) -> Symbol
        ensures { result ≡ exact_symbol op.now }
    {
        Symbol::new(
            op.kind,
            op.table,
            Arg::Known(op.key()),
            Arg::Known(op.value()),
        )
    }

    /// Whether no argument is a variable.
    pub fn has_no_var(&self) -> bool
        ensures { Decides result (HasNoVar self.now) }
    {
        self.key().is_no_var() && self.value().is_no_var()
    }

    /// Takes another key in place of its own.
    #[inline(always)]
    pub(crate) fn set_key(&mut self, key: Arg)
        requires { arguments self.old.kind < 1 → key ≡ Known Nil }
        ensures { self.new ≡ record {
          kind = self.old.kind;
          table = self.old.table;
          key = key;
          value = self.old.value;
        } }
    {
        self.key_sort = key.sort();
        self.key_payload = key.payload();
    }

    /// Takes another value in place of its own.
    #[inline(always)]
    pub(crate) fn set_value(&mut self, value: Arg)
        requires { arguments self.old.kind < 2 → value ≡ Known Nil }
        ensures { self.new ≡ record {
          kind = self.old.kind;
          table = self.old.table;
          key = self.old.key;
          value = value;
        } }
    {
        self.value_sort = value.sort();
        self.value_payload = value.payload();
    }

    /// Compares by table, then kind, then key, then value.
    pub fn compare(&self, other: &Symbol) -> Ordering
        ensures { result ≡ symbol_cmp self.now other.now }
    {
        let table = self.table.cmp(&other.table);
        let kind = order_of_kinds(self.kind, other.kind);
        let key = order_of_args(self.key(), other.key());
        let value = order_of_args(self.value(), other.value());
        table.then(kind.then(key.then(value)))
    }

    /// The bounds of a symbol that is at hand: those of the values that it knows, and that its
    /// unused arguments are known to be nil.
    #[inline(always)]
    pub fn bounds(&self)
        ensures { IsHeldSymbol self.now }
    {
        let _ = &self.kind;
        self.key().bounds();
        self.value().bounds();
    }

    /// Whether the other one stands for all that this one stands for.
    #[inline(always)]
    pub(crate) fn is_below(&self, other: &Symbol) -> bool
        ensures { Decides result (Below self.now other.now) }
    {
        self.kind == other.kind
            && self.table == other.table
            && self.key().is_below(other.key())
            && self.value().is_below(other.value())
    }
}

/// Whether the symbol stands for the operation.
#[inline(always)]
pub fn matches(s: &Symbol, op: &Op) -> bool
    requires { HasNoVar s.now }
    ensures { Decides result (StandsFor s.now op.now) }
{
    op.bounds();
    s.kind == op.kind
        && s.table == op.table
        && s.key().agrees(op.key())
        && s.value().agrees(op.value())
}
