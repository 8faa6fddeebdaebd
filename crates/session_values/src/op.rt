// Operations.

ghost use Rattle.std.specs.Prelude.{◌≡◌};
ghost use Rattle.session_values.specs.Op.{IsHeld, IsOp};

use crate::kind::Kind;
use crate::sort::Sort;
use crate::value::Value;
use std::marker::Model;

/// One operation on one table. A value that its kind has no use for is nil. Key and value are laid
/// out side by side, each as its sort and its payload, so that an operation takes 24 bytes.
#[derive(Clone, Copy, Debug)]
pub struct Op {
    /// The table's number, from 0 in the order of the file.
    pub table: u32,
    pub kind: Kind,
    key_sort: Sort,
    value_sort: Sort,
    key_payload: i64,
    value_payload: i64,
}

impl Model for Op {
    ghost use Rattle.session_values.specs.Op.{OpView, IsOp};
    ghost use Rattle.session_values.specs.Sorts.{IsPayload, payload_back, payload_of, sort_back, sort_of, value_of};

    ghost Value = { OpView };

    ghost view = { λ o. record {
      kind = o.kind;
      table = o.table;
      key = value_of o.key_sort o.key_payload;
      value = value_of o.value_sort o.value_payload;
    } };

    ghost invariant = { λ o. IsPayload o.key_sort o.key_payload
        × IsPayload o.value_sort o.value_payload
        × IsOp o.kind (value_of o.key_sort o.key_payload) (value_of o.value_sort o.value_payload) };

    ghost inverse = { λ o. record {
      table = o.table;
      kind = o.kind;
      key_sort = sort_of o.key;
      value_sort = sort_of o.value;
      key_payload = payload_of o.key;
      value_payload = payload_of o.value;
    } };

    ghost inverse_ok = { λ o h i. record {
      table = o.table;
      kind = o.kind;
      key_sort = sort_back o.key_sort o.key_payload i;
      value_sort = sort_back o.value_sort o.value_payload i;
      key_payload = payload_back o.key_sort o.key_payload h.0 i;
      value_payload = payload_back o.value_sort o.value_payload h.1 i;
    } };
}

impl PartialEq for Op {
    ghost use Rattle.std.specs.Cmp.{partial_equiv_from_equiv};
    ghost use Rattle.session_values.specs.Op.{op_eq, op_eq_equiv};

    ghost eq = { op_eq };

    ghost laws = { partial_equiv_from_equiv op_eq_equiv };

    fn eq(&self, other: &Op) -> bool {
        self.kind == other.kind
            && self.table == other.table
            && self.key() == other.key()
            && self.value() == other.value()
    }
}

impl Eq for Op {
    ghost use Rattle.session_values.specs.Op.{op_eq_equiv};

    ghost laws = { op_eq_equiv };
}

impl Op {
    /// The operation of these parts.
    #[inline(always)]
    pub fn new(kind: Kind, table: u32, key: Value, value: Value) -> Op
        requires { IsOp kind key value }
        ensures { result ≡ record { kind = kind; table = table; key = key; value = value } }
    {
        Op {
            table,
            kind,
            key_sort: key.sort(),
            value_sort: value.sort(),
            key_payload: key.payload(),
            value_payload: value.payload(),
        }
    }

    /// The key.
    #[inline(always)]
    pub fn key(&self) -> Value
        ensures { result ≡ self.now.key }
    {
        self.key_sort.value(self.key_payload)
    }

    /// What is put, swapped in, or added by a bump.
    #[inline(always)]
    pub fn value(&self) -> Value
        ensures { result ≡ self.now.value }
    {
        self.value_sort.value(self.value_payload)
    }

    /// The bounds of an operation that is at hand: those of its key and value, and that its unused
    /// fields are nil.
    #[inline(always)]
    pub fn bounds(&self)
        ensures { IsHeld self.now }
    {
        let _ = &self.kind;
        self.key().bounds();
        self.value().bounds();
    }
}
