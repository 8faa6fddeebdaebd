// Replies.

ghost use Rattle.std.specs.Prelude.{◌≡◌, ◌==◌, ◌&&◌};
ghost use Rattle.session_values.specs.Reply.{IsHeldReply, IsReply};
ghost use Rattle.session_values.specs.Values.{value_eq};

use crate::sort::Sort;
use crate::value::Value;
use std::marker::Model;

/// The 1 to 4 values with which a handler ends. The values behind the last one are nil. They are
/// laid out side by side, each as its sort and its payload, so that a reply takes 40 bytes.
#[derive(Clone, Copy, Debug)]
pub struct Reply {
    a_payload: i64,
    b_payload: i64,
    c_payload: i64,
    d_payload: i64,
    /// How many of the four values count, from `a` on.
    pub count: u8,
    a_sort: Sort,
    b_sort: Sort,
    c_sort: Sort,
    d_sort: Sort,
}

impl Model for Reply {
    ghost use Rattle.session_values.specs.Reply.{ReplyView, IsReply};
    ghost use Rattle.session_values.specs.Sorts.{IsPayload, payload_back, payload_of, sort_back, sort_of, value_of};

    ghost Value = { ReplyView };

    ghost view = { λ r. record {
      count = r.count;
      a = value_of r.a_sort r.a_payload;
      b = value_of r.b_sort r.b_payload;
      c = value_of r.c_sort r.c_payload;
      d = value_of r.d_sort r.d_payload;
    } };

    ghost invariant = { λ r. IsPayload r.a_sort r.a_payload × IsPayload r.b_sort r.b_payload
        × IsPayload r.c_sort r.c_payload × IsPayload r.d_sort r.d_payload
        × IsReply r.count (value_of r.b_sort r.b_payload) (value_of r.c_sort r.c_payload)
        (value_of r.d_sort r.d_payload) };

    ghost inverse = { λ r. record {
      a_payload = payload_of r.a;
      b_payload = payload_of r.b;
      c_payload = payload_of r.c;
      d_payload = payload_of r.d;
      count = r.count;
      a_sort = sort_of r.a;
      b_sort = sort_of r.b;
      c_sort = sort_of r.c;
      d_sort = sort_of r.d;
    } };

    ghost inverse_ok = { λ r h i. record {
      a_payload = payload_back r.a_sort r.a_payload h.0 i;
      b_payload = payload_back r.b_sort r.b_payload h.1 i;
      c_payload = payload_back r.c_sort r.c_payload h.2 i;
      d_payload = payload_back r.d_sort r.d_payload h.3 i;
      count = r.count;
      a_sort = sort_back r.a_sort r.a_payload i;
      b_sort = sort_back r.b_sort r.b_payload i;
      c_sort = sort_back r.c_sort r.c_payload i;
      d_sort = sort_back r.d_sort r.d_payload i;
    } };
}

impl PartialEq for Reply {
    ghost use Rattle.std.specs.Cmp.{partial_equiv_from_equiv};
    ghost use Rattle.session_values.specs.Reply.{reply_eq, reply_eq_equiv};

    ghost eq = { reply_eq };

    ghost laws = { partial_equiv_from_equiv reply_eq_equiv };

    fn eq(&self, other: &Reply) -> bool {
        self.begins_as(other) && self.ends_as(other)
    }
}

impl Eq for Reply {
    ghost use Rattle.session_values.specs.Reply.{reply_eq_equiv};

    ghost laws = { reply_eq_equiv };
}

impl Reply {
    /// The reply of these values, of which so many count.
    #[inline(always)]
    pub fn new(count: u8, a: Value, b: Value, c: Value, d: Value) -> Reply
        requires { IsReply count b c d }
        ensures { result ≡ record { count = count; a = a; b = b; c = c; d = d } }
    {
        Reply {
            a_payload: a.payload(),
            b_payload: b.payload(),
            c_payload: c.payload(),
            d_payload: d.payload(),
            count,
            a_sort: a.sort(),
            b_sort: b.sort(),
            c_sort: c.sort(),
            d_sort: d.sort(),
        }
    }

    /// The first value.
    #[inline(always)]
    pub fn a(&self) -> Value
        ensures { result ≡ self.now.a }
    {
        self.a_sort.value(self.a_payload)
    }

    /// The second value.
    #[inline(always)]
    pub fn b(&self) -> Value
        ensures { result ≡ self.now.b }
    {
        self.b_sort.value(self.b_payload)
    }

    /// The third value.
    #[inline(always)]
    pub fn c(&self) -> Value
        ensures { result ≡ self.now.c }
    {
        self.c_sort.value(self.c_payload)
    }

    /// The fourth value.
    #[inline(always)]
    pub fn d(&self) -> Value
        ensures { result ≡ self.now.d }
    {
        self.d_sort.value(self.d_payload)
    }

    /// Whether as many values count, and the first one is the same.
    #[inline(always)]
    fn begins_as(&self, other: &Reply) -> bool
        ensures { result ≡ (self.now.count == other.now.count
            && value_eq self.now.a other.now.a) }
    {
        self.count == other.count && self.a() == other.a()
    }

    /// Whether the values behind the first one are the same.
    #[inline(always)]
    fn ends_as(&self, other: &Reply) -> bool
        ensures { result ≡ (value_eq self.now.b other.now.b && value_eq self.now.c other.now.c
            && value_eq self.now.d other.now.d) }
    {
        self.b() == other.b() && self.c() == other.c() && self.d() == other.d()
    }

    /// The bounds of a reply that is at hand: those of its values, and that it has 1 to 4 of them.
    pub fn bounds(&self)
        ensures { IsHeldReply self.now }
    {
        let _ = &self.count;
        self.a().bounds();
        self.b().bounds();
        self.c().bounds();
        self.d().bounds();
    }
}
