// One set of values.

ghost use Rattle.std.specs.Prelude.{◌≡◌, IfOk, OnOk, OnErr, IsOk, false, pos, not};
ghost use Rattle.std.specs.FinSet as set;
ghost use Rattle.session_values.specs.Kinds.{is_adding};
ghost use Rattle.session_values.specs.Tables.{bit, set_reply, set_after};

use session_values::{Kind, NoMemory, Op, Value};
use std::alloc::Global;
use std::collections::BTreeSet;
use std::marker::Model;

/// A set in the order of its members.
#[derive(Drop)]
pub struct ValueSet {
    members: BTreeSet<Value>,
}

impl Model for ValueSet {
    ghost use Rattle.plain_tables.specs.Views.{SetView, set_code, set_of};

    ghost Value = { SetView };

    ghost coded = { set_code };

    ghost view = { λ s. set_of s.members };
}

impl ValueSet {
    /// A set without members.
    pub fn new(alloc: Global) -> ValueSet
        ensures { result ≡ set.empty }
    {
        ValueSet {
            members: BTreeSet::new(alloc),
        }
    }

    /// Whether the key is a member.
    pub fn has(&self, key: Value) -> bool
        ensures { result ≡ set.contains self.now key }
    {
        self.members.contains(&key)
    }

    /// Makes the key a member, and answers whether it was none.
    pub fn add(&mut self, key: Value) -> Result<bool, NoMemory>
        ensures new { IfOk result (λ new. new ≡ not (set.contains self.old key)) }
        ensures after { OnOk result (self.new ≡ set.insert self.old key) }
        ensures err { OnErr result (self.new ≡ self.old) }
    {
        Ok(self.members.insert(key)?)
    }

    /// Takes the key out.
    pub fn remove(&mut self, key: Value)
        ensures { self.new ≡ set.remove self.old key }
    {
        self.members.remove(&key);
    }

    /// How many members there are.
    pub fn count(&self) -> i64
        ensures { result ≡ pos (set.len self.now) }
    {
        self.members.len() as i64
    }

    /// Does one operation. One on maps answers nil and changes nothing.
    pub fn apply(&mut self, op: Op) -> Result<Value, NoMemory>
        ensures reply { IfOk result (λ value. value ≡ set_reply self.old op.kind op.key) }
        ensures after { OnOk result (self.new ≡ set_after self.old op.kind op.key) }
        ensures err { OnErr result (self.new ≡ self.old) }
        ensures sure { is_adding op.kind ≡ false → IsOk result }
    {
        match op.kind {
            Kind::Has => Ok(bit_of(self.has(op.key()))),
            Kind::Add => Ok(bit_of(self.add(op.key())?)),
            Kind::Mark => {
                self.add(op.key())?;
                Ok(Value::Nil)
            }
            Kind::Drop => {
                self.remove(op.key());
                Ok(Value::Nil)
            }
            Kind::Count => Ok(Value::Num(self.count())),
            Kind::Get | Kind::Put | Kind::Swap => Ok(Value::Nil),
            Kind::Del | Kind::Size | Kind::Bump => Ok(Value::Nil),
        }
    }
}

fn bit_of(holds: bool) -> Value
    ensures { result ≡ bit holds }
{
    Value::Num(if holds { 1 } else { 0 })
}
