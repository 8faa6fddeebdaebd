// One map from values to values.

ghost use Rattle.std.specs.Prelude.{◌≡◌, IfOk, OnOk, OnErr, IsOk, false, pos, unwrap_or};
ghost use Rattle.std.specs.FinMap as map;
ghost use Rattle.session_values.specs.Kinds.{is_adding};
ghost use Rattle.session_values.specs.Tables.{bound_to, bumped, map_reply, map_after};

use session_values::{Kind, NoMemory, Op, Value, bumped};
use std::alloc::Global;
use std::collections::BTreeMap;
use std::marker::Model;

/// A map in the order of its keys.
#[derive(Drop)]
pub struct ValueMap {
    bound: BTreeMap<Value, Value>,
}

impl Model for ValueMap {
    ghost use Rattle.plain_tables.specs.Views.{MapView, map_code, map_of};

    ghost Value = { MapView };

    ghost coded = { map_code };

    ghost view = { λ m. map_of m.bound };
}

impl ValueMap {
    /// A map in which no key is bound.
    pub fn new(alloc: Global) -> ValueMap
        ensures { result ≡ map.empty }
    {
        ValueMap {
            bound: BTreeMap::new(alloc),
        }
    }

    /// What a key is bound to.
    fn value_of(&self, key: Value) -> Option<Value>
        ensures { result ≡ map.get self.now key }
    {
        self.bound.get(&key).copied()
    }

    /// The value of a key, or nil.
    pub fn get(&self, key: Value) -> Value
        ensures { result ≡ unwrap_or (map.get self.now key) Value.Nil }
    {
        self.value_of(key).unwrap_or(Value::Nil)
    }

    /// Adds a number to what a key is bound to.
    #[tactic(auto, using(session_values::proofs::Bumps::bumped_nothing))]
    pub fn bump(&mut self, key: Value, by: Value) -> Result<(), NoMemory>
        ensures after { OnOk result (self.new
            ≡ bound_to self.old key (bumped by (map.get self.old key))) }
        ensures err { OnErr result (self.new ≡ self.old) }
    {
        if let Some(value) = bumped(by, self.value_of(key)) {
            self.swap(key, value)?;
        }
        Ok(())
    }

    /// Binds a key, and answers what it was bound to before, or nil.
    pub fn swap(&mut self, key: Value, value: Value) -> Result<Value, NoMemory>
        ensures reply { IfOk result (λ old. old ≡ unwrap_or (map.get self.old key) Value.Nil) }
        ensures after { OnOk result (self.new ≡ map.insert self.old key value) }
        ensures err { OnErr result (self.new ≡ self.old) }
    {
        let old = self.bound.insert(key, value)?;
        Ok(old.unwrap_or(Value::Nil))
    }

    /// Unbinds a key.
    pub fn remove(&mut self, key: Value)
        ensures { self.new ≡ map.remove self.old key }
    {
        self.bound.remove(&key);
    }

    /// How many keys are bound.
    pub fn size(&self) -> i64
        ensures { result ≡ pos (map.len self.now) }
    {
        self.bound.len() as i64
    }

    /// Does one operation. One on sets answers nil and changes nothing.
    pub fn apply(&mut self, op: Op) -> Result<Value, NoMemory>
        ensures reply { IfOk result (λ value. value ≡ map_reply self.old op.kind op.key) }
        ensures after { OnOk result (self.new ≡ map_after self.old op.kind op.key op.value) }
        ensures err { OnErr result (self.new ≡ self.old) }
        ensures sure { is_adding op.kind ≡ false → IsOk result }
    {
        match op.kind {
            Kind::Get => Ok(self.get(op.key())),
            Kind::Put => {
                self.swap(op.key(), op.value())?;
                Ok(Value::Nil)
            }
            Kind::Swap => self.swap(op.key(), op.value()),
            Kind::Del => {
                self.remove(op.key());
                Ok(Value::Nil)
            }
            Kind::Size => Ok(Value::Num(self.size())),
            Kind::Bump => {
                self.bump(op.key(), op.value())?;
                Ok(Value::Nil)
            }
            Kind::Has | Kind::Add | Kind::Mark | Kind::Drop | Kind::Count => Ok(Value::Nil),
        }
    }
}
