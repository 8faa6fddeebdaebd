// Foresights.

ghost use Rattle.std.specs.Prelude.{◌≡◌, ◌≤◌, ◌<◌, ◌++◌, ◌∷◌, [], length, map, slice_get, Some, IfOk};
ghost use Rattle.std.specs.List.{AllByRecursion};
ghost use Rattle.symbolic_ops.specs.Instantiate.{IsWithin, symbol_in};
ghost use Rattle.symbolic_ops.specs.Matching.{HasNoVar};

use crate::instantiating::put_values;
use crate::symbol::Symbol;
use session_values::{NoMemory, Value};
use std::alloc::Global;
use std::marker::Model;

/// What may still be called: symbols without a variable, in room that is reserved once.
#[derive(Debug, Drop)]
pub struct Foresight {
    symbols: Vec<Symbol>,
    // How many symbols it has room for, no more than the list has reserved.
    room: u32,
}

impl Model for Foresight {
    ghost use Rattle.std.specs.Prelude.{length, vec_capacity, ◌<◌, ◌≤◌, ◌^◌};
    ghost use Rattle.std.specs.List.{AllByRecursion};
    ghost use Rattle.symbolic_ops.specs.Matching.{HasNoVar};
    ghost use Rattle.symbolic_ops.specs.Foresight.{ForesightView};

    ghost Value = { ForesightView };

    ghost view = { λ f. record { symbols = f.symbols.items; room = f.room } };

    ghost invariant = { λ f. AllByRecursion HasNoVar f.symbols.items
        × (length f.symbols.items ≤ f.room) × (f.room ≤ vec_capacity f.symbols)
        × (f.room < 2 ^ 32) };
}

impl Foresight {
    /// An empty one with room for so many symbols.
    pub fn with_room(alloc: Global, room: u32) -> Result<Foresight, NoMemory>
        ensures { IfOk result (λ f. f ≡ record { symbols = []; room = room }) }
    {
        let symbols = Vec::with_capacity(alloc, room as usize)?;
        Ok(Foresight { symbols, room })
    }

    /// How many symbols it has.
    pub fn len(&self) -> u32
        ensures len { result ≡ length self.now.symbols }
        ensures room { result ≤ self.now.room }
    {
        self.symbols.len() as u32
    }

    /// The symbol at a place, from 0.
    pub fn symbol(&self, i: u32) -> Symbol
        requires { i < length self.now.symbols }
        ensures symbol { slice_get self.now.symbols i ≡ Some result }
        ensures known { HasNoVar result }
    {
        self.symbols[i as usize]
    }

    /// All symbols, in order.
    pub fn symbols(&self) -> &[Symbol]
        ensures symbols { result.now ≡ self.now.symbols }
        ensures known { AllByRecursion HasNoVar self.now.symbols }
    {
        self.symbols.as_slice()
    }

    /// Takes all symbols out, and keeps the room.
    pub fn clear(&mut self)
        ensures { self.new ≡ record { symbols = []; room = self.old.room } }
    {
        self.symbols.clear();
    }

    /// Appends a symbol, in the room that it has.
    pub fn push(&mut self, s: Symbol)
        requires known { HasNoVar s }
        requires room { length self.old.symbols < self.old.room }
        ensures { self.new ≡ record { symbols = self.old.symbols ++ s ∷ []; room = self.old.room } }
    {
        self.symbols.push_reserved(s);
    }

    /// Takes these symbols in place of its own, in the room that it has.
    pub fn copy_from(&mut self, symbols: &[Symbol])
        requires known { AllByRecursion HasNoVar symbols.now }
        requires room { length symbols.now ≤ self.old.room }
        ensures { self.new ≡ record { symbols = symbols.now; room = self.old.room } }
    {
        self.clear();
        // It has the room, so this takes no memory.
        let _copied = self.symbols.extend_from_slice(symbols);
    }

    /// Takes the symbols of another one in place of its own, in the room that it has.
    pub fn replace(&mut self, other: &Foresight)
        requires { length other.now.symbols ≤ self.old.room }
        ensures { self.new ≡ record { symbols = other.now.symbols; room = self.old.room } }
    {
        self.copy_from(other.symbols());
    }

    /// Takes these symbols, each variable with its value, in place of its own.
    pub(crate) fn copy_with_values(&mut self, symbols: &[Symbol], env: &[Value])
        requires vars { AllByRecursion (λ s. IsWithin (length env.now) s) symbols.now }
        requires room { length symbols.now ≤ self.old.room }
        ensures { self.new ≡ record {
          symbols = map (symbol_in env.now) symbols.now;
          room = self.old.room;
        } }
    {
        self.symbols.clear();
        let _copied = self.symbols.extend_from_slice(symbols);
        put_values(self.symbols.as_mut_slice(), env);
    }
}
