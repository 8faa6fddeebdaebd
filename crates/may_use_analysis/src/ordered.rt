// Ordered lists of symbols.

ghost use Rattle.std.specs.Prelude.{◌≡◌, ◌↔◌, ◌⊎◌, [], length, map, Contains, IfOk, OnOk};
ghost use Rattle.std.specs.Bool.{OnFalse, OnTrue};
ghost use Rattle.std.specs.List.{AllByRecursion};
ghost use Rattle.std.specs.List.Sorted.{IsStrictlySortedBy};
ghost use Rattle.std.specs.Ordering.{eq_by_cmp};
ghost use Rattle.symbolic_ops.specs.Order.{symbol_cmp};
ghost use Rattle.symbolic_ops.specs.declared.symbol.Symbol.{Symbol};
ghost use Rattle.may_use_analysis.specs.Ordered.{Are, IsSearched};
ghost use Rattle.may_use_analysis.specs.Steps.{back};
ghost use Rattle.may_use_analysis.specs.Stores.{step_of};
ghost use Rattle.may_use_analysis.specs.Trails.{Back};
ghost use Rattle.may_use_analysis.specs.Vars.{AllCovered};

use crate::stores::{Store, symbol_before};
use crate::vars::Vars;
use session_values::NoMemory;
use std::alloc::Global;
use std::marker::Model;
use symbolic_ops::Symbol;

/// Symbols in their order, each once, with the variables that they mention.
#[derive(Drop)]
pub(crate) struct Ordered {
    symbols: Vec<Symbol>,
    vars: Vars,
}

impl Model for Ordered {
    ghost use Rattle.std.specs.Prelude.{List};
    ghost use Rattle.std.specs.List.Sorted.{IsStrictlySortedBy};
    ghost use Rattle.symbolic_ops.specs.Order.{symbol_cmp};
    ghost use Rattle.symbolic_ops.specs.declared.symbol.Symbol.{Symbol};
    ghost use Rattle.may_use_analysis.specs.Vars.{AllCovered};

    ghost Value = { List Symbol };

    ghost view = { λ o. o.symbols.items };

    ghost invariant = { λ o. IsStrictlySortedBy symbol_cmp o.symbols.items
        × AllCovered o.vars.bits o.symbols.items };
}

pub(crate) fn is_same(a: &Symbol, b: &Symbol) -> bool
    ensures { result ≡ eq_by_cmp symbol_cmp a.now b.now }
{
    a.compare(b).is_eq()
}

/// Puts the symbols in order, each once, and gives the variables that they mention.
fn put_in_order(list: &mut Vec<Symbol>) -> Vars
    ensures covered { AllCovered result.bits list.new.items }
    ensures members { (s : Symbol) → Contains list.new.items s ↔ Contains list.old.items s }
    ensures order { IsStrictlySortedBy symbol_cmp list.new.items }
{
    list.sort_unstable_by(|a, b| a.compare(b));
    list.dedup_by(|a, b| is_same(a, b));
    Vars::of(list.as_slice())
}

/// Where the symbol is in an ordered list, or where it would be.
fn find(list: &[Symbol], s: &Symbol) -> Result<usize, usize>
    requires { IsStrictlySortedBy symbol_cmp list.now }
    ensures { IsSearched list.now s.now result }
{
    list.binary_search_by(|q| q.compare(s))
}

/// The first place from one on whose symbol isn't less than this one, or the end.
fn place_from(list: &[Symbol], start: usize, s: &Symbol) -> usize {
    for i in start..list.len() {
        if !list[i].compare(s).is_lt() {
            return i;
        }
    }
    list.len()
}

fn is_at(list: &[Symbol], i: usize, s: &Symbol) -> bool
    ensures { OnTrue result (Contains list.now s.now) }
{
    i < list.len() && is_same(&list[i], s)
}

/// Whether an ordered list has all of these, which are in order too.
fn has_all(list: &[Symbol], more: &[Symbol]) -> bool
    ensures { OnTrue result ((s : Symbol) → Contains more.now s → Contains list.now s) }
{
    let mut i = 0;
    for s in more {
        i = place_from(list, i, s);
        if !is_at(list, i, s) {
            return false;
        }
    }
    true
}

fn is_changed(store: Store, s: &Symbol) -> bool
    ensures { OnFalse result (back (step_of store) s.now ≡ s.now) }
{
    symbol_before(store, s) != *s
}

/// Whether a store changes some of the symbols.
fn is_any_changed(store: Store, list: &[Symbol]) -> bool
    ensures { OnFalse result (AllByRecursion (λ s. back (step_of store) s ≡ s) list.now) }
{
    for s in list {
        if is_changed(store, s) {
            return true;
        }
    }
    false
}

/// Puts each symbol as it was before the store in its place.
fn put_before(store: Store, list: &mut [Symbol])
    ensures { list.new ≡ map (back (step_of store)) list.old }
{
    for i in 0..list.len() {
        list[i] = symbol_before(store, &list[i]);
    }
}

impl Ordered {
    pub(crate) fn new(alloc: Global) -> Ordered
        ensures { result ≡ [] }
    {
        Ordered {
            symbols: Vec::new(alloc),
            vars: Vars::none(),
        }
    }

    pub(crate) fn as_slice(&self) -> &[Symbol]
        ensures symbols { result.now ≡ self.now }
        ensures order { IsStrictlySortedBy symbol_cmp self.now }
    {
        self.symbols.as_slice()
    }

    /// Variables among which are all that the symbols mention.
    pub(crate) fn vars(&self) -> Vars
        ensures { AllCovered result.bits self.now }
    {
        self.vars
    }

    pub(crate) fn copied(&self, alloc: Global) -> Result<Ordered, NoMemory>
        ensures { IfOk result (λ copy. copy ≡ self.now) }
    {
        let symbols = Vec::from_slice(alloc, self.symbols.as_slice())?;
        let vars = self.vars;
        Ok(Ordered { symbols, vars })
    }

    pub(crate) fn has(&self, s: &Symbol) -> bool {
        find(self.symbols.as_slice(), s).is_ok()
    }

    /// Takes a symbol into its place.
    pub(crate) fn insert(&mut self, s: Symbol) -> Result<(), NoMemory>
        ensures { OnOk result ((q : Symbol) → Contains self.new q
            ↔ (Contains self.old q ⊎ (q ≡ s))) }
    {
        match find(self.symbols.as_slice(), &s) {
            Ok(_) => Ok(()),
            Err(i) => {
                let vars = self.vars.with_symbol(&s);
                self.symbols.insert(i, s)?;
                self.vars = vars;
                Ok(())
            }
        }
    }

    /// Takes these symbols in, and says whether some of them are new.
    pub(crate) fn join(&mut self, more: &Ordered) -> Result<bool, NoMemory>
        ensures union { OnOk result ((q : Symbol) → Contains self.new q
            ↔ (Contains self.old q ⊎ Contains more.now q)) }
        ensures same { IfOk result (λ grew. OnFalse grew ((q : Symbol) → Contains more.now q
            → Contains self.old q)) }
    {
        if has_all(self.symbols.as_slice(), more.as_slice()) {
            return Ok(false);
        }
        self.symbols.extend_from_slice(more.as_slice())?;
        self.vars = put_in_order(&mut self.symbols);
        Ok(true)
    }

    /// Makes them the symbols before a store.
    pub(crate) fn carry(&mut self, store: Store)
        ensures { Are self.new (Back (step_of store) (Contains self.old)) }
    {
        if is_any_changed(store, self.symbols.as_slice()) {
            put_before(store, self.symbols.as_mut_slice());
            self.vars = put_in_order(&mut self.symbols);
        }
    }
}
