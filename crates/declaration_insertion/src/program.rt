// Programs.

ghost use Rattle.std.specs.Prelude.{◌≡◌, ◌≢◌, ◌↔◌, ℕ, ◌+◌, ◌-◌, ◌<◌, ◌≤◌, [], IfOk, length};
ghost use Rattle.std.specs.Bool.{OnFalse, OnTrue};
ghost use Rattle.std.specs.List.{AllByRecursion};
ghost use Rattle.session_values.specs.Limits.{max_symbols, max_variables};
ghost use Rattle.symbolic_ops.specs.Instantiate.{IsWithin};
ghost use Rattle.handler_check.specs.Code.{points};
ghost use Rattle.handler_check.specs.Resolved.{code_at};
ghost use Rattle.may_use_analysis.specs.Later.{AreLater};
ghost use Rattle.may_use_analysis.specs.Own.{IsOfHandler};
ghost use Rattle.declaration_insertion.specs.Facts.{HasFacts, NamesEachOnce, kinds_in, looked_at};
ghost use Rattle.declaration_insertion.specs.Program.{IsProgram, declared_at};

use crate::facts::{PointFacts, facts_of};
use handler_check::Checked;
use may_use_analysis::Later;
use session_values::{Listed, NoMemory};
use std::alloc::Global;
use std::marker::Model;
use symbolic_ops::Symbol;

/// A checked file with a declaration at each point: the list of the operations that may still come.
#[derive(Drop)]
pub struct Program {
    checked: Checked,
    later: Later,
    // For each handler, what is known of each of its points.
    facts: Vec<Listed<PointFacts>>,
}

impl Model for Program {
    ghost use Rattle.std.specs.Coded.{codes};
    ghost use Rattle.syntax_trees.specs.contracts.stmt.Stmt as stmt;
    ghost use Rattle.declaration_insertion.specs.Facts.{AreAllFacts};
    ghost use Rattle.declaration_insertion.specs.Program.{IsProgram, ProgramView};

    ghost Value = { ProgramView };

    ghost coded = { Prim.hlevel (codes, stmt.the_row.coded) };

    ghost view = { λ p. record { file = p.checked; lists = p.later } };

    ghost invariant = { λ p. IsProgram (record { file = p.checked; lists = p.later })
        × AreAllFacts p.later p.facts.items };
}

/// Puts the list of each point into a checked file, from which the lists were made, and what is
/// known of each list.
pub fn insert(alloc: Global, checked: Checked, later: Later) -> Result<Program, NoMemory>
    requires { AreLater checked later }
    ensures { IfOk result (λ program. program ≡ record { file = checked; lists = later }) }
{
    // The checker's file breaks no rule and keeps its bounds.
    let _file = checked.file();
    let facts = facts_of(alloc, &checked, &later)?;
    Ok(Program {
        checked,
        later,
        facts,
    })
}

impl Program {
    /// The file without its declarations.
    pub fn checked(&self) -> &Checked
        ensures file { result.now ≡ self.now.file }
        ensures program { IsProgram self.now }
    {
        &self.checked
    }

    /// The declaration at a handler's entry.
    pub fn entry(&self, h: u32) -> &[Symbol]
        requires { h < length self.now.file.handlers }
        ensures list { result.now ≡ declared_at self.now h 0 }
        ensures few { length result.now ≤ max_symbols }
        ensures vars { AllByRecursion (λ s. IsWithin max_variables s) result.now }
        // Its variables are those of the handler, and its tables are there.
        ensures own { AllByRecursion (IsOfHandler self.now.file h) result.now }
    {
        self.declaration(h, 0)
    }

    /// The declaration at a point of a handler, by its number.
    pub fn declaration(&self, h: u32, point: u32) -> &[Symbol]
        requires handler { h < length self.now.file.handlers }
        requires point { point < 1 + points (code_at self.now.file h) }
        ensures list { result.now ≡ declared_at self.now h point }
        ensures few { length result.now ≤ max_symbols }
        ensures vars { AllByRecursion (λ s. IsWithin max_variables s) result.now }
        // Its variables are those of the handler, and its tables are there.
        ensures own { AllByRecursion (IsOfHandler self.now.file h) result.now }
    {
        self.later.list(h, point)
    }

    /// A point from which on, up to this one, the same is declared at each: the first of these.
    #[inline(always)]
    pub fn alike(&self, h: u32, point: u32) -> u32
        requires handler { h < length self.now.file.handlers }
        requires point { point < 1 + points (code_at self.now.file h) }
        ensures within { result ≤ point }
        ensures same { (q : ℕ) → result ≤ q → q ≤ point
            → declared_at self.now h q ≡ declared_at self.now h point }
        ensures least { 0 < result
            → declared_at self.now h (result - 1) ≢ declared_at self.now h result }
    {
        self.facts(h, point).alike
    }

    /// How many kinds of operations are declared at a point, each on each of its tables.
    #[inline(always)]
    pub fn kinds(&self, h: u32, point: u32) -> u32
        requires handler { h < length self.now.file.handlers }
        requires point { point < 1 + points (code_at self.now.file h) }
        ensures count { result ≡ kinds_in (declared_at self.now h point) }
        ensures nothing { (result ≡ 0) ↔ (declared_at self.now h point ≡ []) }
    {
        self.facts(h, point).kinds
    }

    /// Whether no two symbols of the declaration are of one kind on one table. It may be false of a
    /// declaration of more than 16 symbols.
    #[inline(always)]
    pub fn names_each_once(&self, h: u32, point: u32) -> bool
        requires handler { h < length self.now.file.handlers }
        requires point { point < 1 + points (code_at self.now.file h) }
        ensures once { OnTrue result (NamesEachOnce (declared_at self.now h point)) }
        ensures twice { OnFalse result (length (declared_at self.now h point) ≤ looked_at
            → NamesEachOnce (declared_at self.now h point) → ⊥) }
    {
        self.facts(h, point).once
    }

    /// What is known of a point's declaration.
    #[inline(always)]
    fn facts(&self, h: u32, point: u32) -> PointFacts
        requires handler { h < length self.now.file.handlers }
        requires point { point < 1 + points (code_at self.now.file h) }
        ensures { HasFacts (declared_at self.now h) point result }
    {
        *self.facts[h as usize].get(point)
    }
}
