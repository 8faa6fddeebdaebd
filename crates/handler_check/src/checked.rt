// Checked files.

ghost use Rattle.std.specs.Prelude.{◌≡◌, ◌≢◌, ◌+◌, ◌<◌, ◌≤◌, ◌==◌, ℕ, IfNone, IfOk, IfSome, MatchResult, Some, length, slice_get};
ghost use Rattle.std.specs.List.{position};
ghost use Rattle.session_values.specs.Limits.{max_calls, max_handlers, max_tables, max_work};
ghost use Rattle.syntax_trees.specs.declared.file.Handler.{Handler};
ghost use Rattle.handler_check.specs.Checked.{HandlerWithin};
ghost use Rattle.handler_check.specs.Checking.{IsAccepted, IsRefusal};
ghost use Rattle.handler_check.specs.Resolved.{IsResolved, code_at, params_at, shape_of, table_names};
ghost use Rattle.check_meaning.specs.Bounds as spec;
ghost use Rattle.check_meaning.specs.Code.{block_code, points};
ghost use Rattle.syntax_trees.specs.Bounds.{KeepsBounds};
ghost use Rattle.handler_check.specs.declared.refusal.CheckRefusal.TheVariants as refusal;
ghost use Rattle.syntax_trees.specs.Rising.{PlacesRise};

use crate::CheckRefusal;
use crate::bounds::{Counted, HandlerBounds, count_calls};
use crate::excess::bound_all;
use crate::resolution::resolve;
use check_meaning::CheckedHandler;
use session_values::{Listed, NoMemory, TableKind};
use std::alloc::Global;
use std::marker::Model;
use syntax_trees::File;

/// A file of handlers that breaks no rule, beside its resolved handlers. Contracts see it as the
/// file.
#[derive(Drop)]
pub struct Checked {
    file: File,
    // One for each handler of the file, in its order.
    handlers: Listed<CheckedHandler>,
    // Those of each handler.
    bounds: Listed<HandlerBounds>,
}

impl Model for Checked {
    ghost use Rattle.std.specs.Coded.{codes};
    ghost use Rattle.syntax_trees.specs.contracts.stmt.Stmt as stmt;
    ghost use Rattle.syntax_trees.specs.declared.file.File.{File as Tree};
    ghost use Rattle.handler_check.specs.Checked.{IsChecked};

    ghost Value = { Tree };

    ghost coded = { Prim.hlevel (codes, stmt.the_row.coded) };

    ghost view = { λ c. c.file };

    ghost invariant = { λ c. IsChecked c.file c.handlers c.bounds };
}

/// Checks a file whose places rise in the order of its text, and which keeps the bounds of the
/// language. The file is consumed, also by a refusal.
pub fn check(alloc: Global, file: File) -> Result<Checked, CheckRefusal>
    requires rise { PlacesRise file }
    requires bounds { KeepsBounds file }
    ensures file { IfOk result (λ checked. checked ≡ file) }
    ensures rules { MatchResult result (λ _. IsAccepted file) (λ e. e ≢ refusal.NoMemory
        → IsRefusal file e) }
{
    let handlers = resolve(alloc, &file)?;
    let bounds = bound_all(alloc, handlers.as_slice())?;
    Ok(Checked {
        file,
        handlers,
        bounds,
    })
}

// The kinds of a file's tables.
fn kinds_of(alloc: Global, file: &File) -> Result<Vec<TableKind>, NoMemory>
    ensures { IfOk result (λ kinds. kinds.items ≡ shape_of file.now) }
{
    let tables = file.tables.as_slice();
    Ok(tables.iter().map(|t| t.kind).collect(alloc)?)
}

impl Checked {
    /// The file, as it was checked.
    pub fn file(&self) -> &File
        ensures file { result.now ≡ self.now }
        ensures accepted { IsAccepted self.now }
        ensures bounds { KeepsBounds self.now }
    {
        &self.file
    }

    /// The kinds of its tables, in a list of its own.
    pub fn shape(&self, alloc: Global) -> Result<Vec<TableKind>, NoMemory>
        ensures kinds { IfOk result (λ kinds. kinds.items ≡ shape_of self.now) }
        ensures few { IfOk result (λ kinds. length kinds.items ≤ max_tables) }
    {
        let kinds = kinds_of(alloc, &self.file)?;
        Ok(kinds)
    }

    /// How many handlers it has.
    pub fn handlers(&self) -> u32
        ensures count { result ≡ length self.now.handlers }
        ensures few { result ≤ max_handlers }
    {
        self.file.handlers.len()
    }

    /// The resolved handler of this number.
    pub fn handler(&self, h: u32) -> &CheckedHandler
        requires { h < length self.now.handlers }
        ensures resolved { (source : Handler) → slice_get self.now.handlers h ≡ Some source
            → IsResolved (table_names self.now) source result.now }
        ensures body { block_code result.now.body ≡ code_at self.now h }
        ensures points { result.now.points ≡ 1 + points (code_at self.now h) }
        ensures params { result.now.params ≡ params_at self.now h }
        ensures within { HandlerWithin self.now h }
    {
        self.handlers.get(h)
    }

    /// The number of the handler with this name, if there is one.
    pub fn find(&self, name: u32) -> Option<u32>
        ensures found { IfSome result (λ h. (source : Handler) × (slice_get self.now.handlers h
            ≡ Some source) × (source.name ≡ name)) }
        ensures none { IfNone result ((h : ℕ) (source : Handler) → slice_get self.now.handlers h
            ≡ Some source → source.name ≡ name → ⊥) }
        ensures index { result ≡ position (λ (source : Handler). source.name == name)
            self.now.handlers }
    {
        let handlers = &self.file.handlers;
        for h in 0..handlers.len() {
            let handler = handlers.get(h);
            if handler.name == name {
                return Some(h);
            }
        }
        None
    }

    /// The bound on the calls of a handler.
    pub fn calls_bound(&self, h: u32) -> u32
        requires { h < length self.now.handlers }
        ensures bound { result ≡ spec.calls_bound (code_at self.now h) }
        ensures few { result ≤ max_calls }
    {
        self.bounds.get(h).calls
    }

    /// The bound on the work of a handler.
    pub fn work_bound(&self, h: u32) -> u32
        requires { h < length self.now.handlers }
        ensures bound { result ≡ spec.work_bound (code_at self.now h) }
        ensures few { result ≤ max_work }
    {
        self.bounds.get(h).work
    }

    /// The bound on the calls of a handler that may add a key to a table. It is counted anew by
    /// each call, in a walk over the handler.
    pub fn adds_bound(&self, h: u32, table: u32) -> u32
        requires { h < length self.now.handlers }
        ensures bound { result ≡ spec.adds_bound table (code_at self.now h) }
        ensures few { result ≤ max_calls }
    {
        let handler = self.handler(h);
        count_calls(Counted::Adding(table), handler.body.as_slice())
    }
}
