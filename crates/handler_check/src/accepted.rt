// Accepted files.

ghost use Rattle.std.specs.Prelude.{◌≡◌, ◌≢◌, ◌<◌, IfOk, MatchResult, Some, length, slice_get};
ghost use Rattle.syntax_trees.specs.declared.file.Handler.{Handler};
ghost use Rattle.handler_check.specs.Checked.{HandlerWithin};
ghost use Rattle.handler_check.specs.Checking.{IsAccepted, IsRefusal};
ghost use Rattle.handler_check.specs.Resolved.{IsResolved, code_at, table_names};
ghost use Rattle.check_meaning.specs.Code.{block_code};
ghost use Rattle.syntax_trees.specs.Bounds.{KeepsBounds};
ghost use Rattle.handler_check.specs.declared.refusal.CheckRefusal.TheVariants as refusal;
ghost use Rattle.syntax_trees.specs.Rising.{PlacesRise};

use crate::CheckRefusal;
use crate::looking::look;
use crate::resolution::resolve_handler;
use check_meaning::CheckedHandler;
use session_values::{Listed, NoMemory};
use std::alloc::Global;
use std::marker::Model;
use syntax_trees::File;

/// A file of handlers that breaks no rule. Contracts see it as the file. It keeps no resolved
/// handlers, which would take as much memory again.
#[derive(Drop)]
pub struct Accepted {
    file: File,
    // The names of its tables, in their order.
    tables: Listed<u32>,
}

impl Model for Accepted {
    ghost use Rattle.std.specs.Coded.{codes};
    ghost use Rattle.syntax_trees.specs.contracts.stmt.Stmt as stmt;
    ghost use Rattle.syntax_trees.specs.declared.file.File.{File as Tree};
    ghost use Rattle.handler_check.specs.Checked.{IsAcceptedWith};

    ghost Value = { Tree };

    ghost coded = { Prim.hlevel (codes, stmt.the_row.coded) };

    ghost view = { λ a. a.file };

    ghost invariant = { λ a. IsAcceptedWith a.file a.tables };
}

/// Checks a file as `check` does, handler by handler.
pub fn accept(alloc: Global, file: File) -> Result<Accepted, CheckRefusal>
    requires rise { PlacesRise file }
    requires bounds { KeepsBounds file }
    ensures file { IfOk result (λ accepted. accepted ≡ file) }
    ensures rules { MatchResult result (λ _. IsAccepted file) (λ e. e ≢ refusal.NoMemory
        → IsRefusal file e) }
{
    let looked = look(alloc, &file)?;
    match looked.beyond {
        None => Ok(Accepted {
            file,
            tables: looked.tables,
        }),
        Some(e) => Err(e),
    }
}

impl Accepted {
    /// The file, as it was accepted.
    pub fn file(&self) -> &File
        ensures file { result.now ≡ self.now }
        ensures accepted { IsAccepted self.now }
        ensures bounds { KeepsBounds self.now }
    {
        &self.file
    }

    /// How many handlers it has.
    pub fn handlers(&self) -> u32
        ensures count { result ≡ length self.now.handlers }
    {
        self.file.handlers.len()
    }

    /// The handler of this number, which each call resolves anew.
    pub fn resolved(&self, alloc: Global, h: u32) -> Result<CheckedHandler, NoMemory>
        requires { h < length self.now.handlers }
        ensures resolved { IfOk result (λ c. (source : Handler)
            → slice_get self.now.handlers h ≡ Some source
            → IsResolved (table_names self.now) source c) }
        ensures body { IfOk result (λ c. block_code c.body ≡ code_at self.now h) }
        ensures within { HandlerWithin self.now h }
    {
        let declared = self.file.tables.as_slice();
        let handler = self.file.handlers.get(h);
        match resolve_handler(alloc, declared, &self.tables, handler) {
            Ok(c) => Ok(c),
            // An accepted file has no fault.
            Err(_) => Err(NoMemory),
        }
    }
}
