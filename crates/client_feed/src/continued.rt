// Requests over tables that a closed hall left.

ghost use Rattle.std.specs.Prelude.{◌≡◌, length};
ghost use Rattle.handler_check.specs.Resolved.{shape_of};
ghost use Rattle.request_files.specs.Servable.{IsServable};
ghost use Rattle.session_values.specs.Opening.{IsOpening};
ghost use Rattle.client_feed.specs.Reopening.{left_lists};

use declaration_insertion::Program;
use hall_serving::{Desk, Foresight, Scratch, Script, Serves, Site, Symbol, Tickets};
use handler_machine::Scripts;
use request_files::Requests;
use session_hall::Closed;
use session_values::{NoMemory, Opening, Value};
use std::marker::Model;
use std::snapshot::Snapshot;
use std::sync::Wait;
use std::thread::Threads;

/// The requests of a round as tickets over the tables that the hall of the round before left. The
/// next hall takes these over, so nobody lists them.
#[derive(Drop)]
pub(crate) struct Continued<'a> {
    /// The same requests over the entries with which the first round opened.
    scripts: Scripts<'a>,
    /// What the round before left. It has no bytes.
    before: Snapshot<Closed>,
}

impl<'a> Model for Continued<'a> {
    ghost use Rattle.std.specs.Coded.{codes};
    ghost use Rattle.syntax_trees.specs.contracts.stmt.Stmt as stmt;
    ghost use Rattle.std.specs.Prelude.{length};
    ghost use Rattle.session_values.specs.Opening.{IsOpening};
    ghost use Rattle.handler_check.specs.Resolved.{shape_of};
    ghost use Rattle.handler_machine.specs.Scripts.{ScriptsView};
    ghost use Rattle.client_feed.specs.Reopening.{left_lists};

    ghost Value = { ScriptsView };

    ghost coded = { Prim.hlevel (codes, stmt.the_row.coded) };

    ghost view = { λ s. record {
      program = s.scripts.program;
      opening = left_lists (length (shape_of s.scripts.program.file)) s.before.value;
      requests = s.scripts.requests;
    } };

    ghost invariant = { λ s. IsOpening (shape_of s.scripts.program.file)
        (left_lists (length (shape_of s.scripts.program.file)) s.before.value) };
}

impl<'a> Continued<'a> {
    /// These requests over the tables that a closed hall left.
    pub(crate) fn over(
        program: &'a Program,
        opening: &'a Opening,
        requests: &'a Requests,
        closed: &Closed,
    ) -> Continued<'a>
        requires opening { IsOpening (shape_of program.now.file) opening.now }
        requires servable { IsServable program.now.file requests.now }
        requires left { IsOpening (shape_of program.now.file)
            (left_lists (length (shape_of program.now.file)) closed.now) }
        ensures { result ≡ record {
          program = program.now;
          opening = left_lists (length (shape_of program.now.file)) closed.now;
          requests = requests.now;
        } }
    {
        Continued {
            scripts: Scripts::over(program, opening, requests),
            before: Snapshot::of(closed),
        }
    }
}

impl<'a> Tickets for Continued<'a> {
    ghost use Rattle.handler_machine.specs.Scripts.{meaning as meaning_of};

    ghost meaning = { meaning_of };

    fn requests(&self) -> u32 {
        Script::requests(&self.scripts)
    }

    fn entry(&self, t: u32, out: &mut Foresight) {
        Script::entry(&self.scripts, t, out)
    }

    fn entry_site(&self, t: u32, values: &mut [Value]) -> Option<Site> {
        Script::entry_site(&self.scripts, t, values)
    }

    fn declaration(&self, site: Site) -> &[Symbol] {
        Script::declaration(&self.scripts, site)
    }

    fn calls(&self) -> u32 {
        Script::calls(&self.scripts)
    }

    fn room(&self, table: u32) -> u32 {
        Script::room(&self.scripts, table)
    }
}

impl<'a> Serves for Continued<'a> {
    fn computes(&self, ticket: u32) -> bool {
        Serves::computes(&self.scripts, ticket)
    }

    fn serve<R: Threads + Wait + Sync, D: Desk<Served = Self>>(
        &self,
        rt: &R,
        ticket: u32,
        scratch: &mut Scratch,
        desk: &mut D,
    ) -> Result<(), NoMemory> {
        self.scripts.serve_at(rt, ticket, scratch, desk)
    }
}
