// The requests of a program as a script.

ghost use Rattle.std.specs.Prelude.{◌≡◌, ◌<◌, ◌≤◌, List, [], None, false, length, IfOk, OnErr};
ghost use Rattle.session_values.specs.Limits.{max_tables};
ghost use Rattle.session_values.specs.Opening.{IsOpening, Pair};
ghost use Rattle.session_journal.specs.Served.{IsServed, IsStopped};
ghost use Rattle.handler_check.specs.Resolved.{shape_of};
ghost use Rattle.handler_machine.specs.Asking.{Breaks, Runs, Stays};
ghost use Rattle.request_files.specs.Servable.{IsServable};
ghost use Rattle.handler_machine.specs.Scripts.{meaning, meaning_over};

use crate::running::run_handler;
use crate::serving::serve_one;
use crate::sums::{args_of, count_adds, count_calls, handler_of};
use crate::{Answerer, put_args, set_up};
use declaration_insertion::Program;
use handler_check::Checked;
use request_files::Requests;
use session_journal::{Desk, Scratch, Script, Serves, Site};
use session_values::{MAX_VARIABLES, NoMemory, Opening, Reply, TableKind, Value};
use std::alloc::Global;
use std::marker::Model;
use std::sync::Wait;
use std::thread::Threads;
use symbolic_ops::{Foresight, Symbol, instantiate};

/// A handler computes for long that may do more work than so much for each of its calls, and once
/// more. The bounds are those of the checker: a statement is one, a turn of a loop one more.
const MUCH_WORK: u32 = 256;

/// A program, the entries with which its tables open, and the requests that were read for it: each
/// request is a ticket.
#[derive(Drop)]
pub struct Scripts<'a> {
    program: &'a Program,
    // The program without its declarations.
    checked: &'a Checked,
    opening: &'a Opening,
    requests: &'a Requests,
}

impl<'a> Model for Scripts<'a> {
    ghost use Rattle.std.specs.Prelude.{◌≡◌};
    ghost use Rattle.std.specs.Coded.{codes};
    ghost use Rattle.syntax_trees.specs.contracts.stmt.Stmt as stmt;
    ghost use Rattle.handler_machine.specs.Scripts.{KeepsScripts, ScriptsView};

    ghost Value = { ScriptsView };

    ghost coded = { Prim.hlevel (codes, stmt.the_row.coded) };

    ghost view = { λ s. record {
      program = s.program.now;
      opening = s.opening.now;
      requests = s.requests.now;
    } };

    ghost invariant = { λ s. KeepsScripts (record {
      program = s.program.now;
      opening = s.opening.now;
      requests = s.requests.now;
    }) × (s.checked.now ≡ s.program.now.file) };
}

impl<'a> Scripts<'a> {
    /// The script of requests that were read for this program, over tables that open with these
    /// entries.
    pub fn over(program: &'a Program, opening: &'a Opening, requests: &'a Requests) -> Scripts<'a>
        requires opening { IsOpening (shape_of program.now.file) opening.now }
        requires servable { IsServable program.now.file requests.now }
        ensures { result ≡ record {
          program = program.now;
          opening = opening.now;
          requests = requests.now;
        } }
    {
        let checked = program.checked();
        Scripts {
            program,
            checked,
            opening,
            requests,
        }
    }

    /// The kinds of the tables.
    pub fn shape(&self, alloc: Global) -> Result<Vec<TableKind>, NoMemory>
        ensures kinds { IfOk result (λ shape. shape.items ≡ (meaning self.now).shape) }
        ensures few { IfOk result (λ shape. length shape.items ≤ max_tables) }
    {
        self.checked.shape(alloc)
    }

    /// Runs the handler of a ticket on what answers its operations. Want of memory comes only where
    /// what answers isn't sure.
    pub fn run_ticket<A: Answerer>(
        &self,
        t: u32,
        scratch: &mut Scratch,
        who: &mut A,
    ) -> Result<Reply, NoMemory>
        requires ticket { t < (meaning self.now).requests }
        requires shape { A.shape who.old ≡ (meaning self.now).shape }
        ensures runs { IfOk result (λ reply. Runs A.Step ((meaning self.now).next t)
            who.old who.new reply) }
        ensures breaks { OnErr result (Breaks A.Step ((meaning self.now).next t)
            who.old who.new) }
        ensures unsure { OnErr result (A.sure who.old ≡ false) }
        ensures stays { Stays A.shape A.sure who.old who.new }
    {
        let h = handler_of(self.requests, t);
        run_handler(self.checked, h, args_of(self.requests, t), scratch, who)
    }

    /// Serves the desk's ticket, which has just begun, to its end, by the handler of this script's
    /// ticket of the same number. The desk's script may open its tables otherwise.
    pub fn serve_at<R: Threads + Wait + Sync, D: Desk>(
        &self,
        rt: &R,
        ticket: u32,
        scratch: &mut Scratch,
        desk: &mut D,
    ) -> Result<(), NoMemory>
        requires same { (opening : List (List Pair)) × (D.Served.meaning (D.script desk.old)
            ≡ meaning_over self.now opening) }
        requires ticket { (D.at desk.old).ticket ≡ ticket }
        requires within { ticket < (meaning self.now).requests }
        requires fresh { (D.at desk.old).entries ≡ [] }
        requires idle { (D.at desk.old).waiting ≡ None }
        requires going { (D.at desk.old).ended ≡ false }
        requires present { (D.at desk.old).present ≡ (meaning self.now).entry ticket }
        ensures script { D.script desk.new ≡ D.script desk.old }
        ensures served { IfOk result (λ _. IsServed (D.Served.meaning (D.script desk.old))
            (D.at desk.old) (D.at desk.new)) }
        ensures stopped { OnErr result (IsStopped (D.Served.meaning (D.script desk.old))
            (D.at desk.old) (D.at desk.new)) }
    {
        let h = handler_of(self.requests, ticket);
        serve_one(
            rt,
            self.program,
            h,
            args_of(self.requests, ticket),
            scratch,
            desk,
        )
    }
}

impl<'a> Script for Scripts<'a> {
    ghost use Rattle.handler_machine.specs.Scripts.{meaning as meaning_of};

    ghost meaning = { meaning_of };

    fn requests(&self) -> u32 {
        self.requests.len()
    }

    fn entry(&self, t: u32, out: &mut Foresight) {
        let list = self.program.entry(handler_of(self.requests, t));
        let mut env = [Value::Nil; MAX_VARIABLES];
        // The variables behind the arguments are nil already.
        put_args(&mut env, args_of(self.requests, t));
        instantiate(list, &env, out);
    }

    fn entry_site(&self, t: u32, values: &mut [Value]) -> Option<Site> {
        set_up(values, args_of(self.requests, t));
        Some(Site {
            part: handler_of(self.requests, t),
            point: 0,
        })
    }

    fn declaration(&self, site: Site) -> &[Symbol] {
        self.program.declaration(site.part, site.point)
    }

    fn calls(&self) -> u32 {
        count_calls(self.checked, self.requests)
    }

    fn room(&self, table: u32) -> u32 {
        count_adds(self.checked, self.requests, table)
    }

    fn opening_len(&self, table: u32) -> u32 {
        self.opening.len(table)
    }

    fn opening_entry(&self, table: u32, i: u32) -> (Value, Value) {
        self.opening.entry(table, i)
    }
}

impl<'a> Serves for Scripts<'a> {
    fn computes(&self, ticket: u32) -> bool {
        if ticket >= self.requests.len() {
            return false;
        }
        let h = handler_of(self.requests, ticket);
        self.checked.work_bound(h) / MUCH_WORK > self.checked.calls_bound(h)
    }

    fn serve<R: Threads + Wait + Sync, D: Desk<Served = Self>>(
        &self,
        rt: &R,
        ticket: u32,
        scratch: &mut Scratch,
        desk: &mut D,
    ) -> Result<(), NoMemory> {
        self.serve_at(rt, ticket, scratch, desk)
    }
}
