// A script that is a list of tickets.

ghost use Rattle.std.specs.Prelude.{◌≡◌, ℕ, ◌<◌, ◌≤◌, ◌-◌, ◌++◌, ◌∷◌, ◌&&◌, ◌==◌, [], cond, length, IfOk};
ghost use Rattle.std.specs.List.{AllByRecursion};
ghost use Rattle.session_values.specs.Limits.{max_requests, max_session_calls};
ghost use Rattle.session_values.specs.Kinds.{is_adding};
ghost use Rattle.session_values.specs.Tables.{Fits};
ghost use Rattle.symbolic_ops.specs.Matching.{HasNoVar};
ghost use Rattle.session_journal.specs.Lists.{HasPlace, adding, answers_only, allows_more, calls_more, last_ticket, with_last};

use crate::script::Script;
use crate::site::Site;
use session_values::{NoMemory, Op, Reply, TableKind, Value};
use std::alloc::Global;
use std::marker::Model;
use symbolic_ops::{Foresight, Symbol};

/// Where a ticket's operations and symbols lie, and its reply.
#[derive(Clone, Copy, Debug)]
pub(crate) struct Row {
    /// What the ticket answers.
    pub(crate) reply: Reply,
    /// The place of its first operation among those of all tickets.
    pub(crate) first_op: u32,
    /// How many operations it calls.
    pub(crate) ops: u32,
    /// The place of its first symbol among those of all tickets.
    pub(crate) first_symbol: u32,
    /// How many symbols it declares.
    pub(crate) symbols: u32,
}

/// Tickets, each of which calls its operations in order, whatever the replies, and then answers its
/// reply. The operations of all tickets lie one after another, and so do the symbols that the
/// tickets declare.
#[derive(Debug, Drop)]
pub struct ListScript {
    /// The kinds of the tables, by table number.
    shape: Vec<TableKind>,
    /// A row for each ticket, by ticket number.
    rows: Vec<Row>,
    /// The operations of all tickets, each ticket's behind those of the one before.
    ops: Vec<Op>,
    /// What the tickets declare, each ticket's symbols behind those of the one before.
    symbols: Vec<Symbol>,
}

impl Model for ListScript {
    ghost use Rattle.std.specs.Prelude.{◌-◌, length, vec_capacity};
    ghost use Rattle.session_journal.specs.Lists.{ListView};
    ghost use Rattle.session_journal.specs.ListRows.{KeepsRows, tickets_of};

    ghost Value = { ListView };

    ghost view = { λ s. record {
      shape = s.shape.items;
      tickets = tickets_of s.ops.items s.symbols.items s.rows.items;
      tickets_left = vec_capacity s.rows - length s.rows.items;
      calls_left = vec_capacity s.ops - length s.ops.items;
      symbols_left = vec_capacity s.symbols - length s.symbols.items;
    } };

    ghost invariant = { λ s. KeepsRows s.shape.items s.rows.items s.ops.items s.symbols.items
        (vec_capacity s.rows) (vec_capacity s.ops) (vec_capacity s.symbols) };
}

impl ListScript {
    /// No tickets yet, over tables of these kinds, with room for so many tickets, operations and
    /// symbols of all tickets together.
    pub fn with_room(
        alloc: Global,
        shape: &[TableKind],
        tickets: u32,
        calls: u32,
        symbols: u32,
    ) -> Result<ListScript, NoMemory>
        requires tickets { tickets ≤ max_requests }
        requires calls { calls ≤ max_session_calls }
        requires symbols { symbols ≤ 400000 }
        ensures { IfOk result (λ s. s ≡ record {
          shape = shape.now;
          tickets = [];
          tickets_left = tickets;
          calls_left = calls;
          symbols_left = symbols;
        }) }
    {
        Ok(ListScript {
            shape: shape.to_vec(alloc)?,
            rows: Vec::with_capacity(alloc, tickets as usize)?,
            ops: Vec::with_capacity(alloc, calls as usize)?,
            symbols: Vec::with_capacity(alloc, symbols as usize)?,
        })
    }

    /// Adds a ticket without operations that answers this reply.
    pub fn ticket(&mut self, reply: Reply)
        requires { 0 < self.old.tickets_left }
        ensures { self.new ≡ record {
          shape = self.old.shape;
          tickets = self.old.tickets ++ answers_only reply ∷ [];
          tickets_left = self.old.tickets_left - 1;
          calls_left = self.old.calls_left;
          symbols_left = self.old.symbols_left;
        } }
    {
        reply.bounds();
        self.rows.push_reserved(Row {
            reply,
            first_op: self.ops.len() as u32,
            ops: 0,
            first_symbol: self.symbols.len() as u32,
            symbols: 0,
        });
    }

    /// Adds an operation to the last ticket, and its symbol to what that ticket declares.
    pub fn call(&mut self, op: Op)
        requires fits { Fits self.old.shape op }
        requires place { HasPlace self.old.tickets }
        requires calls { 0 < self.old.calls_left }
        requires symbols { 0 < self.old.symbols_left }
        ensures { self.new ≡ record {
          shape = self.old.shape;
          tickets = with_last self.old.tickets (calls_more (last_ticket self.old.tickets) op);
          tickets_left = self.old.tickets_left;
          calls_left = self.old.calls_left - 1;
          symbols_left = self.old.symbols_left - 1;
        } }
    {
        op.bounds();
        let last = self.rows.len() - 1;
        self.ops.push_reserved(op);
        self.symbols.push_reserved(Symbol::exact(&op));
        let row = self.rows[last];
        self.rows[last] = Row {
            ops: row.ops + 1,
            symbols: row.symbols + 1,
            ..row
        };
    }

    /// Adds a symbol to what the last ticket declares.
    pub fn allow(&mut self, s: Symbol)
        requires known { HasNoVar s }
        requires place { HasPlace self.old.tickets }
        requires symbols { 0 < self.old.symbols_left }
        ensures { self.new ≡ record {
          shape = self.old.shape;
          tickets = with_last self.old.tickets (allows_more (last_ticket self.old.tickets) s);
          tickets_left = self.old.tickets_left;
          calls_left = self.old.calls_left;
          symbols_left = self.old.symbols_left - 1;
        } }
    {
        let last = self.rows.len() - 1;
        self.symbols.push_reserved(s);
        let row = self.rows[last];
        self.rows[last] = Row {
            symbols: row.symbols + 1,
            ..row
        };
    }
}

/// 1 where the operation may add a key to the table, else 0.
fn adds_to(op: &Op, table: u32) -> u32
    ensures { result ≡ cond {A = ℕ} (is_adding op.now.kind && (op.now.table == table)) 1 0 }
{
    if op.kind.adds() && op.table == table {
        1
    } else {
        0
    }
}

/// How many of the operations may add a key to the table.
fn count_adding(ops: &[Op], table: u32) -> u32
    requires { length ops.now ≤ max_session_calls }
    ensures { result ≡ adding table ops.now }
{
    let mut count = 0;
    for op in ops {
        count += adds_to(op, table);
    }
    count
}

impl Script for ListScript {
    ghost use Rattle.session_journal.specs.Lists.{list_meaning};

    ghost meaning = { λ s. list_meaning s.shape s.tickets };

    fn requests(&self) -> u32 {
        self.rows.len() as u32
    }

    fn entry(&self, t: u32, out: &mut Foresight) {
        let row = self.rows[t as usize];
        let first = row.first_symbol as usize;
        out.copy_from(&self.symbols[first..first + row.symbols as usize]);
    }

    fn calls(&self) -> u32 {
        self.ops.len() as u32
    }

    fn room(&self, table: u32) -> u32 {
        count_adding(self.ops.as_slice(), table)
    }

    fn entry_site(&self, _t: u32, _values: &mut [Value]) -> Option<Site> {
        None
    }

    fn declaration(&self, _site: Site) -> &[Symbol] {
        &[]
    }

    #[tactic(auto, using(crate::proofs::ListLawful::none_there))]
    fn opening_len(&self, _table: u32) -> u32 {
        0
    }

    fn opening_entry(&self, _table: u32, _i: u32) -> (Value, Value) {
        (Value::Nil, Value::Nil)
    }
}
