// A session that lives.

ghost use Rattle.std.specs.Prelude.{◌≡◌, ◌∷◌, ◌++◌, ◌+◌, ◌≤◌, List, ℕ, length, true};
ghost use Rattle.std.specs.List.{list_all};
ghost use Rattle.text_lines.specs.Rows.{row_of};
ghost use Rattle.text_lines.specs.Text.{is_line_byte, words as words_of};
ghost use Rattle.live_session.specs.Answers.{IsAnswered, LineAnswered, RowAnswered, TextAnswered};

use crate::accepting::accept;
use crate::acting::acts;
use crate::admission::Admission;
use crate::answers::{Answered, LineRefusal};
use crate::arguments::Arguments;
use crate::first_line::{RequestWords, first_line, request_words};
use crate::history::History;
use crate::reply_line::push_reply;
use crate::running::run_alone;
use crate::tables::LiveTables;
use driven_tickets::OpenTickets;
use handler_machine::Program;
use reply_sheet::TextRoom;
use session_journal::Scratch;
use session_values::{MAX_HANDLERS, MAX_INPUT, Names};
use std::alloc::Global;
use std::marker::Model;

/// Handlers that were read once, and tables on which requests are served one by one, as long as the
/// program that keeps it runs. A program that shares a session between threads gives it to one call
/// at a time.
#[derive(Drop)]
pub struct LiveSession {
    pub(crate) alloc: Global,
    pub(crate) program: Program,
    /// How many keys each handler may add to each table, by table.
    pub(crate) adds: Vec<[u32; MAX_HANDLERS]>,
    /// How many names, the first ones, are those of the handlers' part.
    pub(crate) handler_names: u32,
    pub(crate) most_names: u32,
    pub(crate) names: Names,
    pub(crate) tables: LiveTables,
    /// By which searches begin, in the tables and among the names.
    pub(crate) seed: u64,
    /// How often the names were renewed.
    pub(crate) generation: u64,
    /// Room for the arguments of a request.
    pub(crate) args: Arguments,
    /// Room for the variables of a handler, and for what it declares.
    pub(crate) scratch: Scratch,
    /// The tickets that a program drives on the tables.
    pub(crate) tickets: OpenTickets,
    /// What was served, for proofs alone.
    pub(crate) history: History,
}

impl Model for LiveSession {
    ghost use Rattle.std.specs.Prelude.{vec_capacity};
    ghost use Rattle.std.specs.Coded.{codes};
    ghost use Rattle.session_values.specs.Containers.{container_code};
    ghost use Rattle.syntax_trees.specs.contracts.stmt.Stmt as stmt;
    ghost use Rattle.live_session.specs.Held.{factors_in, held};
    ghost use Rattle.live_session.specs.Live.{IsKept, IsLive, LiveView};

    ghost Value = { LiveView };

    ghost coded = { Prim.hlevel (codes, container_code, stmt.the_row.coded) };

    ghost view = { λ s. record {
      file = s.program.file;
      lists = s.program.lists;
      opened = s.history.opened;
      first_names = s.history.first_names;
      handler_names = s.handler_names;
      most_names = s.most_names;
      names = s.names;
      tables = held s.tables.parts.items;
      seed = s.seed;
      factors = factors_in s.tables.parts.items;
      generation = s.generation;
      tickets = s.tickets;
      driven = s.history.driven;
      lines = s.history.lines;
      replies = s.history.replies;
    } };

    ghost invariant = { λ s. IsLive (record {
      file = s.program.file;
      lists = s.program.lists;
      opened = s.history.opened;
      first_names = s.history.first_names;
      handler_names = s.handler_names;
      most_names = s.most_names;
      names = s.names;
      tables = held s.tables.parts.items;
      seed = s.seed;
      factors = factors_in s.tables.parts.items;
      generation = s.generation;
      tickets = s.tickets;
      driven = s.history.driven;
      lines = s.history.lines;
      replies = s.history.replies;
    }) × IsKept s.program.file s.most_names s.adds.items s.tables.parts.items
        (vec_capacity s.args.values) };
}

impl LiveSession {
    // Serves the request of a line with words.
    fn serve_row<T: TextRoom>(
        &mut self,
        line: &str,
        words: RequestWords<'_>,
        out: &mut T,
    ) -> Answered
        requires words { words_of line.now ≡ words.name.now ∷ words_of words.arguments.rest.now }
        requires room { 264 ≤ T.spare out.old }
        ensures answered { IsAnswered (T.held out.old) (T.held out.new)
            (λ text. RowAnswered self.old line.now (row_of 0 words.entry.name.now
            (words_of words.entry.arguments.rest.now)) result text self.new) }
    {
        let by = Admission {
            alloc: self.alloc,
            program: &self.program,
            adds: self.adds.as_slice(),
            most_names: self.most_names,
            tickets: &self.tickets,
        };
        let h = match accept(
            by,
            words,
            &mut self.names,
            &mut self.args.values,
            &mut self.scratch,
            &mut self.tables.parts,
        ) {
            Ok(h) => h,
            Err(why) => return why,
        };
        let number = self.tickets.next();
        let done = acts(&self.program, &number, &h, &self.args, &self.tables);
        let reply = run_alone(
            self.program.checked(),
            h,
            self.args.values.as_slice(),
            &mut self.scratch,
            &mut self.tables,
        );
        self.history = self.history.served(&line, &reply);
        self.tickets.passed(&done);
        push_reply(&reply, &self.names, out);
        Answered::Served
    }

    // Serves the request of a line.
    pub(crate) fn serve_line<T: TextRoom>(&mut self, line: &str, out: &mut T) -> Answered
        requires line { list_all is_line_byte line.now ≡ true }
        requires room { 264 ≤ T.spare out.old }
        ensures answered { IsAnswered (T.held out.old) (T.held out.new)
            (λ text. LineAnswered self.old line.now result text self.new) }
    {
        if line.len() > MAX_INPUT {
            return Answered::Refused(LineRefusal::TooLong);
        }
        match request_words(line) {
            Some(words) => self.serve_row(line, words, out),
            None => Answered::Nothing,
        }
    }

    /// Serves the request of a line, on the tables that the requests before it left, and appends
    /// its reply's line: that of `serve` without its ticket and the blank behind it. A line that
    /// isn't served changes nothing.
    pub fn request<T: TextRoom>(&mut self, text: &str, out: &mut T) -> Answered
        requires room { 264 ≤ T.spare out.old }
        ensures answered { IsAnswered (T.held out.old) (T.held out.new)
            (λ line. TextAnswered self.old text.now result line self.new) }
    {
        if text.is_empty() {
            return Answered::Nothing;
        }
        let (line, rest) = first_line(text);
        if !rest.is_empty() {
            return Answered::Refused(LineRefusal::ManyLines);
        }
        self.serve_line(line, out)
    }
}
