// What was served by a session.

ghost use Rattle.std.specs.Prelude.{◌≡◌, ℕ, suc, List, [], ◌∷◌, ◌++◌, map};
ghost use Rattle.session_values.specs.declared.reply.Reply.{Reply as Given};
ghost use Rattle.session_values.specs.Opening.{Pair};
ghost use Rattle.live_session.specs.Held.{lists_in};
ghost use Rattle.live_session.specs.Moving.{moved_entries, place_in};

use crate::arguments::Arguments;
use crate::renewing::Kept;
use crate::tables::LiveTables;
use declaration_insertion::Program;
use session_values::{Names, Opening, Reply};
use std::marker::Model;

/// What a session was opened with, how many acts the program did itself, and the lines that were
/// served with their replies. Only proofs read them: it takes no memory, and its calls do nothing
/// when they run.
#[derive(Drop)]
pub(crate) struct History {
    pub ghost opened: { List (List Pair) },
    pub ghost first_names: { List (List ℕ) },
    pub ghost driven: { ℕ },
    pub ghost lines: { List (List ℕ) },
    pub ghost replies: { List Given },
}

impl Model for History {
    ghost use Rattle.std.specs.Borrow.{ftrue};

    ghost also_owns = { λ _. ftrue };
}

// It owns nothing.
unsafe impl Send for History {}

impl History {
    ghost use Rattle.live_session.specs.Invoking.{line_of};

    /// A session was opened with these names and entries.
    pub(crate) fn opened(_names: &Names, _opening: &Opening) -> History
        ensures { result ≡ record {
          opened = _opening.now;
          first_names = _names.now;
          driven = 0;
          lines = [];
          replies = [];
        } }
    {
        History {}
    }

    /// The names were renewed, over these tables: what was done is forgotten.
    pub(crate) fn renewed(_kept: &Kept, _tables: &LiveTables) -> History
        ensures { result ≡ record {
          opened = map (moved_entries (place_in _kept.now.places.items))
              (lists_in _tables.now.parts.items);
          first_names = _kept.now.names;
          driven = 0;
          lines = [];
          replies = [];
        } }
    {
        History {}
    }

    /// A line was served, with this reply.
    pub(crate) fn served(&self, line: &&str, reply: &Reply) -> History
        ensures { result ≡ record {
          opened = self.now.opened;
          first_names = self.now.first_names;
          driven = self.now.driven;
          lines = self.now.lines ++ line.now.now ∷ [];
          replies = self.now.replies ++ reply.now ∷ [];
        } }
    {
        History {}
    }

    /// The request of a handler with these arguments was served, with this reply.
    pub(crate) fn invoked(
        &self,
        _program: &Program,
        _names: &Names,
        _h: &u32,
        _args: &Arguments,
        reply: &Reply,
    ) -> History
        ensures { result ≡ record {
          opened = self.now.opened;
          first_names = self.now.first_names;
          driven = self.now.driven;
          lines = self.now.lines
              ++ line_of _names.now _program.now.file _h.now _args.now.values.items ∷ [];
          replies = self.now.replies ++ reply.now ∷ [];
        } }
    {
        History {}
    }

    /// The program did an act itself.
    pub(crate) fn drove(&self) -> History
        ensures { result ≡ record {
          opened = self.now.opened;
          first_names = self.now.first_names;
          driven = suc self.now.driven;
          lines = self.now.lines;
          replies = self.now.replies;
        } }
    {
        History {}
    }
}
