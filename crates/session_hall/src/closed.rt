// Closed halls.

ghost use Rattle.std.specs.Prelude.{◌≡◌, ◌*◌, ◌<◌, Some, length, slice_get};
ghost use Rattle.session_journal.specs.Script.{Meaning};
ghost use Rattle.session_hall.specs.Closings.{IsClosed, IsDone};
ghost use Rattle.session_hall.specs.Listings.{AreLeft, listed, shards_at};

use crate::listing::{count_entries, entry_at};
use admission_book::Replies;
use session_journal::Journal;
use session_values::{Listed, Value};
use shard_tables::Part;
use std::marker::Model;

/// The shards of a hall, by turn.
pub type Parts = Listed<Part>;

/// What a hall leaves when all its callers are out. Only `Hall::close` makes one.
#[derive(Drop)]
pub struct Closed {
    pub(crate) journal: Journal,
    pub(crate) replies: Replies,
    pub(crate) parts: Parts,
    /// How many shards each table has.
    pub(crate) shards: u32,
    /// How many callers served.
    pub(crate) callers: u32,
}

impl Model for Closed {
    ghost use Rattle.session_hall.specs.Closings.{ClosedView, IsClosed};

    ghost Value = { ClosedView };

    ghost view = { λ c. record {
      journal = c.journal.events;
      replies = c.replies;
      parts = c.parts;
      shards = c.shards;
      callers = c.callers;
    } };

    ghost invariant = { λ c. IsClosed (record {
      journal = c.journal.events;
      replies = c.replies;
      parts = c.parts;
      shards = c.shards;
      callers = c.callers;
    }) };
}

impl Closed {
    /// What was done, to the last ticket's end.
    pub fn journal(&self) -> &Journal
        ensures events { result.now.events ≡ self.now.journal }
        ensures closed { IsClosed self.now }
    {
        &self.journal
    }

    /// The replies of all tickets, in their order.
    pub fn replies(&self) -> &Replies
        ensures { result.now ≡ self.now.replies }
    {
        &self.replies
    }

    /// The shards, in the order of their turns.
    pub fn parts(&self) -> &Parts
        ensures { result.now ≡ self.now.parts }
    {
        &self.parts
    }

    /// How many shards each table has.
    pub fn shards(&self) -> u32
        ensures { result ≡ self.now.shards }
    {
        self.shards
    }

    /// How many callers served.
    pub fn callers(&self) -> u32
        ensures { result ≡ self.now.callers }
    {
        self.callers
    }

    // The shards of a table.
    fn shards_at(&self, table: u32) -> &[Part]
        requires { table * self.now.shards < length self.now.parts }
        ensures shards { result.now ≡ shards_at self.now table }
        ensures closed { IsClosed self.now }
    {
        let parts = self.parts.as_slice();
        let first = table as usize * self.shards as usize;
        &parts[first..first + self.shards as usize]
    }

    /// How many entries a table was left with.
    pub fn len(&self, table: u32) -> u32
        requires { table * self.now.shards < length self.now.parts }
        ensures count { result ≡ length (listed self.now table) }
        ensures left { (m : Meaning) → IsDone m self.now
            → AreLeft m table (listed self.now table) }
    {
        count_entries(self.shards_at(table))
    }

    /// An entry that a table was left with: a key and what it is bound to, or a member and nil.
    /// Nothing is searched for: it looks at the lengths of the table's shards.
    pub fn entry(&self, table: u32, i: u32) -> (Value, Value)
        requires table { table * self.now.shards < length self.now.parts }
        requires entry { i < length (listed self.now table) }
        ensures { slice_get (listed self.now table) i ≡ Some result }
    {
        entry_at(self.shards_at(table), i)
    }
}
