// The tables of a session.

use handler_machine::Answerer;
use session_values::{NoMemory, Op, Value};
use shard_tables::Part;
use table_lines::TellsEntries;

/// The tables of a session, each whole in one shard. Room for the keys that a handler may add is
/// taken before it runs, so that no operation wants memory: one that found no room would change
/// nothing and reply nil.
#[derive(Drop)]
pub(crate) struct LiveTables {
    pub(crate) parts: Vec<Part>,
}

impl Answerer for LiveTables {
    ghost use Rattle.std.specs.Prelude.{true, map};
    ghost use Rattle.session_values.specs.Tables.{kind_of};
    ghost use Rattle.live_session.specs.Held.{LiveStep, held};

    ghost shape = { λ a. map kind_of (held a.parts.items) };

    ghost Step = { LiveStep };

    ghost sure = { λ _. true };

    fn answer(&mut self, op: Op) -> Result<Value, NoMemory> {
        let table = op.table as usize;
        if !self.parts[table].has_room(op.kind) {
            return Ok(Value::Nil);
        }
        let reply = self.parts[table].apply(op);
        // A program holds it.
        reply.bounds();
        Ok(reply)
    }
}

impl TellsEntries for LiveTables {
    ghost use Rattle.live_session.specs.Held.{lists_in};

    ghost lists = { λ t. lists_in t.parts.items };

    fn entry_count(&self, table: u32) -> u32 {
        self.parts[table as usize].len()
    }

    fn entry_at(&self, table: u32, i: u32) -> (Value, Value) {
        self.parts[table as usize].entry(i)
    }
}
