// Journals.

ghost use Rattle.std.specs.Prelude.{◌≡◌, ◌<◌, ◌+◌, ◌++◌, ◌∷◌, [], length, IfOk};

use crate::event::Event;
use session_values::NoMemory;
use std::alloc::Global;
use std::marker::Model;

/// Events in the order in which they came, in room that is reserved once.
#[derive(Debug, Drop)]
pub struct Journal {
    /// The events, in room that no call changes.
    events: Vec<Event>,
}

impl Model for Journal {
    ghost use Rattle.std.specs.Prelude.{length, vec_capacity, ◌<◌, ◌≤◌, ◌^◌};
    ghost use Rattle.session_journal.specs.Journal.{JournalView};

    ghost Value = { JournalView };

    ghost view = { λ j. record { events = j.events.items; room = vec_capacity j.events } };

    ghost invariant = { λ j. (length j.events.items ≤ vec_capacity j.events)
        × (vec_capacity j.events < 2 ^ 32) };
}

impl Journal {
    /// An empty one with room for so many events.
    pub fn with_room(alloc: Global, events: u32) -> Result<Journal, NoMemory>
        ensures { IfOk result (λ j. j ≡ record { events = []; room = events }) }
    {
        let events = Vec::with_capacity(alloc, events as usize)?;
        Ok(Journal { events })
    }

    /// Appends an event, in room that is left for it.
    pub fn push_reserved(&mut self, e: Event)
        requires { length self.old.events < self.old.room }
        ensures { self.new ≡ record { events = self.old.events ++ e ∷ []; room = self.old.room } }
    {
        self.events.push_reserved(e);
    }

    /// The events, the earliest first.
    pub fn events(&self) -> &[Event]
        ensures { result.now ≡ self.now.events }
    {
        self.events.as_slice()
    }

    /// How many more events there is room for.
    pub fn spare(&self) -> u32
        ensures { result + length self.now.events ≡ self.now.room }
    {
        (self.events.capacity() - self.events.len()) as u32
    }
}
