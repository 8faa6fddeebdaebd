// Traces.

ghost use Rattle.std.specs.Prelude.{◌≡◌, ◌<◌, ◌≤◌, ◌++◌, ◌∷◌, [], length, slice_get, IfOk, OnErr, Some};
ghost use Rattle.std.specs.List.{AllByRecursion};
ghost use Rattle.session_journal.specs.Traces.{HasKnownSymbol, max_events};

use crate::Event;
use session_values::NoMemory;
use std::alloc::Global;
use std::marker::Model;

/// The most events of a trace: as many as the journal of any session within its limits may have.
pub const MAX_EVENTS: usize = 440_000;

/// The events of a trace, each with the line that it was read from.
#[derive(Drop)]
pub struct Trace {
    events: Vec<Event>,
    lines: Vec<u32>,
}

impl Model for Trace {
    ghost use Rattle.std.specs.Prelude.{◌≡◌, ◌≤◌, length};
    ghost use Rattle.std.specs.List.{AllByRecursion};
    ghost use Rattle.session_journal.specs.Traces.{HasKnownSymbol, TraceView, max_events};

    ghost Value = { TraceView };

    ghost view = { λ t. record { events = t.events.items; lines = t.lines.items } };

    ghost invariant = { λ t. (length t.lines.items ≡ length t.events.items)
        × (length t.events.items ≤ max_events) × AllByRecursion HasKnownSymbol t.events.items };
}

impl Trace {
    /// A trace without events.
    pub fn new(alloc: Global) -> Trace
        ensures { result ≡ record { events = []; lines = [] } }
    {
        Trace {
            events: Vec::new(alloc),
            lines: Vec::new(alloc),
        }
    }

    /// A trace without events, with room for so many.
    pub fn with_room(alloc: Global, events: usize) -> Result<Trace, NoMemory>
        ensures { IfOk result (λ t. t ≡ record { events = []; lines = [] }) }
    {
        Ok(Trace {
            events: Vec::with_capacity(alloc, events)?,
            lines: Vec::with_capacity(alloc, events)?,
        })
    }

    /// Adds an event behind the others, with its line.
    pub fn push(&mut self, e: Event, line: u32) -> Result<(), NoMemory>
        requires room { length self.old.events < max_events }
        requires known { HasKnownSymbol e }
        ensures pushed { IfOk result (λ _. self.new ≡ record {
          events = self.old.events ++ e ∷ [];
          lines = self.old.lines ++ line ∷ [];
        }) }
        ensures err { OnErr result (self.new ≡ self.old) }
    {
        self.events.reserve(1)?;
        self.lines.reserve(1)?;
        self.events.push_reserved(e);
        self.lines.push_reserved(line);
        Ok(())
    }

    /// The events, the earliest first.
    pub fn events(&self) -> &[Event]
        ensures events { result.now ≡ self.now.events }
        ensures few { length result.now ≤ max_events }
        ensures known { AllByRecursion HasKnownSymbol result.now }
    {
        self.events.as_slice()
    }

    /// The line of the event at this place.
    pub fn line(&self, i: u32) -> u32
        requires { i < length self.now.events }
        ensures { slice_get self.now.lines i ≡ Some result }
    {
        self.lines[i as usize]
    }
}
