// Arrivals.

ghost use Rattle.std.specs.Prelude.{◌≡◌, ◌<◌, ◌++◌, [], ◌∷◌, length, IfOk};

use reply_sheet::Arrival;
use session_values::NoMemory;
use std::alloc::Global;
use std::marker::Model;

/// Arrivals in the order in which they were taken, in room that is reserved once.
#[derive(Debug, Drop)]
pub struct Arrivals {
    items: Vec<Arrival>,
}

impl Model for Arrivals {
    ghost use Rattle.std.specs.Prelude.{vec_capacity};
    ghost use Rattle.client_feed.specs.Ends.{ArrivalsView};

    ghost Value = { ArrivalsView };

    ghost view = { λ a. record { list = a.items.items; room = vec_capacity a.items } };
}

impl Arrivals {
    /// An empty list with room for so many arrivals.
    pub fn with_room(alloc: Global, room: u32) -> Result<Arrivals, NoMemory>
        ensures { IfOk result (λ a. a ≡ record { list = []; room = room }) }
    {
        let items = Vec::with_capacity(alloc, room as usize)?;
        Ok(Arrivals { items })
    }

    /// Appends an arrival, in room that is left for it.
    pub(crate) fn push(&mut self, next: Arrival)
        requires { length self.old.list < self.old.room }
        ensures { self.new ≡ record { list = self.old.list ++ next ∷ []; room = self.old.room } }
    {
        self.items.push_reserved(next);
    }

    /// The arrivals, the first taken first.
    pub fn list(&self) -> &[Arrival]
        ensures { result.now ≡ self.now.list }
    {
        self.items.as_slice()
    }
}
