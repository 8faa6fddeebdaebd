// Callers.

ghost use Rattle.std.specs.Prelude.{◌≡◌};

use crate::stage::Stage;
use hall_rule::{HallRule, Held};
use session_journal::Tickets;
use session_values::Listed;
use turn_board::{Hands, Seat};

/// Who serves one ticket at a time in a hall. It is made to move to a thread.
#[derive(Drop)]
pub struct Caller<S: Tickets + Drop> {
    pub(crate) seat: Seat<Held<S>, HallRule<S>>,
    /// Its place among the hall's callers, from 0.
    pub(crate) number: u32,
    pub(crate) stage: Stage,
    /// The shards that it holds, by turn.
    pub(crate) hands: Hands<Held<S>>,
}

/// The callers of a hall, in their order.
pub type Callers<S> = Listed<Caller<S>>;

impl<S: Tickets + Drop> Caller<S> {
    /// What it is at.
    pub fn stage(&self) -> Stage
        ensures { result ≡ self.now.stage }
    {
        self.stage
    }
}
