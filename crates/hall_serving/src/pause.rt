// What a job waits between two tickets.

ghost use Rattle.std.specs.Prelude.{◌≡◌};

use session_hall::Hall;
use session_journal::Tickets;
use std::thread;

/// How many yields a pause grows by, and the most that it has.
const STEP: u32 = 32;

const MOST: u32 = 2_000;

/// At each how manieth yield of a pause it looks whether the end is near: a look asks for a word
/// that each end of a ticket writes.
const YIELDS_A_LOOK: u32 = 32;

/// The pause of a caller before it begins its next ticket. It is twice as long, and a little
/// longer, after each ticket that had to wait, and half as long after each that had not. A caller
/// without an open ticket delays nobody, so where tickets are in each other's way, one is served
/// after the other, and elsewhere nobody pauses.
#[derive(Debug, Clone, Copy)]
pub struct Pause {
    yields: u32,
}

impl Pause {
    /// No pause.
    pub fn none() -> Pause
        ensures { result.yields ≡ 0 }
    {
        Pause { yields: 0 }
    }

    // The pause after a ticket that waited so often.
    pub(crate) fn after(&mut self, waits: u32) {
        self.yields = if waits == 0 {
            self.yields / 2
        } else {
            self.yields.saturating_mul(2).saturating_add(STEP).min(MOST)
        };
    }

    // Yields the thread for as long, and no longer than until the last tickets are served: whoever
    // waits for this caller then waits for nothing.
    pub(crate) fn wait<S: Tickets + Drop>(&self, hall: &Hall<S>, requests: u32) {
        for done in 0..self.yields {
            if done % YIELDS_A_LOOK == 0 && hall.is_near_end(requests) {
                break;
            }
            thread::yield_now();
        }
    }
}
