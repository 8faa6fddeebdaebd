// The gatherer.

ghost use Rattle.std.specs.Prelude.{◌≡◌, ◌<◌, ◌≤◌, ◌+◌, ◌++◌, ◌∷◌, [], length, sum, MatchOption};
ghost use Rattle.reply_sheet.specs.Arrivals.{IsDrawn};
ghost use Rattle.client_feed.specs.Ends.{HasGathered};

use crate::arrivals::Arrivals;
use crate::rule::{Hand, InOrder, Takes};
use crossbeam_channel::{Pass, RuledReceiver};
use reply_sheet::Arrival;
use std::marker::Model;
use std::sync::Wait;

/// What takes the requests of all clients, in the order in which they arrive. The channel has room
/// for all of them, so no send waits.
#[derive(Drop)]
pub struct Gatherer {
    pub(crate) receiver: RuledReceiver<Arrival, Hand, InOrder>,
    pub(crate) pass: Pass<Arrival, Hand>,
    pub(crate) left: u32,
}

impl Model for Gatherer {
    ghost use Rattle.std.specs.Prelude.{◌≡◌, ◌+◌, ◌≤◌, length, sum, true};
    ghost use Rattle.crossbeam_channel.specs.Claims.{IsSeatAt};
    ghost use Rattle.crossbeam_channel.specs.Ends.{receives_on, ruled_capacity};
    ghost use Rattle.reply_sheet.specs.Arrivals.{IsDrawn};
    ghost use Rattle.client_feed.specs.Ends.{GathererView};
    ghost use Rattle.client_feed.specs.Passes.{knows};

    ghost Value = { GathererView };

    ghost view = { λ g. record { counts = (knows g.pass).counts; got = (knows g.pass).got } };

    ghost invariant = { λ g. IsSeatAt (receives_on g.receiver) g.pass
        × ((knows g.pass).gets ≡ true)
        × IsDrawn (knows g.pass).counts (knows g.pass).got
        × (g.left + length (knows g.pass).got ≡ sum (knows g.pass).counts)
        × (sum (knows g.pass).counts ≤ ruled_capacity (receives_on g.receiver)) };
}

impl Gatherer {
    /// How many requests didn't arrive yet.
    pub fn left(&self) -> u32
        ensures left { result + length self.now.got ≡ sum self.now.counts }
        ensures drawn { IsDrawn self.now.counts self.now.got }
    {
        self.left
    }

    /// Appends the next arrivals, at most so many, and all where fewer are left. It may wait.
    pub fn gather<R: Wait>(&mut self, rt: &R, most: u32, out: &mut Arrivals)
        requires { length out.old.list + most ≤ out.old.room }
        ensures gathered { HasGathered self.old self.new out.old out.new most }
        ensures drawn { IsDrawn self.new.counts self.new.got }
    {
        let left = self.left();
        let mut wanted = if most < left { most } else { left };
        for _ in rt.forever() {
            if wanted == 0 {
                break;
            }
            if let Some(next) = self.take_next(rt) {
                out.push(next);
                wanted -= 1;
            }
        }
        // What the gatherer keeps of itself holds behind the loop too.
        let _ = &self.left;
    }

    // The next arrival; none where nobody sends.
    fn take_next<R: Wait>(&mut self, rt: &R) -> Option<Arrival>
        requires { length self.old.got < sum self.old.counts }
        ensures { MatchOption result (self.new ≡ self.old)
            (λ x. self.new ≡ record {
              counts = self.old.counts;
              got = self.old.got ++ x ∷ [];
            }) }
    {
        match self.receiver.recv_as::<Takes, R>(rt, &mut self.pass) {
            Ok(next) => {
                self.left -= 1;
                Some(next)
            }
            Err(_) => None,
        }
    }
}
