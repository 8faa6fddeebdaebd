// What was served.

ghost use Rattle.std.specs.Prelude.{◌≡◌};

use crate::{Arrival, Arrivals};
use session_hall::Closed;
use session_values::Reply;
use std::marker::Model;

/// What was served: the arrivals in their order, a reply for each, and the closed hall of the last
/// round.
#[derive(Drop)]
pub struct Served {
    arrivals: Arrivals,
    replies: Vec<Reply>,
    closed: Option<Closed>,
}

impl Model for Served {
    ghost use Rattle.client_feed.specs.Rounds.{ServedView};

    ghost Value = { ServedView };

    ghost view = { λ s. record {
      arrivals = s.arrivals.list;
      replies = s.replies.items;
      closed = s.closed;
    } };
}

impl Served {
    /// Of these arrivals these replies.
    pub(crate) fn over(arrivals: Arrivals, replies: Vec<Reply>, closed: Option<Closed>) -> Served
        ensures { result ≡ record {
          arrivals = arrivals.list;
          replies = replies.items;
          closed = closed;
        } }
    {
        Served {
            arrivals,
            replies,
            closed,
        }
    }

    /// The arrivals, in their order.
    pub fn arrivals(&self) -> &[Arrival]
        ensures { result.now ≡ self.now.arrivals }
    {
        self.arrivals.list()
    }

    /// The reply of each arrival.
    pub fn replies(&self) -> &[Reply]
        ensures { result.now ≡ self.now.replies }
    {
        self.replies.as_slice()
    }

    /// The closed hall of the last round, if there was a round.
    pub fn into_closed(self) -> Option<Closed>
        ensures { result ≡ self.closed }
    {
        let Served {
            arrivals: _,
            replies: _,
            closed,
        } = self;
        closed
    }
}
