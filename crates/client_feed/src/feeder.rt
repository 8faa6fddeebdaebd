// Feeders.

ghost use Rattle.std.specs.Prelude.{◌≡◌, ◌<◌, ◌+◌, cond};
ghost use Rattle.client_feed.specs.Ends.{all_sent};

use crate::rule::{Hand, InOrder, Sends};
use crossbeam_channel::{Pass, RuledSender};
use reply_sheet::Arrival;
use session_values::Listed;
use std::marker::Model;
use std::sync::Wait;
use std::thread::Threads;
use worker_gate::{Gate, Place};

/// What sends a client's requests.
#[derive(Drop)]
pub struct Feeder {
    pub(crate) sender: RuledSender<Arrival, Hand, InOrder>,
    pub(crate) pass: Pass<Arrival, Hand>,
    pub(crate) client: u32,
    pub(crate) count: u32,
    pub(crate) sent: u32,
}

/// One feeder for each client.
pub type Feeders = Listed<Feeder>;

impl Model for Feeder {
    ghost use Rattle.std.specs.Prelude.{◌≡◌, ◌≤◌};
    ghost use Rattle.crossbeam_channel.specs.Claims.{IsSeatAt};
    ghost use Rattle.crossbeam_channel.specs.Ends.{sends_on};
    ghost use Rattle.client_feed.specs.Ends.{FeederView};
    ghost use Rattle.client_feed.specs.Feeding.{feeder};
    ghost use Rattle.client_feed.specs.Passes.{knows};

    ghost Value = { FeederView };

    ghost view = { λ f. record { client = f.client; count = f.count; sent = f.sent } };

    ghost invariant = { λ f. IsSeatAt (sends_on f.sender) f.pass
        × (knows f.pass ≡ feeder f.client f.sent f.count) × (f.sent ≤ f.count) };
}

impl Feeder {
    /// Sends the client's requests that weren't sent yet, in order. The gate is passed after each.
    pub fn send_all<R: Threads + Wait + Sync, G: Gate>(&mut self, rt: &R, gate: &G)
        ensures { self.new ≡ all_sent self.old }
    {
        let _ = &self.sender;
        for _ in rt.forever() {
            if self.sent >= self.count {
                break;
            }
            let place = self.sent;
            if self.send_next(rt) {
                gate.pass(rt, Place::Sent(self.client, place));
            }
        }
    }

    // Whether the next request was sent; the channel hands it back where nobody receives.
    fn send_next<R: Wait>(&mut self, rt: &R) -> bool
        requires { self.old.sent < self.old.count }
        ensures { self.new ≡ record {
          client = self.old.client;
          count = self.old.count;
          sent = cond result (self.old.sent + 1) self.old.sent;
        } }
    {
        let next = Arrival {
            client: self.client,
            place: self.sent,
        };
        match self.sender.send_as::<Sends, R>(rt, &mut self.pass, next) {
            Ok(()) => {
                self.sent += 1;
                true
            }
            Err(_) => false,
        }
    }
}
