// Replies that wait for their turn.

ghost use Rattle.std.specs.Prelude.{◌≡◌, ◌+◌, ◌<◌, IfOk, MatchOption, None, length, replicate};
ghost use Rattle.reply_sheet.specs.Pending.{HasTakenNext, IsWaiting, with_kept};

use session_values::{NoMemory, Reply};
use std::alloc::Global;
use std::marker::Model;

/// Replies kept by ticket, at most one a ticket, and handed out in the order of tickets from 0. It
/// takes its memory when it is made, and touches as much as replies wait at once.
#[derive(Drop)]
pub struct Pending {
    /// The replies of the tickets from `first` on, as far as one was kept.
    kept: Vec<Option<Reply>>,
    first: u32,
    next: u32,
    tickets: u32,
}

impl Model for Pending {
    ghost use Rattle.std.specs.Prelude.{◌+◌, ◌-◌, ◌≤◌, length, vec_capacity};
    ghost use Rattle.reply_sheet.specs.Pending.{PendingView, waiting_of};

    ghost Value = { PendingView };

    ghost view = { λ p. record {
      next = p.next;
      waiting = waiting_of p.kept.items (p.next - p.first) (p.tickets - p.first);
    } };

    ghost invariant = { λ p. (p.first ≤ p.next) × (p.next ≤ p.first + length p.kept.items)
        × (p.first + length p.kept.items ≤ p.tickets) × (p.tickets ≤ vec_capacity p.kept) };
}

impl Pending {
    /// Nothing is kept yet, in room for the replies of so many tickets.
    pub fn with_room(alloc: Global, tickets: u32) -> Result<Pending, NoMemory>
        ensures { IfOk result (λ p. p ≡ record { next = 0; waiting = replicate tickets None }) }
    {
        let kept = Vec::with_capacity(alloc, tickets as usize)?;
        Ok(Pending {
            kept,
            first: 0,
            next: 0,
            tickets,
        })
    }

    /// The next ticket.
    pub fn next(&self) -> u32
        ensures { result ≡ self.now.next }
    {
        self.next
    }

    /// Keeps the reply of a ticket, unless one was kept before or the ticket was taken.
    pub fn keep(&mut self, ticket: u32, reply: Reply)
        requires { ticket < self.old.next + length self.old.waiting }
        ensures kept { self.new ≡ with_kept self.old ticket reply }
        ensures room { length self.new.waiting ≡ length self.old.waiting }
    {
        if ticket < self.next {
            return;
        }
        let place = (ticket - self.first) as usize;
        if place >= self.kept.len() {
            let Ok(()) = self.kept.resize(place + 1, None) else {
                unreachable!();
            };
        }
        if self.kept[place].is_none() {
            self.kept[place] = Some(reply);
        }
    }

    /// The next ticket with its reply, where it is kept; the ticket behind it is next then.
    pub fn take_next(&mut self) -> Option<(u32, Reply)>
        ensures { MatchOption result (IsWaiting self.old self.new)
            (λ x. HasTakenNext self.old x self.new) }
    {
        let place = (self.next - self.first) as usize;
        if place >= self.kept.len() {
            return None;
        }
        let reply = self.kept[place]?;
        let ticket = self.next;
        self.next += 1;
        if place + 1 == self.kept.len() {
            self.kept.clear();
            self.first = self.next;
        }
        Some((ticket, reply))
    }
}
