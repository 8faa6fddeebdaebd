//! Laws on the tickets of clients, and on the text that tells them.

ghost use Rattle.std.specs.Prelude.{◌≡◌, ℕ, ◌<◌, List, length, slice_get, Some, Contains};
ghost use Rattle.std.specs.List.Sorted.{IsStrictlyIncreasing};
ghost use Rattle.session_values.specs.declared.reply.Reply.{Reply};
ghost use Rattle.reply_sheet.specs.Arrivals.{of, Rises};
ghost use Rattle.reply_sheet.specs.ClientText.{client_text};
ghost use Rattle.reply_sheet.specs.Tickets.{IsTicketOf, lines_of, tickets_of};

use crate::arrival::Arrival;

/// The tickets of a client rise strictly, and each is below the number of arrivals. Each ticket below
/// that number is of exactly one client, that of its arrival.
pub fn tickets_are_shared_out()
    ensures rise { (client : ℕ) (got : List Arrival)
        → IsStrictlyIncreasing (tickets_of client got) }
    ensures below { (client : ℕ) (got : List Arrival) (t : ℕ)
        → Contains (tickets_of client got) t → t < length got }
    ensures one { (got : List Arrival) (t : ℕ) → t < length got
        → (x : Arrival) × IsTicketOf got t x }
{}

/// The text of a client is the lines of its tickets, each with the reply at that place.
pub fn text_has_the_tickets()
    ensures { (names : List (List ℕ)) (client : ℕ) (got : List Arrival) (rs : List Reply)
        → length got ≡ length rs → client_text names client 0 got rs
        ≡ lines_of names client rs (tickets_of client got) }
{}

/// Where a client's requests arrived in order, its tickets are those of its requests in order.
pub fn tickets_are_in_order()
    ensures many { (client n : ℕ) (got : List Arrival) → Rises 0 (of client got) n
        → length (tickets_of client got) ≡ n }
    ensures each { (client n : ℕ) (got : List Arrival) (i t : ℕ) → Rises 0 (of client got) n
        → slice_get (tickets_of client got) i ≡ Some t
        → slice_get got t ≡ Some (record { client = client; place = i }) }
{}
