// What is known of every session.

ghost use Rattle.std.specs.Prelude.{◌≡◌, ◌≤◌, ℕ, None};

use crate::session::LiveSession;

impl LiveSession {
    ghost use Rattle.session_journal.specs.Journal.{Replays, by_ticket, run};
    ghost use Rattle.session_values.specs.ReplyText.{reply_text};
    ghost use Rattle.session_values.specs.Serial.{serial_replies, tables_before};
    ghost use Rattle.serve_faults.specs.Input.{Parts};
    ghost use Rattle.serve_faults.specs.Session.{replies_text, tables_text};
    ghost use Rattle.driven_tickets.specs.Acts.{done_in};
    ghost use Rattle.driven_tickets.specs.Desk.{IsDesk, declared};
    ghost use Rattle.live_session.specs.Live.{IsLive, IsOneFile, IsUndriven, desk_in, dump_of};
    ghost use Rattle.live_session.specs.Live.{session_in};

    /// What is known of every session where the program did nothing itself, neither driving a
    /// ticket nor placing a name, whatever lines it gave: its replies and tables are those of the
    /// serial run of one session, whose requests are the lines that it served; so what it replied
    /// and what `dump` writes are what `serve` and `dump` write of one file with all these lines.
    pub fn answered_as_served(&self)
        ensures live { IsLive self.now }
        ensures replies { IsUndriven self.now → self.now.replies
            ≡ serial_replies (session_in self.now) (session_in self.now).requests }
        ensures tables { IsUndriven self.now → self.now.tables
            ≡ tables_before (session_in self.now) (session_in self.now).requests }
        ensures text { (parts : Parts) → IsUndriven self.now → IsOneFile self.now parts
            → replies_text parts self.now.file ≡ reply_text self.now.names 0 self.now.replies }
        ensures dump { (parts : Parts) → IsUndriven self.now → IsOneFile self.now parts
            → tables_text parts self.now.file ≡ dump_of self.now }
    {
        let _ = &self.most_names;
    }

    /// What is known of every session, whatever lines and calls were given: what was done, by
    /// requests and by tickets, leads from the opening tables to what it holds, no ticket is open
    /// that hasn't begun, and the operations that were done, ticket after ticket in the order in
    /// which the tickets began, requests among them, replay from the opening tables with the same
    /// replies, and give the tables that it has.
    pub fn regroups(&self)
        ensures desk { IsDesk (desk_in self.now) }
        ensures unborn { (t : ℕ) → self.now.tickets.next ≤ t
            → declared (desk_in self.now) t ≡ None }
        ensures replays { Replays (desk_in self.now).opening
            (by_ticket self.now.tickets.next (done_in self.now.tickets.acts)) }
        ensures tables { run (desk_in self.now).opening
            (by_ticket self.now.tickets.next (done_in self.now.tickets.acts))
            ≡ self.now.tables }
    {
        let _ = &self.most_names;
    }
}
