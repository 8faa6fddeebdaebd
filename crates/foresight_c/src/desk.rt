// Desks: what a handle stands for.

use crate::session_desk::SessionDesk;
use driven_tickets::DrivenTables;

/// Tables with the tickets that a program drives on them, or a session that lives.
#[derive(Drop)]
pub enum Desk {
    Tables(DrivenTables),
    Session(SessionDesk),
}
