// The first caller's job, which writes.

use crate::job::Job;
use crate::sheet::Sheet;
use session_journal::Tickets;

/// The first caller's job, and what it has still to write.
#[derive(Drop)]
pub(crate) struct First<S: Tickets + Drop> {
    pub(crate) job: Job<S>,
    pub(crate) sheet: Sheet,
}
