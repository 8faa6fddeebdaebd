// What a delay tells.

use session_values::Op;
use symbolic_ops::Symbol;

/// An operation of a ticket that waits, for a symbol of an older ticket.
#[derive(Clone, Copy)]
pub(crate) struct Delay<'a> {
    pub(crate) ticket: u32,
    pub(crate) op: &'a Op,
    pub(crate) older: u32,
    pub(crate) symbol: &'a Symbol,
}
