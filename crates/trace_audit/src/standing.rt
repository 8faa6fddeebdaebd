// How a ticket stands among the events so far.

/// What is known of a ticket after the events so far.
#[derive(Clone, Copy, Debug)]
pub(crate) struct Standing {
    /// How many of its operations were done.
    pub(crate) done: u64,
    /// Whether its last event is a Delay.
    pub(crate) delayed: bool,
    pub(crate) ended: bool,
}
