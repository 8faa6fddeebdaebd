// Places.

/// Where the caller that serves a ticket has come to, or who feeds a client's requests.
#[derive(Clone, Copy, Debug, PartialEq, Eq)]
pub enum Place {
    /// The ticket is begun.
    Begun(u32),
    /// Its operation is admitted.
    Admitted(u32),
    /// Its operation was done on its shards, which the caller holds.
    Applied(u32),
    /// The ticket has so many entries, of which the last was just made.
    Done(u32, u32),
    /// The ticket is about to end.
    Ending(u32),
    /// The ticket has ended.
    Ended(u32),
    /// The request of this client with this place among its own was sent.
    Sent(u32, u32),
}
