// What a command asks for that serves a session file.

/// What a command that serves a session file writes of it.
#[derive(Clone, Copy, Debug)]
pub(crate) enum Writes {
    /// The lines of its replies, while it is served.
    Replies,
    /// Its final tables.
    Tables,
    /// The events of the run.
    Events,
    /// For each of its clients, whose requests are served as they arrive, the replies that it has.
    ClientReplies,
}
