// What the program is asked to do.

/// What the program is asked to do.
#[derive(Clone, Copy, Debug, PartialEq, Eq)]
pub enum Command {
    /// Write the canonical text of a file of handlers.
    Check,
    /// Write that text with the declarations.
    Show,
    /// Serve a session file, by 1 to 32 callers over 1 to 8 shards a table, and write the replies.
    Serve { callers: u32, shards: u32 },
    /// Serve a session file likewise, and write the final tables in place of the replies.
    Dump { callers: u32, shards: u32 },
    /// Serve a made session of 1 to 20,000 requests, whose draws begin from `start`, and write its
    /// summary.
    Work { requests: u32, start: u32 },
    /// Do the operations of a text of lines beside the holds that it opens, and write their lines.
    Ranges,
    /// Serve a session file as `Serve` does, and write the events of the run in place of the replies.
    Trace { callers: u32, shards: u32 },
    /// Judge the trace with which a session file ends.
    Audit,
    /// Serve the requests of several clients in the order in which they come, and write each client's
    /// replies.
    Clients { callers: u32, shards: u32 },
}
