// What a caller is told of lines that a session served.

/// What a caller is told beside the status.
#[repr(C)]
#[derive(Drop)]
pub struct Served {
    /// How many bytes of whole lines are used.
    pub used: usize,
    /// How many bytes of replies stand at the front of the room for them.
    pub written: usize,
    /// How many requests were served.
    pub requests: usize,
    /// How many bytes of the message stand at the front of the room for it.
    pub told: usize,
    /// The open ticket that is in the way, where a line is delayed, and else 0.
    pub older: u64,
}
