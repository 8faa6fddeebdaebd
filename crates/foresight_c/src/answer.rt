// What a caller is told of the bytes that stand in its rooms.

/// What a caller is told beside the status.
#[repr(C)]
#[derive(Drop)]
pub struct Answer {
    /// How many bytes of the text stand at the front of the room for it.
    pub written: usize,
    /// How many bytes the whole text has; 0 where there is none.
    pub needed: usize,
    /// How many bytes of the message stand at the front of the room for it.
    pub told: usize,
}
