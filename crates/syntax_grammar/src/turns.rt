// The head of a repeat.

/// How often a repeat runs, and its variable, each with its byte place.
#[derive(Clone, Copy)]
pub struct Turns {
    pub turns: u64,
    pub turns_at: u32,
    pub name: u32,
    pub name_at: u32,
}
