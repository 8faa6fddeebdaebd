// What a taking answers.

/// What `try_take` answers: the value of the turn, or that the turn was found taken.
#[derive(Drop)]
pub enum Taken<V> {
    Here(V),
    Busy { turn: u32 },
}

/// What `try_take_all` answers: that the values of all turns of the set are in the hands, or the
/// least turn that was found taken.
#[derive(Drop)]
pub enum TookAll {
    Here,
    Busy { turn: u32 },
}
