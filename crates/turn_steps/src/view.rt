// What a seat knows. No value of a view is made.

use std::collections::LinkedList;
use std::snapshot::Snapshot;

/// Where the value of a held turn is: the slot is at home and empty, or the seat has it, or a value
/// with this content lies in it.
pub enum Place<C> {
    Vacant,
    Away,
    Lies(C),
}

/// What a seat knows of the board.
pub struct View<C> {
    /// The callers that the seat speaks for, each with its note.
    pub speaks: LinkedList<(u64, C)>,
    /// By turn: the counted content, where the seat holds the turn.
    pub counts: LinkedList<Option<C>>,
    /// By turn: where its value is.
    pub places: LinkedList<Place<C>>,
    /// By turn: how often the seat found it taken by another seat.
    pub lost: LinkedList<u64>,
    /// How often the seat gave the book back.
    pub given: u64,
    /// The number of callers of the board.
    pub caller_count: u64,
    /// How often the seat asked for turns: for a set that is asked for in one step, once.
    pub asks: u64,
    /// How often the seat gave turns back: for all turns that one step gives back, once.
    pub givings: u64,
    /// The last change of counted contents that the seat made, or knows of from its beginning: its
    /// number among all changes of the board, and the contents of all turns that it left.
    pub change: (u64, LinkedList<C>),
}

/// What the table is told when it is made.
pub struct Opening<V> {
    /// How many turns there are.
    pub turns: u64,
    pub caller_count: u64,
    /// The first turn's value.
    pub book: Snapshot<V>,
    /// All turns' values.
    pub values: Snapshot<Vec<V>>,
}

impl<V> Drop for Opening<V> {
    fn drop(self) {
        let Opening {
            turns: _,
            caller_count: _,
            book,
            values,
        } = self;
        drop(book);
        drop(values);
    }
}
