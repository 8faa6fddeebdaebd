// A list of turns with their values, with reserved room.
ghost use Rattle.std.specs.Prelude.{◌≡◌, ◌<◌, [], ◌∷◌, ◌++◌, IfOk, MatchOption, Some, length, slice_get};

use session_values::NoMemory;
use std::alloc::Global;
use std::marker::Model;

// How many turns have a place of their own that is remembered. It is more than a board has.
const PLACES: u32 = 64;

/// Turns with their values, in a list with reserved room.
pub struct Hands<V> {
    list: Vec<(u32, V)>,
    /// For each turn where it was put last, so that it need not be sought. Others may stand there by
    /// now, so nothing is claimed of it.
    places: [u8; 64],
}

impl<V> Model for Hands<V> {
    ghost use Rattle.std.specs.Prelude.{◌<◌, ◌^◌, vec_capacity};
    ghost use Rattle.turn_board.specs.Hands.{HandsView};

    ghost Value = { HandsView V };

    ghost view = { λ hands. record {
      pairs = hands.list.items;
      room = vec_capacity hands.list;
    } };

    ghost invariant = { λ hands. vec_capacity hands.list < 2 ^ 32 };
}

impl<V: Drop> Drop for Hands<V> {
    fn drop(self) {
        let Hands { list, places: _ } = self;
        drop(list);
    }
}

impl<V> Hands<V> {
    ghost use Rattle.std.specs.Borrow.{sem};
    ghost use Rattle.turn_board.specs.Hands.{IsPlaceOf, turn_at};
    ghost use Rattle.turn_board.specs.Lending.{LendsValue};

    /// Empty hands with room for so many values.
    pub fn with_room(alloc: Global, room: u32) -> Result<Hands<V>, NoMemory>
        ensures { IfOk result (λ hands. (hands.pairs ≡ []) × (hands.room ≡ room)) }
    {
        let list = Vec::with_capacity(alloc, room as usize)?;
        Ok(Hands {
            list,
            places: [0; 64],
        })
    }

    /// How many values there are.
    pub fn len(&self) -> u32
        ensures { result ≡ length self.now.pairs }
    {
        self.list.len() as u32
    }

    /// A turn and its value, by its place from 0.
    pub fn get(&self, i: u32) -> &(u32, V)
        requires { i < length self.now.pairs }
        ensures { slice_get self.now.pairs i ≡ Some result.now }
    {
        &self.list[i as usize]
    }

    /// The place of a turn, from 0, or None where it isn't in the hands.
    #[inline(always)]
    pub fn place_of(&self, turn: u32) -> Option<u32>
        ensures { IsPlaceOf self.now.pairs turn result }
    {
        let guess = u32::from(self.places[(turn % PLACES) as usize]);
        if guess < self.len() && self.get(guess).0 == turn {
            return Some(guess);
        }
        self.sought(turn)
    }

    // The same, by one pair after another.
    #[inline(never)]
    fn sought(&self, turn: u32) -> Option<u32>
        ensures { IsPlaceOf self.now.pairs turn result }
    {
        for i in 0..self.len() {
            if self.get(i).0 == turn {
                return Some(i);
            }
        }
        None
    }

    /// The value at a place, from 0, to be changed there. Its turn stays.
    pub fn value_mut(&mut self, i: u32) -> &mut V
        requires { i < length self.old.pairs }
        ensures* writes_back { sem 𝓛 (LendsValue V.row self.entry i result) }
        ensures value { slice_get self.old.pairs i ≡ Some (turn_at self.old.pairs i, result.now) }
    {
        let pair = &mut self.list[i as usize];
        &mut pair.1
    }

    /// Puts a turn's value behind the others, in the room that there is.
    pub fn push(&mut self, turn: u32, value: V)
        requires { length self.old.pairs < self.old.room }
        ensures pairs { self.new.pairs ≡ self.old.pairs ++ (turn, value) ∷ [] }
        ensures room { self.new.room ≡ self.old.room }
    {
        self.places[(turn % PLACES) as usize] = (self.list.len() % 256) as u8;
        self.list.push_reserved((turn, value));
    }

    /// Takes the first pair out, and keeps its room. The others move up.
    pub fn take_first(&mut self) -> Option<(u32, V)>
        ensures pairs { MatchOption result ((self.old.pairs ≡ []) × (self.new.pairs ≡ []))
            (λ p. self.old.pairs ≡ p ∷ self.new.pairs) }
        ensures room { self.new.room ≡ self.old.room }
    {
        if self.list.is_empty() {
            None
        } else {
            Some(self.list.remove(0))
        }
    }

    /// Takes the last pair out, and keeps its room.
    pub fn take_last(&mut self) -> Option<(u32, V)>
        ensures pairs { MatchOption result ((self.old.pairs ≡ []) × (self.new.pairs ≡ []))
            (λ p. self.old.pairs ≡ self.new.pairs ++ p ∷ []) }
        ensures room { self.new.room ≡ self.old.room }
    {
        self.list.pop()
    }
}
