// Opening a board.
ghost use Rattle.std.specs.Prelude.{◌≡◌, ◌<◌, ◌≤◌, [], IfErr, IfOk, map, Some, vec_len, vec_capacity};
ghost use Rattle.session_values.specs.Limits.{max_callers};
ghost use Rattle.turn_board.specs.Limits.{max_board_turns};

use crate::board::{Board, Spare};
use crate::lists::Seats;
use crate::seat::Seat;
use session_values::NoMemory;
use std::alloc::Global;
use std::sync::Mutex;
use turn_steps::{MAX_BOARD_TURNS, TieRule, Words};

impl<V, R: TieRule<V>> Board<V, R> {
    ghost use Rattle.std.specs.Prelude.{ℕ, suc, ◌∷◌, length, slice_get};
    ghost use Rattle.turn_board.specs.declared.seat.Seat.{Seat as SeatOf};
    ghost use Rattle.turn_steps.specs.Tied.{all_speak};
    ghost use Rattle.turn_steps.specs.Passes.{IdleFirst, id_of};
    ghost use Rattle.turn_board.specs.Openings.{Unlost, Fresh};

    // Cuts off the first of at least two callers, for a seat of its own.
    fn part(&self, seat: &mut Seat<V, R>) -> Seat<V, R>
        requires seat { IdleFirst (id_of self.now.words) seat.old.pass.token }
        requires callers { (k n : ℕ) × (c : R.Content)
            × (seat.old.pass.token.me.0.speaks ≡ all_speak k (suc (suc n)) c) }
        ensures first { IdleFirst (id_of self.now.words) seat.new.pass.token
            × (seat.new.pass.token.me.0.caller_count ≡ seat.old.pass.token.me.0.caller_count) }
        ensures one { IdleFirst (id_of self.now.words) result.pass.token
            × (result.pass.token.me.0.caller_count ≡ seat.old.pass.token.me.0.caller_count) }
        ensures callers { (k n : ℕ) (c : R.Content)
            → seat.old.pass.token.me.0.speaks ≡ all_speak k (suc n) c
            → (seat.new.pass.token.me.0.speaks ≡ all_speak (suc k) n c)
            × (result.pass.token.me.0.speaks ≡ (k, c) ∷ []) }
        ensures counts { Unlost result.pass.token
            × (Unlost seat.old.pass.token → Unlost seat.new.pass.token) }
        ensures change { (seat.new.pass.token.me.0.change ≡ seat.old.pass.token.me.0.change)
            × (result.pass.token.me.0.change ≡ seat.old.pass.token.me.0.change) }
    {
        Seat {
            pass: self.words.split(&mut seat.pass),
        }
    }

    // Gives each caller but the last a seat of its own, and the last one what is left.
    fn hand_out(&self, mut first: Seat<V, R>, list: &mut Vec<Seat<V, R>>, callers: u32)
        requires room { (list.old.items ≡ []) × (callers ≤ vec_capacity list.old) × (0 < callers) }
        requires first { IdleFirst (id_of self.now.words) first.pass.token
            × Unlost first.pass.token }
        requires caller_count { (first.pass.token.me.0.caller_count ≡ callers)
            × ((b : R.Content) × (first.pass.token.me.0.speaks ≡ all_speak 0 callers b)) }
        ensures len { length list.new.items ≡ callers }
        ensures each { (b : R.Content) → first.pass.token.me.0.speaks ≡ all_speak 0 callers b
            → (i : ℕ) (s : SeatOf V R R.Content) → slice_get list.new.items i ≡ Some s
            → Fresh (id_of self.now.words) callers b first.pass.token.me.0.change i s.pass.token }
    {
        for next in 1..callers {
            list.push_reserved(self.part(&mut first));
        }
        list.push_reserved(first);
    }
}

impl<V: Drop, R: TieRule<V>> Board<V, R> {
    ghost use Rattle.std.specs.Prelude.{length, slice_get};
    ghost use Rattle.turn_board.specs.Boards.{turn_count, AllBegin, AllOpened, CanOpen};

    /// A board over these values, by turn, and a seat for each caller. Nothing is taken yet, and
    /// the content of the first value is each caller's note.
    pub fn open(
        alloc: Global,
        values: Vec<V>,
        callers: u32,
    ) -> Result<(Board<V, R>, Seats<V, R>), NoMemory>
        requires turns { vec_len values ≤ max_board_turns }
        requires callers { (0 < callers) × (callers ≤ max_callers) }
        requires rule { CanOpen R.content R.holds values.items callers }
        ensures sizes { IfOk result (λ r. (turn_count r.0 ≡ vec_len values)
            × (length r.1 ≡ callers)) }
        ensures each { IfOk result (λ r. (b : R.Content)
            → slice_get (map R.content values.items) 0 ≡ Some b → AllBegin r.0 callers b r.1) }
        ensures opened { IfOk result (λ r. AllOpened (map R.content values.items) r.1) }
    {
        match Board::open_or_return(alloc, values, callers) {
            Ok(opened) => Ok(opened),
            Err(_) => Err(NoMemory),
        }
    }

    /// The same, where out of memory the values come back.
    pub fn open_or_return(
        alloc: Global,
        values: Vec<V>,
        callers: u32,
    ) -> Result<(Board<V, R>, Seats<V, R>), Vec<V>>
        requires turns { vec_len values ≤ max_board_turns }
        requires callers { (0 < callers) × (callers ≤ max_callers) }
        requires rule { CanOpen R.content R.holds values.items callers }
        ensures sizes { IfOk result (λ r. (turn_count r.0 ≡ vec_len values)
            × (length r.1 ≡ callers)) }
        ensures each { IfOk result (λ r. (b : R.Content)
            → slice_get (map R.content values.items) 0 ≡ Some b → AllBegin r.0 callers b r.1) }
        ensures opened { IfOk result (λ r. AllOpened (map R.content values.items) r.1) }
        ensures back { IfErr result (λ left. left.items ≡ values.items) }
    {
        let Ok(mut list) = Vec::with_capacity(alloc, callers as usize) else {
            return Err(values);
        };
        let Ok(kept) = Vec::with_capacity(alloc, MAX_BOARD_TURNS) else {
            return Err(values);
        };
        match Words::open(alloc, values, callers) {
            Ok((words, pass)) => {
                let kept = Mutex::new(Spare { list: kept });
                let board = Board { words, kept };
                board.hand_out(Seat { pass }, &mut list, callers);
                Ok((board, Seats::from_vec(list)))
            }
            Err(left) => Err(left),
        }
    }
}
