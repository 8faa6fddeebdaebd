// The steps, each by one function, which counts it.
ghost use Rattle.std.specs.Prelude.{◌≡◌, ◌≢◌, ℕ, suc, ◌<◌, Some, None, []};
ghost use Rattle.std.specs.Int.{bit_at};

use crate::pass::Pass;
use crate::plays::{Aim, Ask, Book, Change, Lay, Part, Reach, Return};
use crate::tie_rule::TieRule;
use crate::words::{IDLE, MASK, Words};
use std::marker::Brand;

impl<V, R: TieRule<V>> Words<V, R> {
    ghost use Rattle.turn_steps.specs.declared.view.Place.TheVariants.{Away, Lies};
    ghost use Rattle.turn_steps.specs.Tied.{all_speak, place};
    ghost use Rattle.turn_steps.specs.Maps.{SameTurns};
    ghost use Rattle.turn_steps.specs.Steps.{asked, put_place, lies_as, returned, booked, left_view, right_view, both_views};
    ghost use Rattle.turn_steps.specs.Passes.{Placed, IdleFirst, id_of, turns_of, held, caller};

    /// Asks for all turns of a set in one step, by setting their bits, and gives the word as it was
    /// found.
    pub fn ask(&self, pass: &mut Pass<V, R::Content>, set: u64) -> u64
        requires pass { Placed (id_of self.now) pass.old.token }
        requires free { (u : ℕ) → bit_at set u ≡ 1 → held pass.old.token u ≡ None }
        ensures { (pass.new.token.table_id ≡ pass.old.token.table_id)
            × (pass.new.token.id ≡ pass.old.token.id)
            × asked R.holds (turns_of self.now) set pass.old.token.me result pass.new.token.me }
    {
        self.table
            .shared
            .fetch_or::<Ask<R>>(&mut pass.token, MASK, set)
    }

    /// Takes what lies in the slot of a held turn, and lays this there. It asks for nothing, gives
    /// nothing back, and counts nothing.
    pub fn exchange(&self, pass: &mut Pass<V, R::Content>, turn: u32, new: Option<V>) -> Option<V>
        requires pass { Placed (id_of self.now) pass.old.token }
        requires turn { turn < turns_of self.now }
        requires held { (c : R.Content) × (held pass.old.token turn ≡ Some c) }
        requires home { place pass.old.token.me.0 turn ≢ Away }
        ensures pass { (pass.new.token.table_id ≡ pass.old.token.table_id)
            × (pass.new.token.id ≡ pass.old.token.id)
            × (pass.new.token.me ≡ (
              put_place turn (lies_as R.content new) pass.old.token.me.0,
              [],
            )) }
        ensures value { lies_as R.content result ≡ place pass.old.token.me.0 turn }
    {
        self.exchange_at::<Brand>(pass, turn, new)
    }

    fn exchange_at<K: Aim>(
        &self,
        pass: &mut Pass<V, R::Content>,
        turn: u32,
        new: Option<V>,
    ) -> Option<V>
        requires aim { K.turn ≡ turn }
        requires pass { Placed (id_of self.now) pass.old.token }
        requires turn { turn < turns_of self.now }
        requires held { (c : R.Content) × (held pass.old.token turn ≡ Some c) }
        requires home { place pass.old.token.me.0 turn ≢ Away }
        ensures pass { (pass.new.token.table_id ≡ pass.old.token.table_id)
            × (pass.new.token.id ≡ pass.old.token.id)
            × (pass.new.token.me ≡ (
              put_place turn (lies_as R.content new) pass.old.token.me.0,
              [],
            )) }
        ensures value { lies_as R.content result ≡ place pass.old.token.me.0 turn }
    {
        let slot = turn as usize;
        let words = &self.table.shared;
        words.load::<Reach<R, K>>(&mut pass.token, IDLE);
        let old = words.exchange(&mut pass.token, slot, new);
        words.load::<Lay<R>>(&mut pass.token, IDLE);
        old
    }

    /// Gives back in one step all turns whose bits the mask lacks, with the contents that they had.
    pub fn give_back(&self, pass: &mut Pass<V, R::Content>, mask: u64)
        requires pass { pass.old.token.table_id ≡ id_of self.now }
        requires lies { (u : ℕ) → u < turns_of self.now → bit_at mask u ≡ 0 → (c : R.Content)
            × (held pass.old.token u ≡ Some c) × (place pass.old.token.me.0 u ≡ Lies c) }
        ensures { (pass.new.token.table_id ≡ pass.old.token.table_id)
            × (pass.new.token.id ≡ pass.old.token.id)
            × returned (turns_of self.now) mask pass.old.token.me pass.new.token.me }
    {
        self.table
            .shared
            .fetch_and::<Return<R>>(&mut pass.token, MASK, mask);
    }

    /// Gives back in one step the book and all other turns whose bits the mask lacks, and gives the
    /// turns that the pass holds new contents.
    pub fn book<K: Change<R::Content>>(&self, pass: &mut Pass<V, R::Content>, mask: u64)
        requires pass { Placed (id_of self.now) pass.old.token }
        requires note { (c : R.Content) × (K.new 0 ≡ Some c) }
        requires lies { (u : ℕ) → u < turns_of self.now → bit_at mask u ≡ 0 → (c : R.Content)
            × (K.new u ≡ Some c) × (place pass.old.token.me.0 u ≡ Lies c) }
        requires held { SameTurns (held pass.old.token) K.new }
        requires moves { R.moves (turns_of self.now) (caller pass.old.token) (held pass.old.token)
            K.new }
        ensures { (pass.new.token.table_id ≡ pass.old.token.table_id)
            × (pass.new.token.id ≡ pass.old.token.id)
            × booked K.new (turns_of self.now) mask pass.old.token.me pass.new.token.me }
    {
        self.table
            .shared
            .fetch_and::<Book<R, K>>(&mut pass.token, MASK, mask);
    }

    /// Cuts off the first of at least two callers, for a pass of its own. So no pass is without a
    /// caller, and a caller's counts stay with its pass.
    pub fn split(&self, pass: &mut Pass<V, R::Content>) -> Pass<V, R::Content>
        requires pass { IdleFirst (id_of self.now) pass.old.token }
        requires callers { (k n : ℕ) × (c : R.Content)
            × (pass.old.token.me.0.speaks ≡ all_speak k (suc (suc n)) c) }
        ensures rest { (pass.new.token.table_id ≡ pass.old.token.table_id)
            × (pass.new.token.id ≡ pass.old.token.id)
            × (pass.new.token.me ≡ (left_view pass.old.token.me.0, pass.old.token.me.1)) }
        ensures first { (result.token.table_id ≡ pass.old.token.table_id)
            × (result.token.me ≡ (right_view pass.old.token.me.0, [])) }
    {
        Pass {
            token: self.table.shared.split_seat::<Part>(&mut pass.token),
        }
    }

    /// Takes in another pass with its callers and its counts.
    pub fn join(&self, pass: &mut Pass<V, R::Content>, other: Pass<V, R::Content>)
        requires pass { IdleFirst (id_of self.now) pass.old.token }
        requires other { IdleFirst (id_of self.now) other.token }
        requires caller_count { other.token.me.0.caller_count ≡ pass.old.token.me.0.caller_count }
        ensures { (pass.new.token.table_id ≡ pass.old.token.table_id)
            × (pass.new.token.id ≡ pass.old.token.id)
            × (pass.new.token.me ≡ (
              both_views pass.old.token.me.0 other.token.me.0,
              pass.old.token.me.1,
            )) }
    {
        self.table
            .shared
            .join_seat::<Part>(&mut pass.token, other.into_token());
    }
}
