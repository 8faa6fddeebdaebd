// Opening the words.
ghost use Rattle.std.specs.Prelude.{◌≡◌, ◌<◌, ◌≤◌, [], IfErr, IfOk, List, map, Some, vec_len, vec_capacity};
ghost use Rattle.turn_steps.specs.Limits.{max_board_turns};

use crate::pass::Pass;
use crate::tie_rule::TieRule;
use crate::view::Opening;
use crate::words::{WORDS, Words};
use atomic_table::{Refused, Table};
use std::alloc::Global;
use std::snapshot::Snapshot;

// Moves each value into a slot of its own.
fn fill_slots<V: Drop>(values: &mut Vec<V>, list: Vec<Option<V>>) -> Vec<Option<V>>
    requires room { (list.items ≡ []) × (vec_len values.old ≤ vec_capacity list) }
    ensures slots { result.items ≡ map Some values.old.items }
    ensures values { values.new.items ≡ [] }
    ensures room { vec_capacity values.new ≡ vec_capacity values.old }
{
    let mut slots = list;
    for done in 0..values.len() {
        slots.push_reserved(Some(values.remove(0)));
    }
    slots
}

// Moves the values out of their slots again.
fn empty_slots<V: Drop>(slots: Vec<Option<V>>, values: &mut Vec<V>)
    requires slots { (all : List V) × (slots.items ≡ map Some all) }
    requires room { (values.old.items ≡ []) × (vec_len slots ≤ vec_capacity values.old) }
    ensures { map Some values.new.items ≡ slots.items }
{
    let mut left = slots;
    for done in 0..left.len() {
        match left.remove(0) {
            Some(value) => values.push_reserved(value),
            None => unreachable!(),
        }
    }
}

impl<V: Drop, R: TieRule<V>> Words<V, R> {
    ghost use Rattle.std.specs.Prelude.{ℕ, replicate, slice_get};
    ghost use Rattle.turn_steps.specs.Tied.{first_view};
    ghost use Rattle.turn_steps.specs.Passes.{id_of, turns_of};

    /// Words over these values, by turn, and the pass that speaks for all callers. Nothing is taken
    /// yet, and the content of the first value is each caller's note. Out of memory, the values
    /// come back.
    pub fn open(
        alloc: Global,
        values: Vec<V>,
        callers: u32,
    ) -> Result<(Words<V, R>, Pass<V, R::Content>), Vec<V>>
        requires turns { vec_len values ≤ max_board_turns }
        requires rule { (b : R.Content) × (slice_get (map R.content values.items) 0 ≡ Some b)
            × R.holds (map R.content values.items) (replicate callers b) }
        ensures turns { IfOk result (λ r. turns_of r.0 ≡ vec_len values) }
        ensures first { IfOk result (λ r. (b : R.Content)
            → slice_get (map R.content values.items) 0 ≡ Some b
            → (r.1.token.table_id ≡ id_of r.0)
            × (r.1.token.me ≡ (
              first_view (vec_len values) callers b (map R.content values.items),
              [],
            ))) }
        ensures back { IfErr result (λ v. v.items ≡ values.items) }
    {
        let about = Opening {
            turns: values.len() as u64,
            caller_count: callers as u64,
            book: Snapshot::of(&values[0]),
            values: Snapshot::of(&values),
        };
        let mut left = values;
        let slots = match Vec::with_capacity(alloc, left.len()) {
            Ok(list) => fill_slots(&mut left, list),
            Err(_) => return Err(left),
        };
        match Table::new(alloc, &WORDS, slots, &about) {
            Ok((table, token)) => Ok((Words { table }, Pass { token })),
            Err(Refused { slots }) => {
                empty_slots(slots, &mut left);
                Err(left)
            }
        }
    }
}
