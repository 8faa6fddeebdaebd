// Opening a hall.

ghost use Rattle.std.specs.Prelude.{◌≡◌, ℕ, ◌<◌, ◌≤◌};
ghost use Rattle.std.specs.Prelude.{[], Some, IfOk, length, slice_get, vec_len, vec_capacity};
ghost use Rattle.session_values.specs.Limits.{max_callers, max_shards, max_tables};
ghost use Rattle.session_hall.specs.declared.caller.Caller.{Caller as CallerOf};
ghost use Rattle.session_hall.specs.Closings.{Opens};
ghost use Rattle.session_hall.specs.Names.{script_of};
ghost use Rattle.session_hall.specs.Openings.{AllNew, AreEmpty, FirstValues};

use crate::caller::{Caller, Callers};
use crate::filling::new_parts;
use crate::hall::{Counts, Hall, Spare};
use crate::stage::Stage;
use admission_book::Book;
use hall_rule::{HallRule, Held};
use session_journal::{Script, Tickets};
use session_values::{Listed, MAX_CALLERS, NoMemory, TableKind};
use shard_tables::Part;
use std::alloc::Global;
use std::snapshot::Snapshot;
use std::sync::Mutex;
use std::sync::atomic::AtomicU32;
use turn_board::{Board, Hands, MAX_BOARD_TURNS, Seat};

// The values of the turns, before any ticket is begun.
fn first_values<S: Script + Drop>(
    alloc: Global,
    script: S,
    shape: &[TableKind],
    shards: u32,
    callers: u32,
) -> Result<Vec<Held<S>>, NoMemory>
    requires shape { shape.now ≡ (S.meaning script).shape }
    requires sizes { (0 < shards) × (shards ≤ max_shards) × (length shape.now ≤ max_tables) }
    requires callers { (1 ≤ callers) × (callers ≤ max_callers) }
    ensures { IfOk result (λ v. FirstValues S.meaning script shards callers v.items) }
{
    let book = Book::open(alloc, script, callers)?;
    let mut values = new_parts(alloc, book.script(), shape, shards)?;
    values.insert(0, Held::Register(book))?;
    Ok(values)
}

/// Empty lists for what a hall leaves.
pub(crate) fn spare_lists<S: Tickets + Drop>(
    alloc: Global,
) -> Result<Spare<Seat<Held<S>, HallRule<S>>, Part>, NoMemory> {
    let seats = Vec::with_capacity(alloc, MAX_CALLERS as usize)?;
    let parts = Vec::with_capacity(alloc, MAX_BOARD_TURNS)?;
    Ok(Spare { seats, parts })
}

/// Empty hands for so many callers.
pub(crate) fn empty_hands<S: Tickets + Drop>(
    alloc: Global,
    callers: u32,
) -> Result<Vec<Hands<Held<S>>>, NoMemory>
    ensures { IfOk result (λ hands. AreEmpty callers hands.items) }
{
    let mut list = Vec::with_capacity(alloc, callers as usize)?;
    for made in 0..callers {
        match Hands::with_room(alloc, MAX_BOARD_TURNS as u32) {
            Ok(hands) => list.push_reserved(hands),
            Err(_) => return Err(NoMemory),
        }
    }
    Ok(list)
}

/// A caller for each seat, which serves no ticket yet, in the list that is given.
pub(crate) fn new_callers<S: Tickets + Drop>(
    seats: Vec<Seat<Held<S>, HallRule<S>>>,
    hands: Vec<Hands<Held<S>>>,
    list: Vec<Caller<S>>,
) -> Vec<Caller<S>>
    requires few { vec_len seats ≤ max_callers }
    requires hands { AreEmpty (vec_len seats) hands.items }
    requires room { (list.items ≡ []) × (vec_len seats ≤ vec_capacity list) }
    ensures { AllNew seats.items (vec_len seats) result.items }
{
    let mut left = seats;
    let mut free = hands;
    let mut callers = list;
    for number in 0..left.len() as u32 {
        callers.push_reserved(Caller {
            seat: left.remove(0),
            number,
            stage: Stage::Idle,
            hands: free.remove(0),
        });
    }
    callers
}

impl<S: Script + Drop> Hall<S> {
    /// A hall over a script, with so many shards of each of its tables, which hold what the script
    /// opens with, in which no ticket is begun, and its callers. No call of theirs takes memory.
    pub fn open(
        alloc: Global,
        script: S,
        shape: &[TableKind],
        shards: u32,
        callers: u32,
    ) -> Result<(Hall<S>, Callers<S>), NoMemory>
        requires shape { shape.now ≡ (S.meaning script).shape }
        requires tables { length shape.now ≤ max_tables }
        requires shards { (1 ≤ shards) × (shards ≤ max_shards) }
        requires callers { (1 ≤ callers) × (callers ≤ max_callers) }
        ensures script { IfOk result (λ r. script_of r.0 ≡ script) }
        ensures sizes { IfOk result (λ r. (r.0.sizes.tables ≡ length shape.now)
            × (r.0.sizes.shards ≡ shards) × (r.0.sizes.callers ≡ callers)) }
        ensures count { IfOk result (λ r. length r.1 ≡ callers) }
        ensures callers { IfOk result (λ r. (i : ℕ) (c : CallerOf S)
            → slice_get r.1 i ≡ Some c → Opens S.meaning r.0 i c) }
    {
        let sizes = Counts {
            tables: shape.len() as u32,
            shards,
            callers,
        };
        let kept = spare_lists(alloc)?;
        let hands = empty_hands(alloc, callers)?;
        let list = Vec::with_capacity(alloc, callers as usize)?;
        let copy = Snapshot::of(&script);
        let values = first_values(alloc, script, shape, shards, callers)?;
        let (board, seats) = match Board::open(alloc, values, callers) {
            Ok(opened) => opened,
            Err(_) => return Err(NoMemory),
        };
        let callers = new_callers(seats.into_vec(), hands, list);
        let hall = Hall {
            ends: AtomicU32::new(0),
            wanted: AtomicU32::new(0),
            delayed: AtomicU32::new(0),
            board,
            script: copy,
            sizes,
            kept: Mutex::new(kept),
        };
        Ok((hall, Listed::from_vec(callers)))
    }
}
