// Opening a hall over a closed one.

ghost use Rattle.std.specs.Prelude.{◌≡◌, ℕ, suc, ◌+◌, ◌*◌, ◌<◌, ◌≤◌, [], ◌∷◌};
ghost use Rattle.std.specs.Prelude.{List, Some, IfErr, IfOk, OnErr, OnOk};
ghost use Rattle.std.specs.Prelude.{length, map, slice_get, vec_len, vec_capacity};
ghost use Rattle.session_values.specs.Limits.{max_callers, max_shards, max_tables};
ghost use Rattle.session_values.specs.Tables.{size_of};
ghost use Rattle.session_journal.specs.Script.{IsScript};
ghost use Rattle.shard_tables.specs.declared.part.Part.{Part as PartOf};
ghost use Rattle.shard_tables.specs.Either.{shard_view};
ghost use Rattle.admission_book.specs.Book.{opened as opened_book};
ghost use Rattle.admission_book.specs.Methods.{BookView};
ghost use Rattle.turn_board.specs.Boards.{last_change};
ghost use Rattle.turn_board.specs.Limits.{max_board_turns};
ghost use Rattle.hall_rule.specs.declared.held.Held.TheVariants.{Register, Table};
ghost use Rattle.hall_rule.specs.Contents.{Content};
ghost use Rattle.session_hall.specs.declared.caller.Caller.{Caller as CallerOf};
ghost use Rattle.session_hall.specs.Closings.{Opens};
ghost use Rattle.session_hall.specs.Names.{script_of};
ghost use Rattle.session_hall.specs.Openings.{AreEmpty};
ghost use Rattle.session_hall.specs.Reopenings.{AreKept, AreOpening, HaveMovedIn};
ghost use Rattle.session_hall.specs.Reopenings.{HaveRoom, IsLeftAs, IsRoomFor};
ghost use Rattle.session_hall.specs.Reopenings.{OpensOver, grown_room as room_when_grown};

use crate::caller::{Caller, Callers};
use crate::closed::Closed;
use crate::closing::parts_of;
use crate::hall::{Counts, Hall, Spare};
use crate::opening::{empty_hands, new_callers, spare_lists};
use admission_book::Book;
use hall_rule::{HallRule, Held};
use session_journal::Tickets;
use session_values::{Listed, MAX_SESSION_CALLS, NoMemory, TableKind};
use shard_tables::Part;
use std::alloc::Global;
use std::snapshot::Snapshot;
use std::sync::Mutex;
use std::sync::atomic::AtomicU32;
use turn_board::{Board, Hands, MAX_BOARD_TURNS, Seat};

// All that a hall takes memory for beside its shards and its board: the lists are empty.
#[derive(Drop)]
struct Ready<S: Tickets + Drop> {
    book: Book<S>,
    values: Vec<Held<S>>,
    hands: Vec<Hands<Held<S>>>,
    callers: Vec<Caller<S>>,
    kept: Spare<Seat<Held<S>, HallRule<S>>, Part>,
}

// For how many keys a part gets room that has so many keys and too little room to spare: twice its
// room, but no more than for the keys that may still be added to its table, and enough for the next
// of these.
fn grown_room(len: u32, spare: u32, adds: u32, later: u32) -> u32
    requires room { len + spare ≤ 1073741824 }
    requires adds { len + adds ≤ 1073741824 }
    ensures { result ≡ room_when_grown len spare adds later }
{
    let twice = 2 * (len + spare);
    let most = len + later.min(MAX_SESSION_CALLS as u32);
    twice.min(most).max(len + adds)
}

// Gives a part room for so many more keys, unless it has that.
fn fit(alloc: Global, part: &mut Part, adds: u32, later: u32) -> Result<(), NoMemory>
    requires few { size_of (shard_view part.old).container + adds ≤ 1200000 }
    ensures container { (shard_view part.new).container ≡ (shard_view part.old).container }
    ensures more { (shard_view part.old).room ≤ (shard_view part.new).room }
    ensures room { OnOk result
        (IsRoomFor adds later (shard_view part.old) (shard_view part.new).room) }
{
    let spare = part.spare();
    if spare < adds {
        *part = part.grown(alloc, grown_room(part.len(), spare, adds, later))?;
    }
    Ok(())
}

// Gives each shard room for the keys that the tickets may add. Out of memory, those before have it.
fn give_room<S: Tickets + Drop>(
    alloc: Global,
    tickets: &S,
    later: &[u32],
    parts: &mut Vec<Part>,
    shards: u32,
) -> Result<(), NoMemory>
    requires script { IsScript (S.meaning tickets.now) }
    requires some { 0 < shards }
    requires sizes { (shards ≤ max_shards)
        × (length (S.meaning tickets.now).shape ≤ max_tables) }
    requires later { length later.now ≡ length (S.meaning tickets.now).shape }
    requires parts { vec_len parts.old ≡ length (S.meaning tickets.now).shape * shards }
    requires opening { AreOpening (S.meaning tickets.now) shards parts.old.items }
    ensures kept { AreKept parts.old.items parts.new.items }
    ensures room { OnOk result (HaveRoom (S.meaning tickets.now) later.now shards parts.old.items
        parts.new.items) }
{
    for place in 0..parts.len() as u32 {
        let table = place / shards;
        let adds = tickets.room(table);
        fit(
            alloc,
            &mut parts[place as usize],
            adds,
            later[table as usize],
        )?;
    }
    Ok(())
}

// Takes the memory that a hall over closed shards needs beside theirs and the board's.
fn make_ready<S: Tickets + Drop>(
    alloc: Global,
    tickets: S,
    callers: u32,
) -> Result<Ready<S>, NoMemory>
    requires callers { (1 ≤ callers) × (callers ≤ max_callers) }
    ensures script { IfOk result (λ r. r.book.script ≡ tickets) }
    ensures opened { IfOk result (λ r. r.book.book
        ≡ opened_book (S.meaning tickets).requests callers) }
    ensures hands { IfOk result (λ r. AreEmpty callers r.hands.items) }
    ensures values { IfOk result (λ r. (r.values.items ≡ [])
        × (max_board_turns ≤ vec_capacity r.values)) }
    ensures callers { IfOk result (λ r. (r.callers.items ≡ [])
        × (callers ≤ vec_capacity r.callers)) }
{
    let book = Book::open(alloc, tickets, callers)?;
    let values = Vec::with_capacity(alloc, MAX_BOARD_TURNS)?;
    let hands = empty_hands(alloc, callers)?;
    let list = Vec::with_capacity(alloc, callers as usize)?;
    let kept = spare_lists(alloc)?;
    Ok(Ready {
        book,
        values,
        hands,
        callers: list,
        kept,
    })
}

// The values of the turns: the book, and the shards, which move behind it.
fn shards_behind<S: Tickets + Drop>(
    book: Book<S>,
    parts: &mut Vec<Part>,
    list: Vec<Held<S>>,
) -> Vec<Held<S>>
    requires room { (list.items ≡ []) × (1 + vec_len parts.old ≤ vec_capacity list) }
    ensures values { result.items ≡ Register book ∷ map Table parts.old.items }
    ensures parts { parts.new.items ≡ [] }
    ensures room { vec_capacity parts.new ≡ vec_capacity parts.old }
{
    let mut values = list;
    values.push_reserved(Held::Register(book));
    for done in 0..parts.len() {
        values.push_reserved(Held::Table(parts.remove(0)));
    }
    values
}

// The shards behind the book, which move back.
fn shards_back<S: Tickets + Drop>(values: Vec<Held<S>>, list: Vec<Part>) -> Vec<Part>
    requires book { (b : BookView S) × (parts : List PartOf)
        × (values.items ≡ Register b ∷ map Table parts) }
    requires room { (list.items ≡ []) × (vec_len values ≤ 1 + vec_capacity list) }
    ensures { (b : BookView S) (parts : List PartOf) → values.items ≡ Register b ∷ map Table parts
        → result.items ≡ parts }
{
    let mut left = values;
    drop(left.remove(0));
    parts_of(left, list)
}

// A hall over shards, and its callers. Out of memory the shards come back.
fn over<S: Tickets + Drop>(
    alloc: Global,
    tickets: S,
    later: &[u32],
    parts: Vec<Part>,
    sizes: Counts,
) -> Result<(Hall<S>, Callers<S>), Vec<Part>>
    requires tables { (length (S.meaning tickets).shape ≡ sizes.tables)
        × (sizes.tables ≤ max_tables) }
    requires shards { (0 < sizes.shards) × (sizes.shards ≤ max_shards) }
    requires later { length later.now ≡ length (S.meaning tickets).shape }
    requires parts { vec_len parts ≡ length (S.meaning tickets).shape * sizes.shards }
    requires opening { AreOpening (S.meaning tickets) sizes.shards parts.items }
    ensures script { IfOk result (λ r. script_of r.0 ≡ tickets) }
    ensures sizes { IfOk result (λ r. r.0.sizes ≡ sizes) }
    ensures count { IfOk result (λ r. length r.1 ≡ sizes.callers) }
    ensures callers { IfOk result (λ r. (i : ℕ) (c : CallerOf S)
        → slice_get r.1 i ≡ Some c → Opens S.meaning r.0 i c) }
    ensures room { IfOk result (λ r. (i : ℕ) (c : CallerOf S) → slice_get r.1 i ≡ Some c
        → (contents : List (Content S)) × (last_change c.seat ≡ (1, contents))
        × HaveMovedIn (S.meaning tickets) later.now parts.items sizes.shards contents) }
    ensures back { IfErr result (λ ps. AreKept parts.items ps.items) }
{
    let copy = Snapshot::of(&tickets);
    let mut list = parts;
    let Ok(ready) = make_ready(alloc, tickets, sizes.callers) else {
        return Err(list);
    };
    let Ready {
        book,
        values,
        hands,
        callers,
        kept,
    } = ready;
    let Ok(()) = give_room(alloc, book.script(), later, &mut list, sizes.shards) else {
        return Err(list);
    };
    let values = shards_behind(book, &mut list, values);
    match Board::open_or_return(alloc, values, sizes.callers) {
        Ok((board, seats)) => {
            let callers = new_callers(seats.into_vec(), hands, callers);
            let hall = Hall {
                ends: AtomicU32::new(0),
                wanted: AtomicU32::new(0),
                delayed: AtomicU32::new(0),
                board,
                script: copy,
                sizes,
                kept: Mutex::new(kept),
            };
            Ok((hall, Listed::from_vec(callers)))
        }
        Err(values) => Err(shards_back(values, list)),
    }
}

impl<S: Tickets + Drop> Hall<S> {
    /// A hall over the shards that a closed one left, with as many of each table, and its callers.
    /// The tickets open with what these shards hold, so none of it is listed or entered again: a
    /// shard with too little room for the keys that the tickets may add grows, to twice its room at
    /// least where `later`, the most keys that may still be added to each table by these and later
    /// tickets, is as much. No call of the callers takes memory. Out of memory, the closed hall
    /// comes back as it was left, but that its shards may have more room.
    pub fn reopen(
        alloc: Global,
        tickets: S,
        shape: &[TableKind],
        closed: Closed,
        later: &[u32],
        callers: u32,
    ) -> Result<(Hall<S>, Callers<S>), Closed>
        requires opens { OpensOver (S.meaning tickets) closed }
        requires shape { shape.now ≡ (S.meaning tickets).shape }
        requires tables { length shape.now ≤ max_tables }
        requires shards { closed.shards ≤ max_shards }
        requires later { length later.now ≡ length shape.now }
        requires callers { (1 ≤ callers) × (callers ≤ max_callers) }
        ensures script { IfOk result (λ r. script_of r.0 ≡ tickets) }
        ensures sizes { IfOk result (λ r. (r.0.sizes.tables ≡ length shape.now)
            × (r.0.sizes.shards ≡ closed.shards) × (r.0.sizes.callers ≡ callers)) }
        ensures count { IfOk result (λ r. length r.1 ≡ callers) }
        ensures callers { IfOk result (λ r. (i : ℕ) (c : CallerOf S)
            → slice_get r.1 i ≡ Some c → Opens S.meaning r.0 i c) }
        ensures room { IfOk result (λ r. (i : ℕ) (c : CallerOf S) → slice_get r.1 i ≡ Some c
            → (contents : List (Content S)) × (last_change c.seat ≡ (1, contents))
            × HaveMovedIn (S.meaning tickets) later.now closed.parts closed.shards contents) }
        ensures back { IfErr result (IsLeftAs closed) }
        ensures again { IfErr result (OpensOver (S.meaning tickets)) }
    {
        let Closed {
            journal,
            replies,
            parts,
            shards,
            callers: served,
        } = closed;
        let sizes = Counts {
            tables: shape.len() as u32,
            shards,
            callers,
        };
        match over(alloc, tickets, later, parts.into_vec(), sizes) {
            Ok(opened) => Ok(opened),
            Err(parts) => Err(Closed {
                journal,
                replies,
                parts: Listed::from_vec(parts),
                shards,
                callers: served,
            }),
        }
    }
}
