// Halls.

ghost use Rattle.std.specs.Prelude.{◌≡◌, ◌<◌, ◌≤◌, [], vec_capacity};
ghost use Rattle.session_values.specs.Limits.{max_callers};
ghost use Rattle.turn_board.specs.Limits.{max_board_turns};

use hall_rule::{HallRule, Held};
use session_journal::Tickets;
use shard_tables::Part;
use std::snapshot::Snapshot;
use std::sync::Mutex;
use std::sync::atomic::{AtomicU32, Ordering};
use std::thread;
use turn_board::{Board, Seat};

/// How often a caller that has given the book back to another one looks whether it is taken.
const LOOKS: u32 = 2_000;

/// After how many looks its thread is yielded.
const LOOKS_A_YIELD: u32 = 32;

/// In how many looks in a row it sees no ticket end before it waits no more for others to go first.
const LOOKS_AN_END: u32 = 200;

/// In how many of these looks nobody may wait: who has seen the book free waits no more, and takes
/// it next.
const LOOKS_UNWANTED: u32 = 64;

/// Empty lists with room for the seats and the shards of a hall.
#[derive(Drop)]
pub(crate) struct Spare<A, B> {
    pub(crate) seats: Vec<A>,
    pub(crate) parts: Vec<B>,
    ghost no_seats: { seats.items ≡ [] },
    ghost no_parts: { parts.items ≡ [] },
    ghost seats_room: { 32 ≤ vec_capacity seats },
    ghost parts_room: { max_board_turns ≤ vec_capacity parts },
}

/// How many tables, shards of each table, and callers a hall has.
#[derive(Clone, Copy)]
pub(crate) struct Counts {
    pub(crate) tables: u32,
    pub(crate) shards: u32,
    pub(crate) callers: u32,
    ghost some_callers: { 0 < callers },
    ghost few_callers: { callers ≤ max_callers },
}

/// The tables of a script in shards, and the book of what was done on them, each behind a turn of
/// one board. Turn 0 is the book's, and turn `1 + table * shards + shard` a shard's.
#[derive(Drop)]
pub struct Hall<S: Tickets + Drop> {
    pub(crate) board: Board<Held<S>, HallRule<S>>,
    /// The script as it was when the hall was opened. It has no bytes.
    pub(crate) script: Snapshot<S>,
    pub(crate) sizes: Counts,
    /// How often a ticket was ended, so that who is delayed need not ask the book. Nothing is
    /// claimed of it.
    pub(crate) ends: AtomicU32,
    /// How many callers wait for a turn that another one holds. Nothing is claimed of it.
    pub(crate) wanted: AtomicU32,
    /// How many callers wait since an older ticket delays them. Nothing is claimed of it.
    pub(crate) delayed: AtomicU32,
    // What `close` fills. A lock lets threads share the hall where S is only Send; no thread takes
    // it.
    pub(crate) kept: Mutex<Spare<Seat<Held<S>, HallRule<S>>, Part>>,
}

impl<S: Tickets + Drop> Hall<S> {
    /// How many callers it has.
    pub fn callers(&self) -> u32
        ensures { result ≡ self.now.sizes.callers }
    {
        self.sizes.callers
    }

    /// Whether a caller waits for a turn that another one holds. Nothing is claimed of it.
    pub fn is_wanted(&self) -> bool {
        self.wanted.load(Ordering::SeqCst) != 0
    }

    /// Whether an older ticket delays a caller, which waits for its end. Nothing is claimed of it.
    pub fn is_delaying(&self) -> bool {
        self.delayed.load(Ordering::SeqCst) != 0
    }

    /// Lets the other callers go first that wait for an older ticket, or else one that waits for the
    /// book that this caller has given back. Nothing is claimed of it.
    pub fn give_way(&self) {
        if self.is_delaying() {
            self.until_quiet();
        } else if self.is_wanted() {
            self.until_taken();
        }
    }

    // Waits until nobody waits for the book or for a ticket's end, but no longer than a number of
    // looks, of which few in a row see no ticket end: who is delayed may wait for another one.
    fn until_quiet(&self) {
        let mut ends = self.ends.load(Ordering::SeqCst);
        let mut since = 0;
        for look in 0..LOOKS {
            if (!self.is_delaying() && !self.is_wanted()) || since > LOOKS_AN_END {
                return;
            }
            let now = self.ends.load(Ordering::SeqCst);
            since = if now == ends { since + 1 } else { 0 };
            ends = now;
            if look % LOOKS_A_YIELD == LOOKS_A_YIELD - 1 {
                thread::yield_now();
            }
        }
    }

    /// Waits, where a caller waits for the book that this one has given back, until it is taken, but
    /// no longer than a number of looks: a thread that has no processor doesn't stop the others.
    /// Nothing is claimed of it.
    pub fn until_taken(&self) {
        let mut unwanted = 0;
        for look in 0..LOOKS {
            if self.board.look() & 1 != 0 || unwanted > LOOKS_UNWANTED {
                return;
            }
            if !self.is_wanted() {
                unwanted += 1;
            }
            if look % LOOKS_A_YIELD == LOOKS_A_YIELD - 1 {
                thread::yield_now();
            }
        }
    }

    /// Whether no ticket may be left to begin, of so many: fewer than there are callers aren't
    /// ended. Nothing is claimed of it.
    pub fn is_near_end(&self, requests: u32) -> bool {
        let ends = self.ends.load(Ordering::SeqCst);
        ends.saturating_add(self.sizes.callers) > requests
    }
}
