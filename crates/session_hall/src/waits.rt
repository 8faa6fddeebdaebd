// How a caller waits between its tries, and how often it had to.

use crate::hall::Hall;
use session_journal::Tickets;
use std::sync::atomic::Ordering;
use std::thread;

/// After how many failed attempts the yields between two double no more, if a turn was taken.
const DOUBLINGS: u32 = 3;

/// The same where an operation was delayed: what delays it is a ticket, which takes longer than a
/// turn that is given back. The yields end once a ticket is ended.
const DELAY_DOUBLINGS: u32 = 8;

/// How often a caller that waits looks at a taken turn before it tries all the same.
const LOOKS: u32 = 1_000;

/// After how many looks its thread is yielded.
const LOOKS_A_YIELD: u32 = 32;

/// The tries of a caller that found a turn taken or an operation delayed. Between two tries its
/// thread is yielded 1, 2, 4 times, and so on, up to 8, and up to 256 after a delay.
#[derive(Debug, Clone, Copy)]
pub struct Waits {
    count: u32,
    round: u32,
    /// How often a ticket had been ended before the last try.
    ends: u32,
}

impl Waits {
    /// No try yet.
    pub fn none() -> Waits {
        Waits {
            count: 0,
            round: 0,
            ends: 0,
        }
    }

    /// How many attempts failed; it stays at the last u32.
    pub fn count(&self) -> u32 {
        self.count
    }

    /// The next wait begins with one yield again; the count of failed attempts stays.
    pub fn reset(&mut self) {
        self.round = 0;
    }

    // Counts a wait: the next one is twice as long.
    fn waited(&mut self) {
        self.round = self.round.saturating_add(1);
        self.count = self.count.saturating_add(1);
    }

    /// Notes how often a ticket was ended, before a try.
    pub fn note<S: Tickets + Drop>(&mut self, hall: &Hall<S>) {
        self.ends = hall.ends.load(Ordering::SeqCst);
    }

    /// Waits after a delay, no longer than until a ticket is ended.
    pub fn delayed<S: Tickets + Drop>(&mut self, hall: &Hall<S>) {
        hall.delayed.fetch_add(1, Ordering::SeqCst);
        for _ in 0..1u32 << self.round.min(DELAY_DOUBLINGS) {
            if hall.ends.load(Ordering::SeqCst) != self.ends {
                break;
            }
            thread::yield_now();
        }
        hall.delayed.fetch_sub(1, Ordering::SeqCst);
        self.waited();
    }

    /// Waits until the turn is seen free, at most until 1,000 looks found it taken, and counts a
    /// failed attempt. Turn 0 is the book. To look writes nothing, so that whoever has the turn
    /// gives it back undisturbed; meanwhile the hall counts one more caller that waits.
    pub fn until_free<S: Tickets + Drop>(&mut self, hall: &Hall<S>, turn: u32) {
        hall.wanted.fetch_add(1, Ordering::SeqCst);
        self.look_until_free(hall, turn);
        hall.wanted.fetch_sub(1, Ordering::SeqCst);
    }

    fn look_until_free<S: Tickets + Drop>(&mut self, hall: &Hall<S>, turn: u32) {
        for _ in 0..1u32 << self.round.min(DOUBLINGS) {
            thread::yield_now();
        }
        self.waited();
        for look in 0..LOOKS {
            if (hall.board.look() >> (turn % 64)) & 1 == 0 {
                return;
            }
            if look % LOOKS_A_YIELD == 0 {
                thread::yield_now();
            }
        }
    }
}
