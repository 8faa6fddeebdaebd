// A caller that keeps the book: taking it, and giving it back.

ghost use Rattle.std.specs.Bool.{Decides};
ghost use Rattle.std.specs.Prelude.{◌≡◌, None};
ghost use Rattle.session_hall.specs.Callers.{IsCallerOf};
ghost use Rattle.session_hall.specs.HoldingCalls.{GaveKept, HeldAfter, IsQuiet, TakesBook};
ghost use Rattle.session_hall.specs.Holdings.{IsHoldingOf, IsKept, StaysHolding};
ghost use Rattle.session_hall.specs.Names.{script_of};

use crate::caller::Caller;
use crate::hall::Hall;
use crate::waits::Waits;
use admission_book::Book;
use session_journal::Tickets;
use std::mem::replace;
use std::sync::Wait;
use std::sync::atomic::Ordering;

/// A caller that may keep the book, and the shards that it takes meanwhile, from one call to the
/// next. What it does then is one step for the others: the one in which it gives all back.
#[derive(Drop)]
pub struct Holding<S: Tickets + Drop> {
    /// Its try calls ask that the book isn't in hand.
    pub caller: Caller<S>,
    /// The book, while it is in hand.
    pub(crate) book: Option<Book<S>>,
    /// How many tickets it ended, and how many operations it entered, since it took the book.
    /// Nothing is claimed of them.
    pub(crate) ends: u32,
    pub(crate) entered: u32,
}

impl<S: Tickets + Drop> Holding<S> {
    /// Over a caller. The book isn't in hand.
    pub fn over(caller: Caller<S>) -> Holding<S>
        ensures caller { result.caller ≡ caller }
        ensures none { result.book ≡ None }
    {
        Holding {
            caller,
            book: None,
            ends: 0,
            entered: 0,
        }
    }

    /// The caller, while the book isn't in hand.
    pub fn into_caller(self) -> Caller<S>
        requires none { self.book ≡ None }
        ensures caller { result ≡ self.caller }
    {
        let Holding {
            caller,
            book: _,
            ends: _,
            entered: _,
        } = self;
        caller
    }

    /// Whether the book is in hand.
    pub fn is_kept(&self) -> bool
        ensures { Decides result (IsKept self.now.book) }
    {
        self.book.is_some()
    }

    /// How many operations were entered since the book was taken. Nothing is claimed of it.
    pub fn entered(&self) -> u32 {
        self.entered
    }

    /// How many tickets were ended since the book was taken. Nothing is claimed of it.
    pub fn ended(&self) -> u32 {
        self.ends
    }

    /// Takes the book, if no other caller has it, and keeps it.
    pub fn hold(&mut self, hall: &Hall<S>) -> bool
        requires holding { IsHoldingOf S.meaning hall.now self.old }
        requires none { self.old.book ≡ None }
        requires stage { IsQuiet self.old.caller.stage }
        ensures holding { StaysHolding S.meaning hall.now self.old self.new }
        ensures took { TakesBook (S.meaning (script_of hall.now)) self.old self.new result }
    {
        match self.caller.take_book(hall) {
            Some(book) => {
                self.book = Some(book);
                self.entered = 0;
                true
            }
            None => false,
        }
    }

    /// The same, however often the book is taken.
    pub fn hold_with<R: Wait>(&mut self, rt: &R, hall: &Hall<S>, waits: &mut Waits)
        requires holding { IsHoldingOf S.meaning hall.now self.old }
        requires none { self.old.book ≡ None }
        requires stage { IsQuiet self.old.caller.stage }
        ensures holding { StaysHolding S.meaning hall.now self.old self.new }
        ensures took { HeldAfter (S.meaning (script_of hall.now)) self.old self.new }
    {
        waits.reset();
        for _ in rt.forever() {
            if self.hold(hall) {
                return;
            }
            waits.until_free(hall, 0);
        }
        unreachable!()
    }

    /// Gives back the book in hand, and with it all shards that it took, in one step.
    pub fn release(&mut self, hall: &Hall<S>)
        requires holding { IsHoldingOf S.meaning hall.now self.old }
        requires kept { IsKept self.old.book }
        requires stage { IsQuiet self.old.caller.stage }
        ensures holding { StaysHolding S.meaning hall.now self.old self.new }
        ensures gave { GaveKept (S.meaning (script_of hall.now)) self.old self.new }
    {
        let Some(book) = replace(&mut self.book, None) else {
            unreachable!();
        };
        self.caller.give_book(hall, book);
        self.count_ends(hall);
    }

    // Tells the hall how many tickets were ended in the book that was given back.
    pub(crate) fn count_ends(&mut self, hall: &Hall<S>)
        ensures caller { self.new.caller ≡ self.old.caller }
        ensures book { self.new.book ≡ self.old.book }
    {
        if self.ends > 0 {
            hall.ends.fetch_add(self.ends, Ordering::SeqCst);
            self.ends = 0;
        }
    }
}
