// Taking the book.

ghost use Rattle.std.specs.Prelude.{◌≡◌, ◌<◌, Some, None};
ghost use Rattle.turn_board.specs.Boards.{IsSeatOf, SameNote, held, note, turn_count};
ghost use Rattle.hall_rule.specs.Contents.{Register};
ghost use Rattle.session_hall.specs.Callers.{book_in};
ghost use Rattle.session_hall.specs.Findings.{TookBook};
ghost use Rattle.session_hall.specs.Names.{script_of};

use crate::hall::Hall;
use admission_book::Book;
use hall_rule::{HallRule, Held};
use session_journal::Tickets;
use turn_board::{Seat, Taken};

impl<S: Tickets + Drop> Hall<S> {
    // Takes the book, if no other caller has it.
    pub(crate) fn take_book(&self, seat: &mut Seat<Held<S>, HallRule<S>>) -> Option<Book<S>>
        requires seat { IsSeatOf self.now.board seat.old }
        requires turns { 0 < turn_count self.now.board }
        requires free { held seat.old 0 ≡ None }
        requires noted { note seat.old ≡ Some
            (Register (script_of self.now) (book_in (note seat.old))) }
        ensures seat { IsSeatOf self.now.board seat.new × SameNote seat.old seat.new }
        ensures took { TookBook seat.old seat.new S.meaning (script_of self.now)
            (turn_count self.now.board) result }
    {
        match self.board.try_take(seat, 0) {
            Taken::Here(Held::Register(book)) => Some(book),
            Taken::Here(Held::Table(_)) => unreachable!(),
            Taken::Busy { turn: _ } => None,
        }
    }
}
