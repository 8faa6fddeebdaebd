// Bookings: who asks for which seat, and what is called for it.

ghost use Rattle.std.specs.Prelude.{◌<◌, ◌^◌};

use session_values::{Kind, Op, Value};

/// The table of who has which seat: a map from the seat to the customer.
pub(crate) const SEATS: u32 = 0;

/// The table of the customers who found their seat taken.
pub(crate) const WAITING: u32 = 1;

/// A customer asks for a seat.
pub(crate) struct Booking {
    pub(crate) seat: u32,
    /// The customer's number.
    pub(crate) who: u32,
    ghost seat_held: { seat < 2 ^ 32 },
    ghost who_held: { who < 2 ^ 32 },
}

impl Booking {
    ghost use Rattle.std.specs.Prelude.{◌≡◌, [], ◌∷◌};
    ghost use Rattle.example_bookings.specs.Bookings.{look_up, take_seat, wait};

    /// The operations that it may call: looking its seat up, taking it, and waiting.
    pub(crate) fn calls(&self) -> [Op; 3]
        ensures { result ≡ look_up self.now ∷ take_seat self.now ∷ wait self.now ∷ [] }
    {
        let seat = Value::Num(i64::from(self.seat));
        let customer = Value::Num(i64::from(self.who));
        [
            Op::new(Kind::Get, SEATS, seat, Value::Nil),
            Op::new(Kind::Put, SEATS, seat, customer),
            Op::new(Kind::Mark, WAITING, customer, Value::Nil),
        ]
    }
}
