// What the callers of a hall serve by.

ghost use Rattle.std.specs.Prelude.{◌≡◌, ⊤};
ghost use Rattle.session_hall.specs.Names.{script_of};

use session_hall::Hall;
use session_journal::Tickets;
use std::alloc::AllocError;

/// What all callers of a hall serve by: the runtime, the hall, its script again, by which each
/// ticket is served, and the gate that they pass.
pub struct Crew<'a, R, S: Tickets + Drop, G> {
    pub rt: &'a R,
    pub plan: &'a S,
    pub hall: &'a Hall<S>,
    pub gate: &'a G,
    pub ghost same: { script_of hall.now ≡ plan.now },
}

impl<'a, R, S: Tickets + Drop, G> Clone for Crew<'a, R, S, G> {
    ghost is_clone = { λ x y. y ≡ x };

    ghost is_infallible = { λ _. ⊤ };

    fn clone(&self) -> Result<Crew<'a, R, S, G>, AllocError> {
        Ok(*self)
    }
}

impl<'a, R, S: Tickets + Drop, G> Copy for Crew<'a, R, S, G> {}
