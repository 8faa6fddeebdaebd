// Renewing the names of a session, at its desk.

ghost use Rattle.std.specs.Prelude.{◌≡◌};
ghost use Rattle.foresight_c.specs.Renewals as spec;
ghost use Rattle.foresight_c.specs.Renewals.{RenewAt, RenewOn};

use crate::desk::Desk;
use crate::session_desk::SessionDesk;
use live_session::RenewError;

// The number of why names aren't renewed.
fn unrenewed_number(why: RenewError) -> u8
    ensures { result ≡ spec.unrenewed_number why }
{
    match why {
        RenewError::Open => 19,
        RenewError::NoNumber => 12,
        RenewError::NoMemory => 3,
    }
}

// Renews the names of a session.
fn renewed_at(desk: &mut SessionDesk) -> u8
    ensures { RenewAt desk.old desk.new result }
{
    match desk.session.renew() {
        Ok(()) => 0,
        Err(why) => unrenewed_number(why),
    }
}

impl Desk {
    /// Renews the names of the session, where there is one.
    pub(crate) fn renew(&mut self) -> u8
        ensures { RenewOn self.old self.new result }
    {
        match self {
            Desk::Session(desk) => renewed_at(desk),
            Desk::Tables(_) => 11,
        }
    }
}
