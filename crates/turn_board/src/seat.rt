// A caller's seat.

use turn_steps::{Pass, TieRule};

/// What one caller steps with. It has no bytes: what it holds, its note and its counts are for
/// contracts alone.
pub struct Seat<V, R: TieRule<V>> {
    pub(crate) pass: Pass<V, R::Content>,
}

impl<V, R: TieRule<V>> Drop for Seat<V, R> {
    fn drop(self) {
        let Seat { pass } = self;
        drop(pass);
    }
}

impl<V, R: TieRule<V>> Seat<V, R> {
    ghost use Rattle.std.specs.Prelude.{◌≡◌};

    pub(crate) fn into_pass(self) -> Pass<V, R::Content>
        ensures { result ≡ self.pass }
    {
        let Seat { pass } = self;
        pass
    }
}
