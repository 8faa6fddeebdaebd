// What a seat steps with.

use crate::view::View;

/// What a seat steps with: what it knows of the turns, and the callers that it speaks for. It has
/// no bytes. A new one comes only from an opening and from a split.
pub struct Pass<V, C> {
    pub(crate) token: atomic_table::Seat<Option<V>, View<C>>,
}

impl<V, C> Drop for Pass<V, C> {
    fn drop(self) {
        let Pass { token } = self;
        drop(token);
    }
}

impl<V, C> Pass<V, C> {
    ghost use Rattle.std.specs.Prelude.{◌≡◌};

    pub(crate) fn into_token(self) -> atomic_table::Seat<Option<V>, View<C>>
        ensures { result ≡ self.token }
    {
        let Pass { token } = self;
        token
    }
}
