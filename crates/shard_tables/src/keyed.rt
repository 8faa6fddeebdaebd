// Elements that stand under a key.

ghost use Rattle.std.specs.Prelude.{◌≡◌};
ghost use Rattle.session_values.specs.declared.value.Value.{Value};

use session_values::Value;

/// An element that stands under a key: a key of a set itself, or a key with what it is bound to.
pub trait Keyed {
    ghost key_of: { Self → Value };

    /// The key.
    fn key(&self) -> Value
        ensures { result ≡ key_of self.now };
}

impl Keyed for Value {
    ghost key_of = { λ v. v };

    fn key(&self) -> Value {
        *self
    }
}

impl Keyed for (Value, Value) {
    ghost key_of = { λ p. p.0 };

    fn key(&self) -> Value {
        self.0
    }
}
