// Literals of a file of handlers.

ghost use Rattle.std.specs.Prelude.{◌≡◌};

use session_values::Value;
use std::fmt;
use std::marker::Model;

/// A literal, which contracts see as its value. It takes nine bytes where a `Value` takes sixteen,
/// and a tree has many.
#[derive(Drop)]
pub struct Literal {
    kept: Kept,
}

/// A value without the gaps in front of its number.
#[derive(Clone, Copy)]
enum Kept {
    Nil,
    /// The bytes of a number, the lowest first.
    Num([u8; 8]),
    /// The bytes of a symbol's place, the lowest first.
    Sym([u8; 4]),
}

impl Model for Literal {
    ghost use Rattle.session_values.specs.declared.value.Value.{Value as Plain};
    ghost use Rattle.syntax_trees.specs.Literals.{kept_value};

    ghost Value = { Plain };

    ghost view = { λ l. kept_value l.kept };
}

impl Literal {
    /// The literal of a value.
    pub fn of(value: Value) -> Literal
        ensures { result ≡ value }
    {
        let kept = match value {
            Value::Nil => Kept::Nil,
            Value::Num(number) => Kept::Num(number.to_le_bytes()),
            Value::Sym(place) => Kept::Sym(place.to_le_bytes()),
        };
        Literal { kept }
    }

    /// Its value.
    pub fn value(&self) -> Value
        ensures { result ≡ self.now }
    {
        match self.kept {
            Kept::Nil => Value::Nil,
            Kept::Num(bytes) => Value::Num(i64::from_le_bytes(bytes)),
            Kept::Sym(bytes) => Value::Sym(u32::from_le_bytes(bytes)),
        }
    }
}

impl fmt::Debug for Literal {
    fn fmt<W: fmt::Write>(&self, f: &mut fmt::Formatter<W>) -> fmt::Result {
        fmt::Debug::fmt(&self.value(), f)
    }
}
