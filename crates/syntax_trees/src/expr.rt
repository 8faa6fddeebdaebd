// Expressions of a file of handlers.

ghost use Rattle.std.specs.Prelude.{◌≡◌};
ghost use Rattle.syntax_trees.specs.Alone as spec;

use crate::literal::Literal;
use session_values::{Boxed, Listed};

pub type Exprs = Listed<Expr>;

pub type Atoms = Listed<Atom>;

/// What may stand as an argument: a literal, or a variable by its name's place.
#[derive(Debug, Drop)]
pub enum Atom {
    Lit(Literal),
    Name { name: u32, at: u32 },
}

#[derive(Clone, Copy, Debug, PartialEq, Eq)]
pub enum Calc {
    Plus,
    Minus,
    Times,
}

/// An expression, of which parentheses leave no trace. What stands alone in it has the forms of an
/// argument. Its variants, and one box for both sides, are chosen so that it takes sixteen bytes.
#[derive(Debug, Drop)]
pub enum Expr {
    Lit(Literal),
    Name {
        name: u32,
        at: u32,
    },
    Binary {
        calc: Calc,
        /// The left side and the right side.
        sides: Boxed<(Expr, Expr)>,
    },
}

impl Atom {
    /// The expression in which it stands alone.
    pub fn alone(self) -> Expr
        ensures { result ≡ spec.alone self }
    {
        match self {
            Atom::Lit(literal) => Expr::Lit(literal),
            Atom::Name { name, at } => Expr::Name { name, at },
        }
    }
}
