// What stands at the points of handlers.

ghost use Rattle.std.specs.Prelude.{◌≡◌, slice_get};
ghost use Rattle.syntax_printer.specs.Points.{AtPoints};

use symbolic_ops::Symbol;

/// The declarations of a file of handlers. Handlers, points, tables and variables go by their
/// numbers; points are counted in the order of the text, from 0 at the handler's entry.
pub trait Declarations {
    /// What stands at points.
    ghost at_points: { Self → AtPoints };

    /// Whether each point has a line, and each `if` its else part.
    fn is_shown(&self) -> bool
        ensures { result ≡ (at_points self.now).shown };

    /// The symbols at a point of a handler.
    fn symbols(&self, handler: u32, point: u32) -> &[Symbol]
        ensures { result.now ≡ (at_points self.now).symbols handler point };

    /// The name of a table, as a place in the list of names.
    fn table(&self, table: u32) -> Option<u32>
        ensures { result ≡ slice_get (at_points self.now).tables table };

    /// The name of a handler's variable, as a place in the list of names.
    fn variable(&self, handler: u32, variable: u32) -> Option<u32>
        ensures { result ≡ slice_get ((at_points self.now).variables handler) variable };
}

/// No point has a line.
pub(crate) struct Undeclared;

impl Declarations for Undeclared {
    ghost use Rattle.syntax_printer.specs.Points.{nothing_shown};

    ghost at_points = { λ _. nothing_shown };

    fn is_shown(&self) -> bool {
        false
    }

    fn symbols(&self, _handler: u32, _point: u32) -> &[Symbol] {
        &[]
    }

    fn table(&self, _table: u32) -> Option<u32> {
        None
    }

    fn variable(&self, _handler: u32, _variable: u32) -> Option<u32> {
        None
    }
}
