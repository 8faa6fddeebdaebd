// Spots in the text of a handler.

ghost use Rattle.std.specs.Prelude.{◌≡◌, ◌+◌, ◌<◌, ◌^◌};

/// A spot in the text of a handler of this number: inside so many blocks, before the point of this
/// number.
#[derive(Clone, Copy, Debug, PartialEq, Eq)]
pub struct Spot {
    pub handler: u32,
    pub depth: u32,
    pub point: u32,
}

impl Spot {
    /// The beginning of the first handler.
    pub(crate) fn first() -> Spot
        ensures { result ≡ record { handler = 0; depth = 0; point = 0 } }
    {
        Spot {
            handler: 0,
            depth: 0,
            point: 0,
        }
    }

    /// The same in the next handler.
    pub(crate) fn next_handler(self) -> Spot
        requires { self.handler + 1 < 2 ^ 32 }
        ensures { result
            ≡ record { handler = self.handler + 1; depth = self.depth; point = self.point } }
    {
        Spot {
            handler: self.handler + 1,
            depth: self.depth,
            point: self.point,
        }
    }

    /// The same, before another point.
    pub(crate) fn before(self, point: u32) -> Spot
        ensures { result ≡ record { handler = self.handler; depth = self.depth; point = point } }
    {
        Spot {
            handler: self.handler,
            depth: self.depth,
            point,
        }
    }

    /// Inside one block more.
    pub(crate) fn inside(self) -> Spot
        requires { self.depth + 1 < 2 ^ 32 }
        ensures { result
            ≡ record { handler = self.handler; depth = self.depth + 1; point = self.point } }
    {
        Spot {
            handler: self.handler,
            depth: self.depth + 1,
            point: self.point,
        }
    }

    /// The number of the point behind the next one.
    pub(crate) fn next(self) -> u32
        requires { self.point + 1 < 2 ^ 32 }
        ensures { result ≡ self.point + 1 }
    {
        self.point + 1
    }
}
