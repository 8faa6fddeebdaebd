// Where a script declares.

/// A point of a part of a script, at which something is declared. The parts of a program are its
/// handlers, and each has a point at its beginning, one behind each call, and more.
#[derive(Clone, Copy, Debug, PartialEq, Eq)]
pub struct Site {
    /// The number of the part.
    pub part: u32,
    /// The number of the point in it.
    pub point: u32,
}
