// What the line of a refusal says.

use crate::rule::Rule;

/// Where a rule is broken.
#[derive(Clone, Copy, Debug, PartialEq, Eq)]
pub enum Place {
    /// Nothing is named.
    Nowhere,
    /// At this byte of the file, from 0.
    Byte(u32),
    /// At this byte, with a count.
    Counted(u32, u32),
    /// In this line, from 1.
    Line(u32),
}

/// A rule that is broken, and where.
#[derive(Clone, Copy, Debug)]
pub struct Refusal {
    pub rule: Rule,
    pub place: Place,
}
