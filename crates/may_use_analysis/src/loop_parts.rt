// What a loop is made of.

use check_meaning::CheckedStmt;

/// What the analysis asks of a loop: its point, its variable, and its block.
#[derive(Clone, Copy)]
pub(crate) struct LoopParts<'a> {
    pub(crate) point: u32,
    pub(crate) var: u32,
    pub(crate) body: &'a [CheckedStmt],
}
