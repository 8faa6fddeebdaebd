// A line with words.

use text_lines::Line;

/// A line with words: its number, its first word, and the others.
#[derive(Clone, Copy, Debug)]
pub(crate) struct Row<'a> {
    pub line: u32,
    pub name: &'a str,
    pub words: Line<'a>,
}
