// Lines with words.

use text_lines::Line;

/// A line with its number: its first word, and the words behind it.
#[derive(Clone, Copy)]
pub(crate) struct NumberedLine<'a> {
    pub(crate) number: u32,
    pub(crate) word: &'a str,
    pub(crate) words: Line<'a>,
}
