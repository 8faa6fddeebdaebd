// Sources as plain texts: their tree, or why they have none.

ghost use Rattle.std.specs.Prelude.{◌≤◌, length};
ghost use Rattle.session_values.specs.Limits.{max_input};
ghost use Rattle.handler_check.specs.Mentions.{AreNamed, file_mentions};

use handler_syntax::{File, SyntaxRefusal, parse, reprint};
use session_values::Names;
use std::alloc::Global;
use std::test::Fail;

/// Appends the tree of a file.
fn add_tree(file: &File, text: &mut String) -> Result<(), Fail> {
    write!(text, "{:?}", file.tree())?;
    Ok(())
}

/// Appends why a source has no tree.
fn add_refusal(refusal: &SyntaxRefusal, text: &mut String) -> Result<(), Fail> {
    write!(text, "{refusal:?}")?;
    Ok(())
}

/// Appends the tree of a source, or why it has none.
fn add_shown(alloc: Global, source: &str, text: &mut String) -> Result<(), Fail>
    requires { length source.now ≤ max_input }
{
    let mut names = Names::with_seed(alloc, 0);
    match parse(alloc, source, &mut names) {
        Ok(file) => add_tree(&file, text),
        Err(refusal) => add_refusal(&refusal, text),
    }
}

/// Whether a source has this tree, or is refused so.
fn is_shown(alloc: Global, source: &str, want: &str) -> Result<bool, Fail> {
    if source.len() > 1000 {
        return Ok(false);
    }
    let mut text = String::new(alloc);
    add_shown(alloc, source, &mut text)?;
    Ok(text.as_str() == want)
}

/// The first source of a table that has another tree or refusal than its row says.
pub(crate) fn shown_otherwise(alloc: Global, table: &str) -> Result<Option<&str>, Fail> {
    for row in table.split('/') {
        let (source, want) = row.split_once('~').unwrap_or((row, ""));
        if !is_shown(alloc, source, want)? {
            return Ok(Some(source));
        }
    }
    Ok(None)
}

/// Appends the tree that a file's canonical text has.
fn add_reprinted(
    alloc: Global,
    file: &File,
    names: &mut Names,
    text: &mut String,
) -> Result<(), Fail>
    requires named { AreNamed names.old (file_mentions file.now) }
    requires room { length names.old ≤ 4000000000 }
{
    match reprint(alloc, file, names)? {
        Some(read) => add_tree(&read, text),
        None => Err("too long")?,
    }
}

/// Appends the tree that a source's canonical text has.
fn add_shown_again(alloc: Global, source: &str, text: &mut String) -> Result<(), Fail>
    requires { length source.now ≤ max_input }
{
    let mut names = Names::with_seed(alloc, 0);
    let file = parse(alloc, source, &mut names)?;
    add_reprinted(alloc, &file, &mut names, text)
}

/// Whether a source's canonical text has the tree of another source.
pub(crate) fn is_again(alloc: Global, source: &str, other: &str) -> Result<bool, Fail>
    requires { length source.now ≤ max_input }
{
    let mut text = String::new(alloc);
    add_shown_again(alloc, source, &mut text)?;
    is_shown(alloc, other, text.as_str())
}
