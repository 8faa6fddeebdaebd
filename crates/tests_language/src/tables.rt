// The table part of a session file, with values from outside.

ghost use Rattle.std.specs.Prelude.{◌≤◌, length};
ghost use Rattle.session_values.specs.Limits.{max_input};
ghost use Rattle.handler_check.specs.Mentions.{AreNamed, file_mentions};

use handler_check::{Checked, check};
use handler_syntax::parse;
use request_files::{divide, has_mark};
use session_values::Names;
use std::alloc::Global;
use std::test::Fail;
use table_lines::TableRefusal::TooManyEntries;
use table_lines::{TableRefusal, read_tables};

// The parts of a text, with the numbers of the first lines of tables and requests, or nothing.
fn parts_of(text: &str) -> Option<([&str; 3], u32, u32)>
    requires { length text.now ≤ max_input }
{
    let parts = divide(text)?;
    Some((
        [parts.handlers, parts.tables, parts.requests],
        parts.first_table,
        parts.first,
    ))
}

#[test]
fn table_parts(rt: HostRuntime) {
    for (text, parts) in [
        (
            "map m;\n%% tables \t\r\nm a b\n\n%%\nlogin a",
            Some((["map m;\n", "m a b\n\n", "login a"], 3, 6)),
        ),
        ("%% tables\n%%", Some((["", "", ""], 2, 3))),
        (
            "%%  tables\n%% tables\n%% tables\n%%\n%% tables\n",
            Some((["%%  tables\n", "%% tables\n", "%% tables\n"], 3, 5)),
        ),
        (
            "m\n%%\n%% tables\n",
            Some((["m\n", "", "%% tables\n"], 3, 3)),
        ),
        ("m\n%% tables\nm 1 2\n", None),
    ] {
        assert_eq!(rt; parts_of(text), parts, "{text:?}");
    }
}

// Whether a text has a mark.
fn is_marked(text: &str) -> bool
    requires { length text.now ≤ max_input }
{
    has_mark(text)
}

#[test]
fn marks(rt: HostRuntime) {
    for (text, marked) in [
        ("map m;\n", false),
        ("%% table\n%%tables\n", false),
        ("map m;\n%% tables", true),
        ("map m;\n%%\n", true),
    ] {
        assert_eq!(rt; is_marked(text), marked, "{text:?}");
    }
}

/// How many entries a text makes for the tables of a file, or why it is refused. Its first line has
/// the number 3.
fn count_of(
    alloc: Global,
    checked: &Checked,
    tables: &str,
    names: &mut Names,
) -> Result<u32, TableRefusal>
    requires named { AreNamed names.old (file_mentions checked.now) }
    requires text { length tables.now ≤ 1000000 }
    requires names { length names.old ≤ 4000000000 }
{
    let found = read_tables(alloc, checked, tables, 3, names)?;
    Ok(found.count())
}

/// How many entries a text makes for one set.
fn read(alloc: Global, tables: &str) -> Result<Result<u32, TableRefusal>, Fail>
    requires { length tables.now ≤ 1000000 }
{
    let mut names = Names::with_seed(alloc, 0);
    let file = parse(alloc, "set s;", &mut names)?;
    let checked = check(alloc, file.into_tree())?;
    Ok(count_of(alloc, &checked, tables, &mut names))
}

/// Lines of so many members, and a last line behind them.
fn members(alloc: Global, count: u32, last: &str) -> Result<String, Fail> {
    let mut text = String::new(alloc);
    for i in 0..count {
        write!(text, "s {i}\n")?;
    }
    text.push_str(last)?;
    Ok(text)
}

/// How many entries so many members make, with a last line behind them.
fn count(alloc: Global, members_count: u32, last: &str) -> Result<Result<u32, TableRefusal>, Fail> {
    let text = members(alloc, members_count, last)?;
    if text.len() > 1_000_000 {
        return Err("too long")?;
    }
    read(alloc, text.as_str())
}

/// As many lines as there may be, and one more, which is too many before its table is unknown.
#[test]
fn one_table_line_too_many(rt: HostRuntime) -> Result<(), Fail> {
    let found = count(rt.alloc(), 100_000, "t 1")?;
    assert_eq!(rt; found, Err(TooManyEntries { line: 100_003 }));
    Ok(())
}
