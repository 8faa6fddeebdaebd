// The requests' part of a session file, with values from outside. What single requests are, and
// the sums of their calls and work, are stored runs, in `checks/`.

ghost use Rattle.std.specs.Prelude.{◌≤◌, length};
ghost use Rattle.session_values.specs.Limits.{max_input};
ghost use Rattle.handler_check.specs.Mentions.{AreNamed, file_mentions};

use handler_check::{Checked, check};
use handler_syntax::parse;
use request_files::RequestRefusal::TooManyRequests;
use request_files::{Lines, RequestRefusal, divide, read_requests};
use session_values::Names;
use std::alloc::Global;
use std::test::Fail;

// The parts of a text, or nothing.
fn parts_of(text: &str) -> Option<(&str, &str, u32)>
    requires { length text.now ≤ max_input }
{
    let parts = divide(text)?;
    Some((parts.handlers, parts.requests, parts.first))
}

#[test]
fn dividing_lines(rt: HostRuntime) {
    for (text, parts) in [
        (
            "map m;\n%% \t\r\nlogin a b",
            Some(("map m;\n", "login a b", 3)),
        ),
        ("%%", Some(("", "", 2))),
        ("\n%%\n", Some(("\n", "", 3))),
        (
            " %%\n%% # x\n%%%\n%\n%%\n%%\n",
            Some((" %%\n%% # x\n%%%\n%\n", "%%\n", 6)),
        ),
        ("", None),
        ("map m;\n", None),
        (" %%", None),
        ("%% # x\n", None),
        ("a %%\n", None),
    ] {
        assert_eq!(rt; parts_of(text), parts, "{text:?}");
    }
}

// The number of the next line, and its first four words.
fn next_line<'a>(lines: &mut Lines<'a>) -> Option<(u32, [Option<&'a str>; 4])> {
    let (number, mut words) = lines.next()?;
    Some((
        number,
        [words.next(), words.next(), words.next(), words.next()],
    ))
}

#[test]
fn lines_and_words(rt: HostRuntime) {
    let mut lines = Lines::over("a  -b:1\tc#d e\n\n\r # f\nü", 7);
    for want in [
        Some((7, [Some("a"), Some("-b:1"), Some("c"), None])),
        Some((8, [None, None, None, None])),
        Some((9, [None, None, None, None])),
        Some((10, [Some("ü"), None, None, None])),
        None,
    ] {
        assert_eq!(rt; next_line(&mut lines), want);
    }
}

/// How many requests a text makes for the handlers of a file, or why it is refused. Its first line
/// has the number 3.
fn count_of(
    alloc: Global,
    checked: &Checked,
    requests: &str,
    names: &mut Names,
) -> Result<u32, RequestRefusal>
    requires named { AreNamed names.old (file_mentions checked.now) }
    requires text { length requests.now ≤ 1000000 }
    requires names { length names.old ≤ 4000000000 }
{
    let found = read_requests(alloc, checked, requests, 3, names)?;
    Ok(found.len())
}

/// How many requests a text makes for one handler without parameters.
fn read(alloc: Global, requests: &str) -> Result<Result<u32, RequestRefusal>, Fail>
    requires { length requests.now ≤ 1000000 }
{
    let mut names = Names::with_seed(alloc, 0);
    let file = parse(alloc, "handler nop() { }", &mut names)?;
    let checked = check(alloc, file.into_tree())?;
    Ok(count_of(alloc, &checked, requests, &mut names))
}

/// A line of the word `nop` so many times, and a last line behind them.
fn repeated(alloc: Global, times: u32, last: &str) -> Result<String, Fail> {
    let mut text = String::new(alloc);
    for _ in 0..times {
        text.push_str("nop\n")?;
    }
    text.push_str(last)?;
    Ok(text)
}

/// How many requests so many lines make, with a last one behind them.
fn count(alloc: Global, times: u32, last: &str) -> Result<Result<u32, RequestRefusal>, Fail> {
    let text = repeated(alloc, times, last)?;
    if text.len() > 1_000_000 {
        return Err("too long")?;
    }
    read(alloc, text.as_str())
}

#[test]
fn counts_requests(rt: HostRuntime) -> Result<(), Fail> {
    for (times, last, want) in [
        (20_000, "", Ok(20_000)),
        (20_000, "nop", Err(TooManyRequests { line: 20_003 })),
        (20_000, "enter 5x", Err(TooManyRequests { line: 20_003 })),
    ] {
        let found = count(rt.alloc(), times, last)?;
        assert_eq!(rt; found, want, "{last:?}");
    }
    Ok(())
}
