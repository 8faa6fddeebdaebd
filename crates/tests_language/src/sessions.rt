// Session files with a table part: why they are refused, in which order, and what is loaded.

ghost use Rattle.std.specs.Prelude.{◌≤◌, length};
ghost use Rattle.session_values.specs.Limits.{max_input};

use byte_ends::{ShortText, short_text};
use serve_faults::{Status, message_of};
use serve_reading::{LoadError, Loaded, load_session, read_description};
use session_values::{Names, Value};
use std::alloc::Global;
use std::test::Fail;

// The line of what wasn't served.
fn line_of(refused: LoadError) -> ShortText {
    match refused {
        LoadError::Refused(fault) => message_of(&Status::Refused(fault)),
        LoadError::NoMemory => message_of(&Status::NoMemory),
    }
}

// The line that tells why a session file is refused; none where it isn't.
fn refusal_of(alloc: Global, text: &str) -> ShortText
    requires { length text.now ≤ max_input }
{
    match load_session(alloc, text.as_bytes()) {
        Ok(_loaded) => short_text(""),
        Err(refused) => line_of(refused),
    }
}

const SEATS: &str =
    "map seats;\nset online;\nhandler login(u, now) {\n  let old = swap(seats, u, now);\n  \
     mark(online, u);\n  reply old;\n}\nhandler logout(u) {\n  del(seats, u);\n  \
     drop(online, u);\n}\n%% tables\n";

// The line of the session of seats with these lines behind the mark of its table part.
fn seats_refusal(alloc: Global, lines: &str) -> Result<ShortText, Fail> {
    let text = format!(in alloc; "{SEATS}{lines}")?;
    if text.len() > 4_194_304 {
        return Err("too long")?;
    }
    Ok(refusal_of(alloc, text.as_str()))
}

#[test]
fn table_lines_are_refused(rt: HostRuntime) -> Result<(), Fail> {
    for (lines, want) in [
        (
            "seats bob 3\nonline bob\n%%\nlogin alice 5\nlogin bob 9\n",
            "",
        ),
        ("seat bob 3\nonline bob\n%%\n", "refused B1 line 13\n"),
        ("seats bob\nonline bob\n%%\n", "refused B2 line 13\n"),
        ("seats bob 3x\nonline bob\n%%\n", "refused B3 line 13\n"),
        ("seats bob 3\nseats bob 4\n%%\n", "refused B4 line 14\n"),
        ("seats 007 1\nseats 7 2\n%%\n", "refused B4 line 14\n"),
        ("%% tables\n%%\n", "refused B1 line 13\n"),
        ("online bob\n%%\nenter alice\n", "refused Q1 line 15\n"),
        ("online bob 3\n%%\nenter alice\n", "refused B2 line 13\n"),
        ("online bob\n", "refused T2\n"),
    ] {
        let found = seats_refusal(rt.alloc(), lines)?;
        assert_eq!(rt; found.as_str(), want, "{lines:?}");
    }
    Ok(())
}

#[test]
fn faults_in_their_order(rt: HostRuntime) {
    for (text, want) in [
        ("map m\n%% tables\nx\n%%\ny\n", "refused S2 at 6\n"),
        ("map m; map m;\n%% tables\nx\n%%\ny\n", "refused K1 at 11\n"),
        ("map m;\n%% tables\nx\n%%\ny\n", "refused B1 line 3\n"),
        ("map m;\n%%\n%% tables\n", "refused Q1 line 3\n"),
    ] {
        let found = refusal_of(rt.alloc(), text);
        assert_eq!(rt; found.as_str(), want, "{text:?}");
    }
}

// The line that tells why bytes aren't described as a file of handlers; none where they are.
fn description_refusal(alloc: Global, bytes: Vec<u8>) -> ShortText
    requires { length bytes.items ≤ max_input }
{
    match read_description(alloc, false, bytes) {
        Ok(_description) => short_text(""),
        Err(refused) => line_of(refused),
    }
}

// The same of a text.
fn text_refusal(alloc: Global, text: &str) -> Result<ShortText, Fail>
    requires { length text.now ≤ max_input }
{
    let bytes = text.as_bytes().to_vec(alloc)?;
    Ok(description_refusal(alloc, bytes))
}

#[test]
fn a_mark_is_no_file_of_handlers(rt: HostRuntime) -> Result<(), Fail> {
    for text in [
        "map m;\n%% tables\n",
        "map m;\n%% tables\n%%\n",
        "%%\n%% tables",
    ] {
        let line = text_refusal(rt.alloc(), text)?;
        assert_eq!(rt; line.as_str(), "refused T3\n", "{text:?}");
    }
    Ok(())
}

// Whether this name has this place.
fn is_at(names: &Names, place: u32, name: &str) -> bool {
    place < names.len() && names.text(place) == name
}

// The two entries of the only table of a session, and the arguments of its two requests, of which
// each has one.
fn values_of(loaded: &Loaded) -> Option<([(Value, Value); 2], [Value; 2])> {
    let opening = &loaded.opening;
    if opening.tables() != 1 || opening.len(0) != 2 || loaded.requests.len() != 2 {
        return None;
    }
    let [first] = loaded.requests.args(0) else {
        return None;
    };
    let [second] = loaded.requests.args(1) else {
        return None;
    };
    Some((
        [opening.entry(0, 0), opening.entry(0, 1)],
        [*first, *second],
    ))
}

#[test]
fn names_of_the_table_part(rt: HostRuntime) {
    let text = "map m;\nhandler f(a) { }\n%% tables\nm x y\nm 007 x\n%%\nf z\nf y\n";
    let Ok(loaded) = load_session(rt.alloc(), text.as_bytes()) else {
        panic!(rt; "it isn't read")
    };
    let named = loaded.names.len() == 6 && is_at(&loaded.names, 5, "z");
    let values = values_of(&loaded);
    let entries = [
        (Value::Sym(3), Value::Sym(4)),
        (Value::Num(7), Value::Sym(3)),
    ];
    let arguments = [Value::Sym(5), Value::Sym(4)];
    assert!(rt; named && values == Some((entries, arguments)));
}
