// Sessions that live: replies and tables as `serve` and `dump` write them of one file with all the
// lines, and what is refused.

use crate::calls::{answered, dumped, opened, served};
use live_session::{Answered, Batch, Ended, LineRefusal};
use std::alloc::Global;
use std::test::Fail;

/// Handlers over tables that open with entries. There are eight names.
const OPENING: &str = "map m; set s; handler f(n) { let old = swap(m, n, 1); mark(s, n); \
    let c = size(m); reply old, c; }\nhandler g() { let c = count(s); reply c; }\n\
    %% tables\nm a 3\ns 4\n%%\n";

/// Lines that are all served, but for those without words.
const LINES: &str = "f a\n\n  # none\nf 5\ng\nf b\nf a\n";

/// Seats that are booked, as in examples/look.session.
const SEATS: &str = "map seats; handler book(seat, who) { let holder = get(seats, seat); \
    if holder == nil { put(seats, seat, who); reply 'booked, seat; } reply 'taken, holder; }\n\
    handler leave(seat) { let who = get(seats, seat); del(seats, seat); reply 'left, who; }\n%%\n";

/// Their requests.
const BOOKINGS: &str = "book A1 alice\nbook A1 bob       # she has it\nleave A1\nbook A1 bob\n";

/// Who is signed in at the end of a day, as in examples/evening.session.
const EVENING: &str = "map seats; set online; handler login(user, seat) { \
    let old = swap(seats, user, seat); mark(online, user); reply old; }\nhandler logout(user) { \
    del(seats, user); drop(online, user); }\n%% tables\nseats bob 3\nonline bob\n%%\n";

/// Its requests; the last line has no line feed.
const LOGINS: &str = "login alice 5\nlogin bob 9\nlogout alice";

/// What a batch ends with that used so many bytes and served so many requests.
fn batch(used: usize, requests: usize, ended: Ended) -> Batch {
    Batch {
        used,
        requests,
        ended,
    }
}

/// Whether lines behind others have these replies, and end so.
fn is_served(
    alloc: Global,
    (text, before, lines, most): (&str, &str, &str, usize),
    replies: &str,
    ends: Batch,
) -> bool {
    match served(alloc, text, before, lines, most) {
        Some((given, batch)) => given.bytes() == replies.as_bytes() && batch == ends,
        None => false,
    }
}

/// Whether the tables after lines are these.
fn is_dumped(alloc: Global, text: &str, lines: &str, tables: &str) -> bool {
    match dumped(alloc, text, lines) {
        Some(out) => out.bytes() == tables.as_bytes(),
        None => false,
    }
}

/// Whether a line has this answer and this reply, where there may be eight names.
fn is_answered(alloc: Global, line: &str, due: Answered, reply: &str) -> bool {
    match answered(alloc, OPENING, 8, line) {
        Some((given, answer)) => given.bytes() == reply.as_bytes() && answer == due,
        None => false,
    }
}

#[test]
fn serves_lines(rt: HostRuntime) -> Result<(), Fail> {
    let all = Ended::All;
    let cases = [
        (OPENING, LINES, "3 1\nnil 2\n3\nnil 3\n1 3\n", 5),
        (
            SEATS,
            BOOKINGS,
            "booked A1\ntaken alice\nleft alice\nbooked A1\n",
            4,
        ),
        (EVENING, LOGINS, "nil\n3\nnil\n", 3),
    ];
    for (text, lines, replies, requests) in cases {
        let ends = batch(lines.len(), requests, all);
        let is = is_served(rt.alloc(), (text, "", lines, 10_000), replies, ends);
        assert_eq!(rt; (lines, is), (lines, true));
    }
    Ok(())
}

#[test]
fn dumps_tables(rt: HostRuntime) -> Result<(), Fail> {
    let cases = [
        (OPENING, "", "%% tables\nm a 3\ns 4\n"),
        (
            OPENING,
            LINES,
            "%% tables\nm 5 1\nm a 1\nm b 1\ns 4\ns 5\ns a\ns b\n",
        ),
        (SEATS, BOOKINGS, "%% tables\nseats A1 bob\n"),
        (EVENING, LOGINS, "%% tables\nseats bob 9\nonline bob\n"),
    ];
    for (text, lines, tables) in cases {
        let is = is_dumped(rt.alloc(), text, lines, tables);
        assert_eq!(rt; (lines, is), (lines, true));
    }
    Ok(())
}

#[test]
fn answers_a_line(rt: HostRuntime) -> Result<(), Fail> {
    let cases = [
        ("h 1", Answered::Refused(LineRefusal::UnknownHandler), ""),
        ("f", Answered::Refused(LineRefusal::Arity), ""),
        ("f new 9x", Answered::Refused(LineRefusal::Arity), ""),
        ("f 9x", Answered::Refused(LineRefusal::BadWord), ""),
        ("f 'a", Answered::Refused(LineRefusal::BadWord), ""),
        ("f 1\nf 2", Answered::Refused(LineRefusal::ManyLines), ""),
        ("f new", Answered::TooManyNames, ""),
        ("", Answered::Nothing, ""),
        ("# f 1", Answered::Nothing, ""),
        ("f a", Answered::Served, "3 1\n"),
        ("g\n", Answered::Served, "1\n"),
    ];
    for (line, due, reply) in cases {
        let is = is_answered(rt.alloc(), line, due, reply);
        assert_eq!(rt; (line, is), (line, true));
    }
    Ok(())
}

#[test]
fn opens(rt: HostRuntime) -> Result<(), Fail> {
    let cases = [
        (OPENING, 8, "opened"),
        (OPENING, 7, "too many names"),
        ("map m;\n", 100, "refused"),
        ("map m; handler f() { }\n%%\nf\n", 100, "has requests"),
    ];
    for (text, most_names, due) in cases {
        assert_eq!(rt; opened(rt.alloc(), text, most_names), due);
    }
    Ok(())
}

#[test]
fn stops_at_a_refused_line(rt: HostRuntime) -> Result<(), Fail> {
    let arity = Ended::Stopped(Answered::Refused(LineRefusal::Arity));
    let lines = "f a\nf 1 2\nf a\n";
    let cases = [
        ("", lines, "3 1\n", batch(10, 1, arity)),
        (lines, "f a\n", "1 1\n", batch(4, 1, Ended::All)),
    ];
    for (before, lines, replies, ends) in cases {
        let is = is_served(rt.alloc(), (OPENING, before, lines, 1000), replies, ends);
        assert_eq!(rt; (before, is), (before, true));
    }
    Ok(())
}

#[test]
fn stops_where_room_ends(rt: HostRuntime) -> Result<(), Fail> {
    let lines = "f a\nf 5\nf 6\n";
    let cases = [
        ("", lines, 263, "", batch(0, 0, Ended::Full)),
        ("", lines, 268, "3 1\nnil 2\n", batch(8, 2, Ended::Full)),
        (
            "f a\nf 5\n",
            "f 6\n",
            268,
            "nil 3\n",
            batch(4, 1, Ended::All),
        ),
    ];
    for (before, lines, most, replies, ends) in cases {
        let is = is_served(rt.alloc(), (OPENING, before, lines, most), replies, ends);
        assert_eq!(rt; (most, is), (most, true));
    }
    Ok(())
}
