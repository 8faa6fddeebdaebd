// Accepting a line: its handler, its arguments, and the room that it takes.

ghost use Rattle.std.specs.Prelude.{◌≡◌, ◌≢◌, ◌<◌, ◌≤◌, ℕ, List, [], length, take, true, false};
ghost use Rattle.std.specs.Prelude.{IfErr, IfOk, OnErr, OnOk, Some, None, vec_capacity};
ghost use Rattle.std.specs.List.{list_all};
ghost use Rattle.session_values.specs.Limits.{max_variables};
ghost use Rattle.session_values.specs.Names.{Begins};
ghost use Rattle.handler_check.specs.Resolved.{code_at};
ghost use Rattle.text_lines.specs.Rows.{row_of};
ghost use Rattle.text_lines.specs.Text.{words as words_of};
ghost use Rattle.text_lines.specs.Values.{is_value, placed_all, values_of};
ghost use Rattle.request_files.specs.Requests.{AreKnown, IsHandler};
ghost use Rattle.live_session.specs.Accepting.{IsAccepted, IsDeclined, IsTurnedAway, IsUnread};
ghost use Rattle.live_session.specs.Entries.{IsAdmitted};
ghost use Rattle.live_session.specs.Held.{HaveRoomFor, factors_in, held};

use crate::admission::Admission;
use crate::admitting::admit;
use crate::answers::{Answered, LineRefusal};
use crate::arguments::{are_values, count, known_values, placed_values};
use crate::first_line::RequestWords;
use handler_check::Checked;
use session_journal::Scratch;
use session_values::{Names, Value};
use shard_tables::Part;
use text_lines::Line;

/// The number of the handler with this name.
pub(crate) fn handler(checked: &Checked, names: &Names, name: &str) -> Option<u32>
    requires { AreKnown names.now checked.now }
    ensures { IsHandler names.now checked.now name.now result }
{
    match names.find(name) {
        Some(place) => checked.find(place),
        None => None,
    }
}

/// Takes back the names behind so many.
pub(crate) fn forget(names: &mut Names, count: u32)
    ensures { names.new ≡ take count names.old }
{
    names.truncate(count);
}

/// Reads the arguments of words that are values and of which some place a new name, unless there
/// would be more names than there may be.
fn place_args(
    words: Line<'_>,
    names: &mut Names,
    most: u32,
    args: &mut Vec<Value>,
) -> Result<(), Answered>
    requires few { length (words_of words.rest.now) ≤ max_variables }
    requires most { length names.old ≤ most }
    requires bound { most ≤ 4000000000 }
    requires room { max_variables ≤ vec_capacity args.old }
    requires values { list_all is_value (words_of words.rest.now) ≡ true }
    requires new { placed_all names.old (words_of words.rest.now) ≢ names.old }
    ensures names { OnOk result (names.new ≡ placed_all names.old (words_of words.entry.rest.now)) }
    ensures few { OnOk result (length names.new ≤ most) }
    ensures args { OnOk result (args.new.items
        ≡ values_of names.new (words_of words.entry.rest.now)) }
    ensures unread { IfErr result (IsUnread names.old most (words_of words.entry.rest.now)) }
    ensures same { OnErr result (names.new ≡ names.old) }
    ensures capacity { vec_capacity args.new ≡ vec_capacity args.old }
{
    args.clear();
    let before = names.len();
    match placed_values(words, names, args) {
        Ok(_) => {
            if names.len() <= most {
                return Ok(());
            }
            forget(names, before);
            Err(Answered::TooManyNames)
        }
        Err(_) => {
            forget(names, before);
            Err(Answered::NoMemory)
        }
    }
}

/// Reads the arguments that the words are. Their symbols are placed, unless there would be more
/// names than there may be.
fn read_args(
    words: Line<'_>,
    names: &mut Names,
    most: u32,
    args: &mut Vec<Value>,
) -> Result<(), Answered>
    requires few { length (words_of words.rest.now) ≤ max_variables }
    requires most { length names.old ≤ most }
    requires bound { most ≤ 4000000000 }
    requires room { max_variables ≤ vec_capacity args.old }
    ensures values { OnOk result (list_all is_value (words_of words.entry.rest.now) ≡ true) }
    ensures names { OnOk result (names.new ≡ placed_all names.old (words_of words.entry.rest.now)) }
    ensures few { OnOk result (length names.new ≤ most) }
    ensures args { OnOk result (args.new.items
        ≡ values_of names.new (words_of words.entry.rest.now)) }
    ensures unread { IfErr result (IsUnread names.old most (words_of words.entry.rest.now)) }
    ensures same { OnErr result (names.new ≡ names.old) }
    ensures capacity { vec_capacity args.new ≡ vec_capacity args.old }
{
    args.clear();
    if known_values(words, names, args) {
        return Ok(());
    }
    if !are_values(words) {
        return Err(Answered::Refused(LineRefusal::BadWord));
    }
    place_args(words, names, most, args)
}

/// Finds the handler that a line's first word names, and reads its arguments.
fn read_line(
    checked: &Checked,
    words: RequestWords<'_>,
    names: &mut Names,
    most: u32,
    args: &mut Vec<Value>,
) -> Result<u32, Answered>
    requires known { AreKnown names.old checked.now }
    requires most { length names.old ≤ most }
    requires bound { most ≤ 4000000000 }
    requires room { max_variables ≤ vec_capacity args.old }
    ensures accepted { IfOk result (IsAccepted checked.now names.old most
        (row_of 0 words.entry.name.now (words_of words.entry.arguments.rest.now)) names.new
        args.new.items) }
    ensures declined { IfErr result (IsDeclined checked.now names.old most
        (row_of 0 words.entry.name.now (words_of words.entry.arguments.rest.now))) }
    ensures same { OnErr result (names.new ≡ names.old) }
    ensures capacity { vec_capacity args.new ≡ vec_capacity args.old }
{
    let Some(h) = handler(checked, names, words.name) else {
        return Err(Answered::Refused(LineRefusal::UnknownHandler));
    };
    if count(words.arguments) != checked.handler(h).params as usize {
        return Err(Answered::Refused(LineRefusal::Arity));
    }
    match read_args(words.arguments, names, most, args) {
        Ok(()) => Ok(h),
        Err(why) => Err(why),
    }
}

/// Accepts a line: answers its handler, with its arguments in the list, its symbols among the
/// names and room in each table for the keys that the handler may add. Where it doesn't, names are
/// as they were and tables hold what they held.
pub(crate) fn accept(
    by: Admission<'_>,
    words: RequestWords<'_>,
    names: &mut Names,
    args: &mut Vec<Value>,
    scratch: &mut Scratch,
    parts: &mut Vec<Part>,
) -> Result<u32, Answered>
    requires known { AreKnown names.old by.program.now.file }
    requires most { length names.old ≤ by.most_names }
    requires room { max_variables ≤ vec_capacity args.old }
    requires long { length by.adds.now ≡ length parts.old.items }
    ensures accepted { IfOk result (IsAccepted by.entry.program.now.file names.old
        by.entry.most_names (row_of 0 words.entry.name.now (words_of
        words.entry.arguments.rest.now)) names.new args.new.items) }
    ensures admitted { IfOk result (λ h. IsAdmitted by.entry.program.now by.entry.tickets.now h
        args.new.items) }
    ensures room { IfOk result (λ h. HaveRoomFor (code_at by.entry.program.now.file h)
        parts.new.items) }
    ensures turned_away { IfErr result (IsTurnedAway by.entry.program.now by.entry.tickets.now
        names.old by.entry.most_names (row_of 0 words.entry.name.now (words_of
        words.entry.arguments.rest.now))) }
    ensures same { OnErr result (names.new ≡ names.old) }
    ensures held { held parts.new.items ≡ held parts.old.items }
    ensures factors { factors_in parts.new.items ≡ factors_in parts.old.items }
    ensures capacity { vec_capacity args.new ≡ vec_capacity args.old }
{
    let before = names.len();
    let h = match read_line(by.program.checked(), words, names, by.most_names, args) {
        Ok(h) => h,
        Err(why) => return Err(why),
    };
    match admit(by, h, args.as_slice(), scratch, parts) {
        Ok(()) => Ok(h),
        Err(why) => {
            forget(names, before);
            Err(why)
        }
    }
}
