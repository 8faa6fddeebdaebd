// Accepting a request that is given without a line: its arguments, and the room that it takes.

ghost use Rattle.std.specs.Prelude.{◌≡◌, ◌≢◌, ◌<◌, ◌≤◌, IfErr, OnErr, OnOk, length};
ghost use Rattle.std.specs.Prelude.{vec_capacity};
ghost use Rattle.std.specs.List.{AllByRecursion};
ghost use Rattle.session_values.specs.Limits.{max_variables};
ghost use Rattle.handler_check.specs.Resolved.{code_at};
ghost use Rattle.text_lines.specs.Values.{placed_all, values_of};
ghost use Rattle.request_files.specs.Requests.{AreKnown};
ghost use Rattle.live_session.specs.Accepting.{IsAccepted};
ghost use Rattle.live_session.specs.Entries.{IsAdmitted};
ghost use Rattle.live_session.specs.Held.{HaveRoomFor, factors_in, held};
ghost use Rattle.live_session.specs.ArgumentWords.{IsHeld, words_of};
ghost use Rattle.live_session.specs.Invoking.{AreFine, AreNotRead, CanBeSaid, IsNotGiven};
ghost use Rattle.live_session.specs.Invoking.{IsNotReceived, invoke_error, row_given};

use crate::accepting::forget;
use crate::admission::Admission;
use crate::admitting::admit;
use crate::answers::{Answered, InvokeError};
use crate::argument::{Argument, first_fault, known_arguments, placed_arguments};
use handler_check::Checked;
use session_journal::Scratch;
use session_values::{Names, Value};
use shard_tables::Part;

/// Reads arguments of which some place a new name, unless there would be more names than there may
/// be.
fn place_arguments(
    arguments: &[Argument<'_>],
    names: &mut Names,
    most: u32,
    args: &mut Vec<Value>,
) -> Result<(), InvokeError>
    requires few { length arguments.now ≤ max_variables }
    requires most { length names.old ≤ most }
    requires bound { most ≤ 4000000000 }
    requires room { max_variables ≤ vec_capacity args.old }
    requires fine { AreFine names.old arguments.now }
    requires new { placed_all names.old (words_of names.old arguments.now) ≢ names.old }
    ensures names { OnOk result (names.new
        ≡ placed_all names.old (words_of names.old arguments.now)) }
    ensures few { OnOk result (length names.new ≤ most) }
    ensures args { OnOk result (args.new.items
        ≡ values_of names.new (words_of names.old arguments.now)) }
    ensures unread { IfErr result (AreNotRead names.old most arguments.now) }
    ensures same { OnErr result (names.new ≡ names.old) }
    ensures capacity { vec_capacity args.new ≡ vec_capacity args.old }
{
    args.clear();
    let before = names.len();
    match placed_arguments(arguments, names, args) {
        Ok(()) => {
            if names.len() <= most {
                return Ok(());
            }
            forget(names, before);
            Err(InvokeError::TooManyNames)
        }
        Err(_) => {
            forget(names, before);
            Err(InvokeError::NoMemory)
        }
    }
}

/// Reads arguments. Their symbols are placed, unless there would be more names than there may be.
fn read_arguments(
    arguments: &[Argument<'_>],
    names: &mut Names,
    most: u32,
    args: &mut Vec<Value>,
) -> Result<(), InvokeError>
    requires few { length arguments.now ≤ max_variables }
    requires most { length names.old ≤ most }
    requires bound { most ≤ 4000000000 }
    requires room { max_variables ≤ vec_capacity args.old }
    ensures fine { OnOk result (AreFine names.old arguments.now) }
    ensures names { OnOk result (names.new
        ≡ placed_all names.old (words_of names.old arguments.now)) }
    ensures few { OnOk result (length names.new ≤ most) }
    ensures args { OnOk result (args.new.items
        ≡ values_of names.new (words_of names.old arguments.now)) }
    ensures unread { IfErr result (AreNotRead names.old most arguments.now) }
    ensures same { OnErr result (names.new ≡ names.old) }
    ensures capacity { vec_capacity args.new ≡ vec_capacity args.old }
{
    args.clear();
    if let Some(why) = first_fault(arguments, names) {
        return Err(why);
    }
    if known_arguments(arguments, names, args) {
        return Ok(());
    }
    place_arguments(arguments, names, most, args)
}

/// Reads the arguments of a request, if there is a handler of this number that has so many
/// parameters.
fn read_given(
    checked: &Checked,
    h: u32,
    arguments: &[Argument<'_>],
    names: &mut Names,
    most: u32,
    args: &mut Vec<Value>,
) -> Result<(), InvokeError>
    requires known { AreKnown names.old checked.now }
    requires most { length names.old ≤ most }
    requires bound { most ≤ 4000000000 }
    requires room { max_variables ≤ vec_capacity args.old }
    ensures said { OnOk result (CanBeSaid names.old checked.now h arguments.now) }
    ensures held { OnOk result (AllByRecursion IsHeld arguments.now) }
    ensures accepted { OnOk result (IsAccepted checked.now names.old most
        (row_given names.old checked.now h arguments.now) names.new args.new.items h) }
    ensures unread { IfErr result (IsNotGiven checked.now names.old most h arguments.now) }
    ensures same { OnErr result (names.new ≡ names.old) }
    ensures capacity { vec_capacity args.new ≡ vec_capacity args.old }
{
    // It breaks no rule, so that no two handlers have one name; nor have two names one text.
    let _file = checked.file();
    let _names = names.len();
    if h >= checked.handlers() {
        return Err(InvokeError::UnknownHandler);
    }
    if arguments.len() != checked.handler(h).params as usize {
        return Err(InvokeError::Arity);
    }
    read_arguments(arguments, names, most, args)
}

/// Accepts a request: its arguments are in the list, its symbols among the names, and there is room
/// in each table for the keys that its handler may add. Where it doesn't, names are as they were and
/// tables hold what they held.
pub(crate) fn accept_given(
    by: Admission<'_>,
    h: u32,
    arguments: &[Argument<'_>],
    names: &mut Names,
    args: &mut Vec<Value>,
    scratch: &mut Scratch,
    parts: &mut Vec<Part>,
) -> Result<(), InvokeError>
    requires known { AreKnown names.old by.program.now.file }
    requires most { length names.old ≤ by.most_names }
    requires room { max_variables ≤ vec_capacity args.old }
    requires long { length by.adds.now ≡ length parts.old.items }
    ensures said { OnOk result (CanBeSaid names.old by.entry.program.now.file h arguments.now) }
    ensures words { OnOk result (AllByRecursion IsHeld arguments.now) }
    ensures accepted { OnOk result (IsAccepted by.entry.program.now.file names.old
        by.entry.most_names (row_given names.old by.entry.program.now.file h arguments.now)
        names.new args.new.items h) }
    ensures admitted { OnOk result (IsAdmitted by.entry.program.now by.entry.tickets.now h
        args.new.items) }
    ensures room { OnOk result (HaveRoomFor (code_at by.entry.program.now.file h)
        parts.new.items) }
    ensures away { IfErr result (IsNotReceived by.entry.program.now by.entry.tickets.now
        names.old by.entry.most_names h arguments.now) }
    ensures same { OnErr result (names.new ≡ names.old) }
    ensures held { held parts.new.items ≡ held parts.old.items }
    ensures factors { factors_in parts.new.items ≡ factors_in parts.old.items }
    ensures capacity { vec_capacity args.new ≡ vec_capacity args.old }
{
    let before = names.len();
    match read_given(
        by.program.checked(),
        h,
        arguments,
        names,
        by.most_names,
        args,
    ) {
        Ok(()) => {}
        Err(why) => return Err(why),
    }
    match admit(by, h, args.as_slice(), scratch, parts) {
        Ok(()) => Ok(()),
        Err(why) => {
            forget(names, before);
            Err(not_admitted(why))
        }
    }
}

/// Why a request isn't let run.
fn not_admitted(why: Answered) -> InvokeError
    ensures { result ≡ invoke_error why }
{
    match why {
        Answered::Delayed { older } => InvokeError::Delayed { older },
        Answered::NoNumber => InvokeError::NoNumber,
        _ => InvokeError::NoMemory,
    }
}
