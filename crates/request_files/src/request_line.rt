// The request of a line.

ghost use Rattle.std.specs.Prelude.{◌≡◌, ◌≢◌, ◌+◌, ◌≤◌, ◌==◌, cond, length, Some, IfOk};
ghost use Rattle.session_values.specs.Names.{Begins};
ghost use Rattle.text_lines.specs.Text.{words as words_of};
ghost use Rattle.request_files.specs.declared.refusal.RequestRefusal.TheVariants.{Arity, BadWord};
ghost use Rattle.request_files.specs.Entries.{IsBehind, request_in};
ghost use Rattle.request_files.specs.Requests as spec;
ghost use Rattle.text_lines.specs.Rows.{row_of};

use crate::arguments::{count, values};
use crate::entry::Entry;
use crate::recent::Recent;
use crate::refusal::RequestRefusal;
use crate::row::Row;
use crate::tally::{Tally, look_at_sums, with_request};
use handler_check::Checked;
use session_values::{MAX_REQUESTS, Names, Value};
use text_lines::Line;

/// The number of the handler with this name.
fn handler(checked: &Checked, names: &Names, name: &str, recent: &mut Recent) -> Option<u32>
    requires { spec.AreKnown names.now checked.now }
    ensures { spec.IsHandler names.now checked.now name.now result }
{
    match recent.find(names, name) {
        Some(place) => checked.find(place),
        None => None,
    }
}

/// The refusal of a line with a word that is no value: its number of words is looked at first.
fn bad_word(params: u32, words: Line<'_>, line: u32) -> RequestRefusal
    ensures { result ≡ cond (params == length (words_of words.entry.rest.now))
        (BadWord line) (Arity line) }
{
    if count(words) == params as usize {
        RequestRefusal::BadWord { line }
    } else {
        RequestRefusal::Arity { line }
    }
}

/// The request of a row, behind those of the tally, with the tally behind it. Its arguments are
/// appended to those of the others.
pub(crate) fn request(
    checked: &Checked,
    tally: Tally,
    row: Row<'_>,
    names: &mut Names,
    recent: &mut Recent,
    list: &mut Vec<Value>,
) -> Result<(Entry, Tally), RequestRefusal>
    requires known { spec.AreKnown names.old checked.now }
    requires room { length names.old + length (words_of row.words.rest.now) ≤ 4294967295 }
    requires within { spec.IsWithin tally }
    ensures ok { IfOk result (λ p. spec.Accepted names.old names.new checked.now tally
        (row_of row.entry.line row.entry.name.now (words_of row.entry.words.rest.now))
        (request_in list.new.items p.0) p.1) }
    ensures behind { IfOk result (λ p. IsBehind list.old.items list.new.items p.0) }
    ensures refused { (e : _) → result ≡ Err e → e ≢ RequestRefusal.NoMemory →
        spec.fault_of names.old checked.now tally
        (row_of row.entry.line row.entry.name.now (words_of row.entry.words.rest.now)) ≡ Some e }
    ensures kept { Begins names.old names.new }
    ensures room { length names.new ≤ length names.old + length (words_of row.entry.words.rest.now) }
{
    let line = row.line;
    if tally.requests >= MAX_REQUESTS {
        return Err(RequestRefusal::TooManyRequests { line });
    }
    let Some(number) = handler(checked, names, row.name, recent) else {
        return Err(RequestRefusal::UnknownHandler { line });
    };
    let params = checked.handler(number).params;
    let first = list.len();
    let Ok(fine) = values(row.words, names, list) else {
        return Err(RequestRefusal::NoMemory);
    };
    if !fine {
        return Err(bad_word(params, row.words, line));
    }
    if list.len() - first != params as usize {
        return Err(RequestRefusal::Arity { line });
    }
    let next = with_request(checked, number, tally);
    match look_at_sums(next, line) {
        Ok(()) => Ok((
            Entry {
                handler: number,
                args: params,
                first,
            },
            next,
        )),
        Err(e) => Err(e),
    }
}
