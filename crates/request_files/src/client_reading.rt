// The requests of a text that is divided among clients.

ghost use Rattle.std.specs.Prelude.{◌≡◌, ◌≢◌, ◌+◌, ◌≤◌, length, Some, IfOk};
ghost use Rattle.session_values.specs.Names.{Begins};
ghost use Rattle.syntax_trees.specs.Mentions.{AreNamed, file_mentions};
ghost use Rattle.text_lines.specs.Rows.{rows as rows_of};
ghost use Rattle.text_lines.specs.Text.{lines as lines_of};
ghost use Rattle.request_files.specs.Clients.{AreShared, marks_in, row_counts, without_marks};
ghost use Rattle.request_files.specs.Requests as spec;
ghost use Rattle.request_files.specs.Servable.{IsServable};

use crate::client_lines::{first_line, first_word};
use crate::clients::ClientRequests;
use crate::mark::is_next_mark;
use crate::recent::Recent;
use crate::refusal::RequestRefusal;
use crate::request_line::request;
use crate::requests::Requests;
use crate::room::make_room;
use crate::row::Row;
use crate::tally::no_requests;
use handler_check::Checked;
use session_values::Names;
use std::alloc::Global;

/// The requests of a text that is divided among clients, whose first line has the number `first`:
/// all in the file's order, and how many each client has. Each line counts, marks too. Symbols are
/// placed as by `read_requests`.
pub fn read_clients(
    alloc: Global,
    checked: &Checked,
    text: &str,
    first: u32,
    names: &mut Names,
) -> Result<ClientRequests, RequestRefusal>
    requires named { AreNamed names.old (file_mentions checked.now) }
    requires lines { first + length text.now ≤ 4294967295 }
    requires names { length names.old + length text.now ≤ 4294967295 }
    requires marks { marks_in (lines_of text.now) ≤ 15 }
    ensures ok { IfOk result (λ found. spec.AreRequests names.old names.new checked.now
        (rows_of first (without_marks (lines_of text.now))) found.requests) }
    ensures counts { IfOk result (λ found. found.counts ≡ row_counts (lines_of text.now)) }
    ensures shared { IfOk result (λ found. AreShared found) }
    ensures servable { IfOk result (λ found. IsServable checked.now found.requests) }
    ensures printable { IfOk result (λ found. spec.ArePrintable names.new found.requests) }
    ensures refused { (e : _) → result ≡ Err e → e ≢ RequestRefusal.NoMemory →
        spec.first_fault names.old checked.now spec.no_requests
        (rows_of first (without_marks (lines_of text.now))) ≡ Some e }
    ensures kept { Begins names.old names.new }
    // As many new names as bytes that were read, at most.
    ensures room { length names.new ≤ length names.old + length text.now }
{
    let mut found = Vec::new(alloc);
    let mut values = Vec::new(alloc);
    make_room(&mut found, &mut values, text.len());
    let mut recent = Recent::none();
    let mut counts = Vec::new(alloc);
    let mut mine = 0;
    let mut tally = no_requests();
    let mut number = first;
    let mut rest = text;
    'lines: while !rest.is_empty() {
        let (line, next) = first_line(rest);
        let this = number;
        number += 1;
        rest = next;
        if is_next_mark(line.as_bytes()) {
            if let Err(_) = counts.push(mine) {
                return Err(RequestRefusal::NoMemory);
            }
            mine = 0;
        } else if let Some((name, words)) = first_word(line) {
            let row = Row {
                line: this,
                name,
                words,
            };
            match request(checked, tally, row, names, &mut recent, &mut values) {
                Ok((entry, sums)) => {
                    if let Err(_) = found.push(entry) {
                        return Err(RequestRefusal::NoMemory);
                    }
                    mine += 1;
                    tally = sums;
                }
                Err(e) => return Err(e),
            }
        }
    }
    if let Err(_) = counts.push(mine) {
        return Err(RequestRefusal::NoMemory);
    }
    match ClientRequests::over(alloc, Requests::over(found, values), counts) {
        Ok(clients) => Ok(clients),
        Err(_) => Err(RequestRefusal::NoMemory),
    }
}
