// The requests of a text.

ghost use Rattle.std.specs.Prelude.{◌≡◌, ◌≢◌, ◌+◌, ◌≤◌, length, Some, IfOk};
ghost use Rattle.session_values.specs.Names.{Begins};
ghost use Rattle.syntax_trees.specs.Mentions.{AreNamed, file_mentions};
ghost use Rattle.text_lines.specs.Text.{lines as lines_of};
ghost use Rattle.request_files.specs.Requests as spec;
ghost use Rattle.text_lines.specs.Rows.{rows as rows_of};
ghost use Rattle.request_files.specs.Servable.{IsServable};

use crate::recent::Recent;
use crate::refusal::RequestRefusal;
use crate::request_line::request;
use crate::requests::Requests;
use crate::room::make_room;
use crate::row::Row;
use crate::tally::Tally;
use handler_check::Checked;
use session_values::Names;
use std::alloc::Global;
use text_lines::Lines;

/// The requests of a text whose first line has the number `first`, in their order. The symbols
/// among their arguments are placed behind the names that are there, which are those of the file.
pub fn read_requests(
    alloc: Global,
    checked: &Checked,
    text: &str,
    first: u32,
    names: &mut Names,
) -> Result<Requests, RequestRefusal>
    requires named { AreNamed names.old (file_mentions checked.now) }
    requires lines { first + length text.now ≤ 4294967295 }
    requires names { length names.old + length text.now ≤ 4294967295 }
    ensures ok { IfOk result (λ found. spec.AreRequests names.old names.new checked.now
        (rows_of first (lines_of text.now)) found) }
    ensures servable { IfOk result (λ found. IsServable checked.now found) }
    ensures printable { IfOk result (λ found. spec.ArePrintable names.new found) }
    ensures refused { (e : _) → result ≡ Err e → e ≢ RequestRefusal.NoMemory →
        spec.first_fault names.old checked.now spec.no_requests
        (rows_of first (lines_of text.now)) ≡ Some e }
    ensures kept { Begins names.old names.new }
    // As many new names as bytes that were read, at most.
    ensures room { length names.new ≤ length names.old + length text.now }
{
    let mut found = Vec::new(alloc);
    let mut values = Vec::new(alloc);
    make_room(&mut found, &mut values, text.len());
    let mut recent = Recent::none();
    let mut tally = Tally {
        requests: 0,
        calls: 0,
        work: 0,
    };
    let mut lines = Lines::over(text, first);
    'lines: while let Some((line, mut words)) = lines.next() {
        if let Some(name) = words.next() {
            let row = Row { line, name, words };
            match request(checked, tally, row, names, &mut recent, &mut values) {
                Ok((entry, next)) => {
                    if let Err(_) = found.push(entry) {
                        return Err(RequestRefusal::NoMemory);
                    }
                    tally = next;
                }
                Err(e) => return Err(e),
            }
        }
    }
    Ok(Requests::over(found, values))
}
