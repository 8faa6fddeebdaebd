// A text of lines, from the first to the last.

ghost use Rattle.std.specs.Prelude.{◌≡◌, ◌≢◌, ◌≤◌, length, Some, IfOk};
ghost use Rattle.session_values.specs.Limits.{max_input};
ghost use Rattle.range_tables.specs.Faults as spec;
ghost use Rattle.range_tables.specs.Session.{IsRangesText};

use crate::RangeTable;
use crate::judging::MAX_LINES;
use crate::naming::names_of;
use crate::refusal::RangeRefusal;
use crate::taking::Session;
use session_values::Names;
use std::alloc::Global;
use text_lines::Lines;

/// What the lines of a text write, or the first fault among them.
fn written(alloc: Global, text: &str, names: &Names) -> Result<Vec<u8>, RangeRefusal>
    requires text { length text.now ≤ max_input }
    requires names { names.now ≡ spec.names_of text.now }
    ensures text { IfOk result (λ out. IsRangesText text.now out.items) }
    ensures refused { (e : _) → result ≡ Err e → e ≢ RangeRefusal.NoMemory →
        spec.text_fault text.now ≡ Some e }
{
    let table = RangeTable::with_room(alloc, MAX_LINES)?;
    let holds = Vec::new(alloc);
    let out = Vec::new(alloc);
    let mut session = Session {
        table,
        holds,
        seen: 0,
        asked: 0,
        out,
    };
    let mut lines = Lines::over(text, 1);
    'lines: while let Some((number, line)) = lines.next() {
        let mut words = line;
        if let Some(name) = words.next() {
            match session.take_line(alloc, number, name, words, names) {
                Ok(()) => {}
                Err(e) => return Err(e),
            }
        }
    }
    Ok(session.out)
}

/// What the lines of a text write, or the first fault among them. Nothing of a text with a fault is
/// written.
pub fn ranges_text(alloc: Global, text: &str) -> Result<Vec<u8>, RangeRefusal>
    requires { length text.now ≤ max_input }
    ensures text { IfOk result (λ out. IsRangesText text.now out.items) }
    ensures refused { (e : _) → result ≡ Err e → e ≢ RangeRefusal.NoMemory →
        spec.text_fault text.now ≡ Some e }
{
    match names_of(alloc, text) {
        Ok(names) => match written(alloc, text, &names) {
            Ok(out) => Ok(out),
            Err(e) => Err(e),
        },
        Err(_) => Err(RangeRefusal::NoMemory),
    }
}
