// Lines that a session takes, one after the other.

ghost use Rattle.std.specs.Prelude.{◌≡◌, ◌≢◌, ◌<◌, ◌≤◌, ◌+◌, map, Some, None, IfOk, OnOk};
ghost use Rattle.std.specs.List.{AllByRecursion};
ghost use Rattle.session_values.specs.Tables.{size_of};
ghost use Rattle.range_tables.specs.Shards.{map_shard};
ghost use Rattle.text_lines.specs.Text.{words as words_of};
ghost use Rattle.range_tables.specs.Faults as spec;
ghost use Rattle.range_tables.specs.Ready.{IsReadyHold};
ghost use Rattle.range_tables.specs.Taking.{TakesLine, desk_of};
ghost use Rattle.range_tables.specs.Words as word_spec;

use crate::desk::take;
use crate::judging::judge;
use crate::refusal::RangeRefusal;
use crate::word::{Word, word_of};
use crate::{RangeSymbol, RangeTable};
use session_values::{Listed, Names, NoMemory};
use std::alloc::Global;
use text_lines::Line;

/// What a session keeps from line to line: its map, the holds beside it, how many lines with words
/// it took and how many operations these asked for, and what they wrote.
#[derive(Drop)]
pub(crate) struct Session {
    pub(crate) table: RangeTable,
    pub(crate) holds: Vec<Option<Listed<RangeSymbol>>>,
    pub(crate) seen: u32,
    pub(crate) asked: u32,
    pub(crate) out: Vec<u8>,
}

/// All that the words may be that are left.
fn words_of_line(alloc: Global, mut words: Line<'_>, names: &Names) -> Result<Vec<Word>, NoMemory>
    ensures { IfOk result (λ ws. ws.items
        ≡ map (word_spec.word_of names.now) (words_of words.entry.rest.now)) }
{
    let mut found = Vec::new(alloc);
    'words: while let Some(word) = words.next() {
        found.push(word_of(word, names))?;
    }
    Ok(found)
}

impl Session {
    /// Reads a line with words and takes its step; or answers its fault.
    pub(crate) fn take_line(
        &mut self,
        alloc: Global,
        line: u32,
        name: &str,
        words: Line<'_>,
        names: &Names,
    ) -> Result<(), RangeRefusal>
        requires ready { AllByRecursion IsReadyHold self.old.holds.items }
        requires size { size_of (map_shard self.old.table).container ≤ self.old.seen }
        requires room { self.old.table.room ≡ 4000 }
        requires few { self.old.asked ≤ self.old.seen }
        ensures takes { OnOk result (TakesLine names.now
            (desk_of self.old.table self.old.holds.items self.old.asked) name.now
            (words_of words.entry.rest.now) self.old.out.items self.new.out.items
            (desk_of self.new.table self.new.holds.items self.new.asked)) }
        ensures fine { OnOk result (spec.fault_of line self.old.seen self.old.holds.items name.now
            (map (word_spec.word_of names.now) (words_of words.entry.rest.now)) ≡ None) }
        ensures refused { (e : _) → result ≡ Err e → e ≢ RangeRefusal.NoMemory →
            spec.fault_of line self.old.seen self.old.holds.items name.now
            (map (word_spec.word_of names.now) (words_of words.entry.rest.now)) ≡ Some e }
        ensures ready { OnOk result (AllByRecursion IsReadyHold self.new.holds.items) }
        ensures size { OnOk result
            (size_of (map_shard self.new.table).container ≤ self.old.seen + 1) }
        ensures room { OnOk result (self.new.table.room ≡ 4000) }
        ensures few { OnOk result (self.new.asked ≤ self.old.seen + 1) }
        ensures below { OnOk result (self.old.seen < 4000) }
        ensures seen { OnOk result (self.new.seen ≡ self.old.seen + 1) }
    {
        let Ok(found) = words_of_line(alloc, words, names) else {
            return Err(RangeRefusal::NoMemory);
        };
        let holds = self.holds.as_slice();
        let step = match judge(alloc, line, self.seen, holds, name, found.as_slice()) {
            Ok(step) => step,
            Err(e) => return Err(e),
        };
        let (table, holds, out) = (&mut self.table, &mut self.holds, &mut self.out);
        match take(step, self.asked, table, holds, names, out) {
            Ok(asked) => {
                self.asked = asked;
                self.seen += 1;
                Ok(())
            }
            Err(_) => Err(RangeRefusal::NoMemory),
        }
    }
}
