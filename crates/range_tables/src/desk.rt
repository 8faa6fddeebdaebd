// One map, and what a step does beside the holds.

ghost use Rattle.std.specs.Prelude.{◌≡◌, ◌<◌, ◌+◌, ◌≤◌, [], ◌∷◌, ◌++◌, OnOk, IfOk};
ghost use Rattle.std.specs.List.{AllByRecursion};
ghost use Rattle.session_values.specs.Tables.{size_of};
ghost use Rattle.range_tables.specs.Shards.{map_shard};
ghost use Rattle.range_tables.specs.Tables.{IsOnFirst};
ghost use Rattle.range_tables.specs.Faults as faults;
ghost use Rattle.range_tables.specs.Ready.{IsReadyHold, IsReadyStep};
ghost use Rattle.range_tables.specs.Session as spec;
ghost use Rattle.range_tables.specs.Taking.{Takes, desk_of};
ghost use Rattle.range_tables.specs.declared.step.Step.TheVariants as steps;

use crate::against::least_against;
use crate::step::Step;
use crate::writing::{push_delay, push_reply};
use crate::{RangeOp, RangeSymbol, RangeTable};
use session_values::{Listed, Names, NoMemory};

/// Does an operation with which all open holds commute, else leaves the map as it is; and writes
/// the operation's line.
fn ask(
    op: RangeOp,
    asked: u32,
    table: &mut RangeTable,
    holds: &[Option<Listed<RangeSymbol>>],
    names: &Names,
    out: &mut Vec<u8>,
) -> Result<(), NoMemory>
    requires first { IsOnFirst op }
    requires ready { AllByRecursion IsReadyHold holds.now }
    requires room { size_of (map_shard table.old).container < table.old.room }
    requires few { asked < 4000 }
    ensures takes { OnOk result (Takes names.now
        (desk_of table.old holds.now asked) (steps.Do op) out.old.items out.new.items
        (desk_of table.new holds.now (asked + 1))) }
    ensures room { table.new.room ≡ table.old.room }
    ensures size { size_of (map_shard table.new).container
        ≤ size_of (map_shard table.old).container + 1 }
{
    match least_against(&op, holds) {
        Some((hold, symbol)) => {
            push_delay(out, asked, hold, symbol)?;
            Ok(())
        }
        None => {
            let reply = table.apply(op);
            push_reply(out, asked, reply, names)?;
            Ok(())
        }
    }
}

/// Closes the hold of this number, if it is open.
fn close(holds: &mut Vec<Option<Listed<RangeSymbol>>>, n: i64)
    requires { AllByRecursion IsReadyHold holds.old.items }
    ensures after { holds.new.items ≡ faults.closed holds.old.items n }
    ensures ready { AllByRecursion IsReadyHold holds.new.items }
{
    if let Ok(place) = usize::try_from(n) {
        if place < holds.len() {
            holds[place] = None;
        }
    }
}

/// Takes a step, writes its line, and answers how many operations were asked for by then.
pub(crate) fn take(
    step: Step,
    asked: u32,
    table: &mut RangeTable,
    holds: &mut Vec<Option<Listed<RangeSymbol>>>,
    names: &Names,
    out: &mut Vec<u8>,
) -> Result<u32, NoMemory>
    requires step { IsReadyStep step }
    requires ready { AllByRecursion IsReadyHold holds.old.items }
    requires room { size_of (map_shard table.old).container < table.old.room }
    requires few { asked < 4000 }
    ensures takes { IfOk result (λ n. Takes names.now
        (desk_of table.old holds.old.items asked) step out.old.items out.new.items
        (desk_of table.new holds.new.items n)) }
    ensures few { IfOk result (λ n. n ≤ asked + 1) }
    ensures ready { OnOk result (AllByRecursion IsReadyHold holds.new.items) }
    ensures room { table.new.room ≡ table.old.room }
    ensures size { size_of (map_shard table.new).container
        ≤ size_of (map_shard table.old).container + 1 }
{
    match step {
        Step::Hold(symbols) => {
            holds.push(Some(symbols))?;
            Ok(asked)
        }
        Step::Free(n) => {
            close(holds, n);
            Ok(asked)
        }
        Step::Do(op) => {
            ask(op, asked, table, holds.as_slice(), names, out)?;
            Ok(asked + 1)
        }
    }
}
