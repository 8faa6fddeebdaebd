// What all rounds have in common.

ghost use Rattle.std.specs.Prelude.{◌≡◌, ◌≤◌, length};
ghost use Rattle.session_values.specs.Limits.{max_tables};
ghost use Rattle.handler_check.specs.Resolved.{shape_of};

use crate::workload::Workload;
use session_hall::Sizes;
use session_values::TableKind;

/// What is served, the kinds of its tables, and how many callers serve it over how many shards.
#[derive(Drop)]
pub(crate) struct Plan<'a> {
    pub(crate) work: &'a Workload<'a>,
    pub(crate) shape: &'a [TableKind],
    pub(crate) sizes: Sizes,
    ghost shape_is: { shape.now ≡ shape_of work.now.program.now.file },
    ghost few: { length shape.now ≤ max_tables },
}
