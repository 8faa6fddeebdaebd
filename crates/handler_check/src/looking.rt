// A look at the handlers of a file one by one, of which nothing is kept.

ghost use Rattle.std.specs.Prelude.{◌≡◌, ◌≢◌, [], IfOk, MatchResult};
ghost use Rattle.handler_check.specs.Excess as spec;
ghost use Rattle.handler_check.specs.Resolved.{table_names};
ghost use Rattle.handler_check.specs.declared.refusal.CheckRefusal.TheVariants as refusal;
ghost use Rattle.handler_check.specs.FirstFault.{IsFirstFault, KeepsRules};
ghost use Rattle.syntax_trees.specs.Rising.{PlacesRise};
ghost use Rattle.handler_check.specs.Scan.{Found, file_fault, scan_handlers};

use crate::CheckRefusal;
use crate::excess::bound_handler;
use crate::faults::find_in_tables;
use crate::resolution::resolve_next;
use crate::rule_laws::walk_finds_first;
use session_values::Listed;
use std::alloc::Global;
use syntax_trees::{File, Handler, TableDecl};

/// What a look at a file finds that breaks no rule on names, arguments or numbers.
#[derive(Drop)]
pub(crate) struct Looked {
    /// The names of its tables.
    pub(crate) tables: Listed<u32>,
    /// The first handler that may do too much.
    pub(crate) beyond: Option<CheckRefusal>,
}

/// The first fault among handlers; where there is none, the first of them that may do too much.
fn look_at_handlers(
    alloc: Global,
    declared: &[TableDecl],
    tables: &Listed<u32>,
    handlers: &[Handler],
) -> Result<Option<CheckRefusal>, CheckRefusal>
    ensures found { Found (scan_handlers declared.now [] handlers.now) result }
    ensures beyond { IfOk result (spec.IsExcessOf tables.now handlers.now) }
{
    let mut earlier = Vec::new(alloc);
    let mut beyond = None;
    for handler in handlers {
        let one = resolve_next(alloc, declared, tables, &mut earlier, handler)?;
        beyond = beyond.or(bound_handler(&one).err());
    }
    Ok(beyond)
}

fn look_at_file(alloc: Global, file: &File) -> Result<Looked, CheckRefusal>
    ensures found { Found (file_fault file.now) result }
    ensures tables { IfOk result (λ looked. looked.tables ≡ table_names file.now) }
    ensures beyond { IfOk result (λ looked. spec.IsExcessOf (table_names file.now) file.now.handlers
        looked.beyond) }
{
    let declared = file.tables.as_slice();
    let tables = find_in_tables(alloc, declared)?;
    let beyond = look_at_handlers(alloc, declared, &tables, file.handlers.as_slice())?;
    Ok(Looked { tables, beyond })
}

/// The first place where a file breaks a rule on names, arguments or numbers, if its places rise in
/// the order of the text; where there is none, what was found.
pub(crate) fn look(alloc: Global, file: &File) -> Result<Looked, CheckRefusal>
    ensures rules { PlacesRise file.now
        → MatchResult result (λ _. KeepsRules file.now) (λ e. e ≢ refusal.NoMemory
        → IsFirstFault file.now e) }
    ensures tables { IfOk result (λ looked. looked.tables ≡ table_names file.now) }
    ensures beyond { IfOk result (λ looked. spec.IsExcessOf (table_names file.now) file.now.handlers
        looked.beyond) }
{
    walk_finds_first();
    look_at_file(alloc, file)
}
