// Handlers of a text, with their declarations.

ghost use Rattle.std.specs.Prelude.{◌≡◌, ◌≤◌, [], length, IfOk, IfErr, OnOk};
ghost use Rattle.session_values.specs.Limits.{max_input};
ghost use Rattle.handler_syntax.specs.Language.{names_of, file_mentions, AreNamed, IsNamedFile};
ghost use Rattle.serve_reading.specs.Programs.{IsProgramOf};
ghost use Rattle.serve_reading.specs.Reasons.{IsProgramReason};

use crate::load_error::LoadError;
use declaration_insertion::{Program, insert};
use handler_check::check;
use handler_syntax::parse;
use may_use_analysis::later_sets;
use session_values::Names;
use std::alloc::Global;

/// The handlers that a text is, where they break no rule, with their declarations.
pub fn read_program(alloc: Global, text: &str, names: &mut Names) -> Result<Program, LoadError>
    requires short { length text.now ≤ max_input }
    requires fresh { names.old ≡ [] }
    ensures program { IfOk result (IsProgramOf text.now) }
    ensures names { OnOk result (names.new ≡ names_of [] text.now) }
    ensures named { IfOk result (λ p. IsNamedFile names.new p.file) }
    ensures printable { IfOk result (λ p. AreNamed names.new (file_mentions p.file)) }
    ensures few { OnOk result (length names.new ≤ length text.now) }
    ensures refused { IfErr result (IsProgramReason text.now) }
{
    let file = parse(alloc, text, names)?;
    let checked = check(alloc, file.into_tree())?;
    let later = later_sets(alloc, &checked)?;
    Ok(insert(alloc, checked, later)?)
}
