// Running a handler.

ghost use Rattle.std.specs.Prelude.{◌≡◌, ◌<◌, Some, length, map};
ghost use Rattle.std.specs.List.{AllByRecursion};
ghost use Rattle.session_values.specs.Dialogue.{Entry};
ghost use Rattle.session_values.specs.Values.{IsValue};
ghost use Rattle.session_values.specs.Serial.{serve};
ghost use Rattle.session_values.specs.Tables.{kind_of};
ghost use Rattle.handler_check.specs.Bounds.{calls_bound};
ghost use Rattle.handler_check.specs.Dialogue.{env_of, next};
ghost use Rattle.handler_check.specs.Resolved.{code_at, params_at, shape_of};
ghost use Rattle.live_session.specs.Held.{HaveRoomFor, factors_in, held};

use crate::tables::LiveTables;
use handler_check::Checked;
use handler_machine::run_handler;
use session_journal::Scratch;
use session_values::{Reply, Value};

/// Runs a handler on tables that have room for all keys that it may add.
pub(crate) fn run_alone(
    checked: &Checked,
    h: u32,
    args: &[Value],
    scratch: &mut Scratch,
    tables: &mut LiveTables,
) -> Reply
    requires handler { h < length checked.now.handlers }
    requires args { length args.now ≡ params_at checked.now h }
    requires shape { map kind_of (held tables.old.parts.items) ≡ shape_of checked.now }
    requires room { HaveRoomFor (code_at checked.now h) tables.old.parts.items }
    ensures answer { (serve (calls_bound (code_at checked.now h)) (next (code_at checked.now h)
        (env_of args.now)) (held tables.old.parts.items)).answer ≡ Some result }
    ensures after { held tables.new.parts.items ≡ (serve (calls_bound (code_at checked.now h))
        (next (code_at checked.now h) (env_of args.now)) (held tables.old.parts.items)).after }
    ensures values { AllByRecursion (λ (e : Entry). IsValue e.reply)
        (serve (calls_bound (code_at checked.now h)) (next (code_at checked.now h)
        (env_of args.now)) (held tables.old.parts.items)).entries }
    ensures shape { map kind_of (held tables.new.parts.items) ≡ shape_of checked.now }
    ensures factors { factors_in tables.new.parts.items ≡ factors_in tables.old.parts.items }
{
    match run_handler(checked, h, args, scratch, tables) {
        Ok(reply) => reply,
        Err(_) => unreachable!(),
    }
}
