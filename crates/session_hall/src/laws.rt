//! Laws of a hall's table: each is the contract of a function with an empty body.

ghost use Rattle.std.specs.Prelude.{◌≡◌, ℕ};
ghost use Rattle.session_values.specs.declared.op.Op.{Op};
ghost use Rattle.session_values.specs.declared.value.Value.{Value};
ghost use Rattle.turn_board.specs.States.{IsFree};
ghost use Rattle.session_hall.specs.declared.stage.Stage.TheVariants.{Applied};
ghost use Rattle.session_hall.specs.Callers.{IsCallerOf};
ghost use Rattle.session_hall.specs.Names.{script_of};
ghost use Rattle.session_hall.specs.States.{HallState, HasReply, IsInSlot, IsStateOf};

use crate::caller::Caller;
use crate::hall::Hall;
use hall_rule::{HallRule, Held};
use session_journal::Tickets;
use turn_board::TieRule;

/// In every state of a hall's table in which no caller holds the book, so also between any two
/// atomic steps: it is in its slot with the hall's own script, and its finished operations,
/// regrouped by ticket, replay from the script's opening tables with the same replies. Of each begun
/// ticket they are the first ones of its serial run, and an ended one has its serial reply. Any of
/// the hall's callers shows which script the hall serves.
pub fn whenever_free<S: Tickets + Drop>(hall: &Hall<S>, caller: &Caller<S>)
    requires { IsCallerOf S.meaning hall.now caller.now }
    ensures { (s : HallState S) (k : IsStateOf ⟦<HallRule<S> as TieRule<Held<S>>>⟧.content
        ⟦<HallRule<S> as TieRule<Held<S>>>⟧.holds hall.now caller.now s) → IsFree s 0
        → IsInSlot S.meaning (script_of hall.now) k.rule.contents k.rule.notes s.homes }
{}

/// In every state of a hall's table until a caller enters the operation that it has done on its
/// shards: the reply that it found is the reply after the journal of the book, wherever that is.
pub fn until_entered<S: Tickets + Drop>(hall: &Hall<S>, caller: &Caller<S>)
    requires { IsCallerOf S.meaning hall.now caller.now }
    ensures { (s : HallState S) (k : IsStateOf ⟦<HallRule<S> as TieRule<Held<S>>>⟧.content
        ⟦<HallRule<S> as TieRule<Held<S>>>⟧.holds hall.now caller.now s)
        (t : ℕ) (op : Op) (v : Value) → caller.now.stage ≡ Applied t op v
        → HasReply (S.meaning (script_of hall.now)) (script_of hall.now) k.rule.contents op v }
{}
