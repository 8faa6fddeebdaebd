// A law of the rule under a board.
ghost use Rattle.turn_board.specs.Changes.{ChangesTell};

use turn_steps::TieRule;

/// The counted contents between any two steps are those that the latest change of all seats left.
/// So a step after which each seat's last change is what it was has changed none of them.
pub fn changes_tell<V, R: TieRule<V>>()
    ensures { ChangesTell R.content R.holds }
{}
