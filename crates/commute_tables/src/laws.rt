//! Laws of the relation: each is the contract of a function with an empty body.

ghost use Rattle.std.specs.Prelude.{◌≡◌, ◌≢◌, ◌⊎◌, List, true};
ghost use Rattle.std.specs.Bool.{Decides};
ghost use Rattle.session_values.specs.Commuting.{Commute};
ghost use Rattle.session_values.specs.Tables.{Fits};
ghost use Rattle.session_values.specs.Op.{IsHeld};
ghost use Rattle.session_values.specs.Kinds.{home, is_keyed};
ghost use Rattle.commute_tables.specs.Pairs.{AreOnOneKey, is_commuting_pair};
ghost use Rattle.commute_tables.specs.Relation.{commutes, commutes_symbol, commutes_symbols};
ghost use Rattle.symbolic_ops.specs.Commuting.{CommutesWith, SymbolsCommute};
ghost use Rattle.commute_tables.specs.ToldApart.{CommuteAt};
ghost use Rattle.symbolic_ops.specs.Matching.{HasNoVar};
ghost use Rattle.symbolic_ops.specs.Symbol.{IsHeldSymbol};

use session_values::{Op, TableKind};
use symbolic_ops::Symbol;

/// Either operation may be named first.
pub fn symmetry()
    ensures { (a b : Op) → Commute a b → Commute b a }
{}

/// To commute at all tables that both fit, with values that a program can hold, is to commute.
pub fn commuting_where_fit()
    ensures { (shape : List TableKind) (a b : Op) → IsHeld a → IsHeld b → Fits shape a
        → Fits shape b → CommuteAt shape a b → Commute a b }
{}

/// The written rule says exactly which operations commute that a program can hold, with which
/// symbols one does, and which symbols do.
pub fn rule_is_exact()
    ensures operations { (a b : Op) → IsHeld a → IsHeld b → Decides (commutes a b) (Commute a b) }
    ensures symbols { (a : Op) (s : Symbol) → HasNoVar s → IsHeld a → IsHeldSymbol s
        → Decides (commutes_symbol a s) (CommutesWith a s) }
    ensures two_symbols { (s t : Symbol) → HasNoVar s → HasNoVar t → IsHeldSymbol s
        → IsHeldSymbol t → Decides (commutes_symbols s t) (SymbolsCommute s t) }
{}

/// On one container, with one key where both have a key, exactly the listed pairs commute. On
/// different containers and with different keys all do.
pub fn commuting_pairs()
    ensures one_key { (a b : Op) → IsHeld a → IsHeld b → AreOnOneKey a b
        → Decides (is_commuting_pair a b) (Commute a b) }
    ensures other_container { (a b : Op) → IsHeld a → IsHeld b
        → (a.table ≢ b.table) ⊎ (home a.kind ≢ home b.kind) → Commute a b }
    ensures other_key { (a b : Op) → IsHeld a → IsHeld b → is_keyed a.kind ≡ true
        → is_keyed b.kind ≡ true → a.key ≢ b.key → Commute a b }
{}
