//! Laws of symbols: the orders, and what one list of symbols covers of another.

ghost use Rattle.std.specs.Prelude.{◌≡◌, List};
ghost use Rattle.std.specs.List.{AllByRecursion};
ghost use Rattle.std.specs.Cmp.{IsTotalOrder};
ghost use Rattle.std.specs.FinMap.{IsAntisymmetric};
ghost use Rattle.session_values.specs.Op.{IsHeld};
ghost use Rattle.symbolic_ops.specs.Order.{arg_cmp, symbol_cmp};
ghost use Rattle.symbolic_ops.specs.Matching.{Covered, HasNoVar, Matches, StandsFor, exact_symbol};

use crate::arg::Arg;
use crate::symbol::Symbol;
use session_values::Op;
use std::cmp::Ordering;

/// Arguments are ordered as is written: the known ones by value, variables by number, any.
#[tactic(auto, using(crate::specs::Order::arg_cmp_total, crate::specs::Order::arg_exact))]
pub fn order_of_args(a: Arg, b: Arg) -> Ordering
    ensures written { result ≡ arg_cmp a b }
    ensures total { IsTotalOrder arg_cmp }
    ensures exact { IsAntisymmetric arg_cmp }
{
    a.cmp(&b)
}

/// The order of symbols is total, and counts nothing but a symbol itself as equal to it.
#[tactic(auto, using(crate::proofs::Orders::symbol_cmp_total, crate::proofs::Orders::symbol_exact))]
pub fn order_of_symbols()
    ensures total { IsTotalOrder symbol_cmp }
    ensures exact { IsAntisymmetric symbol_cmp }
{}

/// A list without variables covers itself; what is covered by a covered list is covered; and a list
/// that covers another one has a symbol for each operation that the other one has one for.
#[tactic(auto, using(crate::proofs::Above::covered_itself, crate::proofs::Above::covered_through, crate::proofs::Above::covered_matches))]
pub fn covering()
    ensures itself { (f : List Symbol) → AllByRecursion HasNoVar f → Covered f f }
    ensures through { (f g h : List Symbol) → Covered f g → Covered g h → Covered f h }
    ensures matches { (g f : List Symbol) (op : Op) → Covered g f → Matches g op → Matches f op }
{}

/// The exact symbol of an operation stands for it, and for it alone.
#[tactic(auto, using(crate::proofs::Above::exact_stands, crate::proofs::Above::exact_alone))]
pub fn exactness()
    ensures stands { (op : Op) → IsHeld op → StandsFor (exact_symbol op) op }
    ensures alone { (op b : Op) → StandsFor (exact_symbol op) b → b ≡ op }
{}
