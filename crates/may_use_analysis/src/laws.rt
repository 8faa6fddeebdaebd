//! Laws on the lists of points.

ghost use Rattle.std.specs.Prelude.{◌≡◌, ◌↔◌, ℕ, List};
ghost use Rattle.session_values.specs.declared.kind.TableKind.{TableKind};
ghost use Rattle.symbolic_ops.specs.declared.symbol.Symbol.{Symbol};
ghost use Rattle.handler_check.specs.File.{File};
ghost use Rattle.check_meaning.specs.Code.{Code};
ghost use Rattle.check_meaning.specs.Within.{CodeWithin};
ghost use Rattle.handler_check.specs.Checked.{IsKept};
ghost use Rattle.may_use_analysis.specs.declared.refusal.AnalysisRefusal.{AnalysisRefusal};
ghost use Rattle.may_use_analysis.specs.Later.{AreLater, HasAnswer, IsLaterList, IsTooMany};
ghost use Rattle.may_use_analysis.specs.Own.{AreOfHandlers, SpeaksOf};
ghost use Rattle.may_use_analysis.specs.Steps.{Step};
ghost use Rattle.may_use_analysis.specs.Trails.{LaterAt, Shows, ShowsSomewhere};

/// A file has at most one answer: its lists, or one refusal.
pub fn one_answer()
    ensures lists { (f : File) (a b : List (List (List Symbol)))
        → AreLater f a → AreLater f b → a ≡ b }
    ensures refusal { (f : File) (d e : AnalysisRefusal) → IsTooMany f d → IsTooMany f e → d ≡ e }
    ensures apart { (f : File) (all : List (List (List Symbol))) (e : AnalysisRefusal)
        → AreLater f all → IsTooMany f e → ⊥ }
{}

/// A file has an answer: lists of at most 256 symbols for all its points, or a first point that has
/// more, with their number.
pub fn some_answer()
    ensures { (f : File) → HasAnswer f }
{}

/// A symbol that may still come mentions variables of its code alone, and a table that there is,
/// of its operation's kind. In a file that is accepted and keeps its bounds these are the variables
/// of its handler and the tables of the file.
pub fn symbols_are_of_their_handlers()
    ensures code { (shape : List TableKind) (variables : ℕ) (code : Code)
        → CodeWithin shape variables code → (p : ℕ) (s : Symbol) → LaterAt code p s
        → SpeaksOf shape variables s }
    ensures lists { (f : File) (all : List (List (List Symbol)))
        → IsKept f → AreLater f all → AreOfHandlers f all }
{}

/// The symbols of all trails from a point are finitely many: there is a list of them.
pub fn each_point_has_its_list()
    ensures { (code : Code) (p : ℕ) → (list : List Symbol) × IsLaterList code p list }
{}

/// What a trail shows are the symbols of its operations, each with its arguments carried back over
/// the steps before it, the last step first.
pub fn symbols_of_trails()
    ensures { (t : List Step) (s : Symbol) → Shows t s ↔ ShowsSomewhere t s }
{}
