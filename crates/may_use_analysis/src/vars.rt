// The variables that symbols mention.

ghost use Rattle.std.specs.Prelude.{◌≡◌, ℕ, Contains};
ghost use Rattle.std.specs.Bool.{OnFalse};
ghost use Rattle.symbolic_ops.specs.declared.symbol.Symbol.{Symbol};
ghost use Rattle.may_use_analysis.specs.Vars.{AllCovered, Covers, IsArgMarked, IsMarked, IsUnmarked};

use symbolic_ops::{Arg, Symbol};

/// Variables, a bit for each; those from 64 on always count among them.
#[derive(Clone, Copy)]
pub(crate) struct Vars {
    bits: u64,
}

impl Vars {
    pub(crate) fn none() -> Vars {
        Vars { bits: 0 }
    }

    pub(crate) fn has(self, x: u32) -> bool
        ensures { OnFalse result (IsUnmarked self.bits x) }
    {
        x >= 64 || (self.bits >> x) & 1 == 1
    }

    fn with_arg(self, a: Arg) -> Vars
        ensures here { IsArgMarked result.bits a }
        ensures still { (x : ℕ) → IsMarked self.bits x → IsMarked result.bits x }
    {
        match a {
            Arg::Var(x) if x < 64 => Vars {
                bits: self.bits | (1u64 << x),
            },
            _ => self,
        }
    }

    /// These variables, and those that a symbol mentions.
    pub(crate) fn with_symbol(self, s: &Symbol) -> Vars
        ensures here { Covers result.bits s.now }
        ensures still { (x : ℕ) → IsMarked self.bits x → IsMarked result.bits x }
    {
        self.with_arg(s.key()).with_arg(s.value())
    }

    /// Those that some of these symbols mention.
    pub(crate) fn of(list: &[Symbol]) -> Vars
        ensures { AllCovered result.bits list.now }
    {
        let mut vars = Vars::none();
        for s in list {
            vars = vars.with_symbol(s);
        }
        vars
    }
}
