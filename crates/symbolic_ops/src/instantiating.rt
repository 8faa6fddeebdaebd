// Declarations with the values of their variables.

ghost use Rattle.std.specs.Prelude.{◌≡◌, ◌≤◌, length, map};
ghost use Rattle.std.specs.List.{AllByRecursion};
ghost use Rattle.symbolic_ops.specs.Instantiate.{ArgWithin, IsWithin, arg_in, symbol_in};
ghost use Rattle.symbolic_ops.specs.Matching.{HasNoVar};

use crate::arg::Arg;
use crate::foresight::Foresight;
use crate::symbol::Symbol;
use session_values::Value;

impl Symbol {
    /// Puts its value in place of a variable that is the key. Only what changes is written.
    #[inline(always)]
    fn put_key(&mut self, env: &[Value])
        requires { ArgWithin (length env.now) self.old.key }
        ensures { self.new ≡ record {
          kind = self.old.kind;
          table = self.old.table;
          key = arg_in env.now self.old.key;
          value = self.old.value;
        } }
    {
        self.bounds();
        if let Arg::Var(x) = self.key() {
            self.set_key(Arg::Known(env[x as usize]));
        }
    }

    /// Puts its value in place of a variable that is the value. Only what changes is written.
    #[inline(always)]
    fn put_value(&mut self, env: &[Value])
        requires { ArgWithin (length env.now) self.old.value }
        ensures { self.new ≡ record {
          kind = self.old.kind;
          table = self.old.table;
          key = self.old.key;
          value = arg_in env.now self.old.value;
        } }
    {
        self.bounds();
        if let Arg::Var(x) = self.value() {
            self.set_value(Arg::Known(env[x as usize]));
        }
    }

    /// The symbol with the values of its variables.
    pub(crate) fn with_values(&self, env: &[Value]) -> Symbol
        requires { IsWithin (length env.now) self.now }
        ensures value { result ≡ symbol_in env.now self.now }
        ensures known { HasNoVar result }
    {
        let mut s = *self;
        s.put_key(env);
        s.put_value(env);
        s
    }
}

/// Puts the values of their variables into the symbols.
pub(crate) fn put_values(symbols: &mut [Symbol], env: &[Value])
    requires vars { AllByRecursion (λ s. IsWithin (length env.now) s) symbols.old }
    ensures values { symbols.new ≡ map (symbol_in env.now) symbols.old }
    ensures known { AllByRecursion HasNoVar symbols.new }
{
    for i in 0..symbols.len() {
        symbols[i] = symbols[i].with_values(env);
    }
}

/// Replaces the content of `out` by a declaration whose variables have these values, by their
/// numbers. The order of the symbols stays.
pub fn instantiate(decl: &[Symbol], env: &[Value], out: &mut Foresight)
    requires vars { AllByRecursion (λ s. IsWithin (length env.now) s) decl.now }
    requires room { length decl.now ≤ out.old.room }
    ensures { out.new ≡ record { symbols = map (symbol_in env.now) decl.now; room = out.old.room } }
{
    out.copy_with_values(decl, env);
}
