// The values of a handler's variables, by their numbers.

ghost use Rattle.std.specs.Prelude.{◌≡◌, ◌<◌, ◌≤◌, ℕ, length, pos, slice_index_or};
ghost use Rattle.std.specs.List.{AllByRecursion};
ghost use Rattle.session_values.specs.declared.value.Value.{Value};
ghost use Rattle.session_values.specs.declared.value.Value.TheVariants.{Nil};
ghost use Rattle.session_values.specs.Values.{IsValue};
ghost use Rattle.check_meaning.specs.Dialogue.{env_of, with_reply, with_value};
ghost use Rattle.check_meaning.specs.Within.{VarWithin};

use session_values::Value;

/// Puts the arguments first, and leaves the others.
pub fn put_args(env: &mut [Value], args: &[Value])
    requires { length args.now ≤ length env.old }
    ensures values { (k : ℕ) → k < length args.now
        → slice_index_or env.new k Nil ≡ slice_index_or args.now k Nil }
    ensures kept { (k : ℕ) → length args.now ≤ k
        → slice_index_or env.new k Nil ≡ slice_index_or env.old k Nil }
    // A program holds them.
    ensures held { AllByRecursion IsValue args.now }
{
    for i in 0..args.len() {
        let value = args[i];
        value.bounds();
        env[i] = value;
    }
}

/// Makes the variables from a number on nil.
fn clear_from(env: &mut [Value], from: usize)
    requires { from ≤ length env.old }
    ensures kept { (k : ℕ) → k < from
        → slice_index_or env.new k Nil ≡ slice_index_or env.old k Nil }
    ensures nil { (k : ℕ) → from ≤ k → slice_index_or env.new k Nil ≡ Nil }
{
    for i in from..env.len() {
        env[i] = Value::Nil;
    }
}

/// Puts the arguments first, and nil behind them.
pub fn set_up(env: &mut [Value], args: &[Value])
    requires { length args.now ≤ length env.old }
    ensures values { env_of env.new ≡ env_of args.now }
    // A program holds them.
    ensures held { AllByRecursion IsValue args.now }
{
    put_args(env, args);
    clear_from(env, args.len());
}

/// Gives a variable its value.
#[inline]
pub(crate) fn put(env: &mut [Value], var: u32, value: Value)
    requires { var < length env.old }
    ensures { env_of env.new ≡ with_value (env_of env.old) var value }
{
    env[var as usize] = value;
}

/// Keeps a reply, where a variable is named for it.
#[inline]
pub(crate) fn keep(env: &mut [Value], var: Option<u32>, reply: Value)
    requires { VarWithin (length env.old) var }
    ensures { env_of env.new ≡ with_reply var reply (env_of env.old) }
{
    if let Some(var) = var {
        put(env, var, reply);
    }
}

/// The number of a turn as a value.
#[inline]
pub(crate) fn turn_number(turn: u32) -> Value
    ensures { result ≡ Value.Num (pos turn) }
{
    Value::Num(i64::from(turn))
}
