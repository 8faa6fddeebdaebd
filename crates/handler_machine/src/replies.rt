// The reply with which a handler ends.

ghost use Rattle.std.specs.Prelude.{◌≡◌, ◌<◌, ◌≤◌, [], length, map, slice_index_or};
ghost use Rattle.std.specs.List.{AllByRecursion};
ghost use Rattle.session_values.specs.declared.value.Value.{Value};
ghost use Rattle.session_values.specs.declared.value.Value.TheVariants.{Nil};
ghost use Rattle.session_values.specs.Reply as spec;
ghost use Rattle.check_meaning.specs.Code.{expr_term};
ghost use Rattle.check_meaning.specs.Dialogue as meaning;
ghost use Rattle.check_meaning.specs.Dialogue.{env_of};
ghost use Rattle.check_meaning.specs.Within.{TermWithin};

use crate::exprs::value_of;
use check_meaning::CheckedExpr;
use session_values::{Reply, Value};

/// The reply of a handler that falls off its end.
pub(crate) fn nil_reply() -> Reply
    ensures { result ≡ spec.reply_of [] }
{
    Reply::new(1, Value::Nil, Value::Nil, Value::Nil, Value::Nil)
}

/// The value of an expression of the list, or nil past its end.
#[inline(always)]
fn value_at(env: &[Value], values: &[CheckedExpr], i: usize) -> Value
    requires { AllByRecursion (TermWithin (length env.now)) (map expr_term values.now) }
    ensures { result ≡ slice_index_or (map (λ e. meaning.value_of e (env_of env.now))
        (map expr_term values.now)) i Nil }
{
    if i < values.len() {
        value_of(env, &values[i])
    } else {
        Value::Nil
    }
}

/// The reply of these expressions.
#[inline]
fn reply_of(env: &[Value], values: &[CheckedExpr]) -> Reply
    requires some { 0 < length values.now }
    requires few { length values.now ≤ 4 }
    requires within { AllByRecursion (TermWithin (length env.now)) (map expr_term values.now) }
    ensures { result ≡ spec.reply_of (map (λ e. meaning.value_of e (env_of env.now))
        (map expr_term values.now)) }
{
    let count = values.len() as u8;
    let a = value_at(env, values, 0);
    let b = value_at(env, values, 1);
    let c = value_at(env, values, 2);
    let d = value_at(env, values, 3);
    Reply::new(count, a, b, c, d)
}

/// Makes the reply that of these expressions. It is a function of its own so that the walk needs no
/// place for a reply, which would be made empty at each statement.
#[inline(never)]
pub(crate) fn put_reply(env: &[Value], values: &[CheckedExpr], reply: &mut Reply)
    requires some { 0 < length values.now }
    requires few { length values.now ≤ 4 }
    requires within { AllByRecursion (TermWithin (length env.now)) (map expr_term values.now) }
    ensures { reply.new ≡ spec.reply_of (map (λ e. meaning.value_of e (env_of env.now))
        (map expr_term values.now)) }
{
    *reply = reply_of(env, values);
}
