// A walk at a desk, which is told of each declaration that is passed.

ghost use Rattle.std.specs.Prelude.{◌≡◌, ℕ, ◌+◌, ◌<◌, ◌≤◌, [], true, IfOk, length, slice_index_or};
ghost use Rattle.std.specs.Bool.{OnTrue};
ghost use Rattle.session_values.specs.Limits.{max_variables};
ghost use Rattle.session_values.specs.declared.value.Value.TheVariants.{Nil};
ghost use Rattle.session_values.specs.Values.{IsValue};
ghost use Rattle.session_journal.specs.Served.{IsStopped};
ghost use Rattle.declaration_insertion.specs.Facts.{NamesEachOnce};
ghost use Rattle.declaration_insertion.specs.Program.{declared_at};
ghost use Rattle.handler_check.specs.Resolved.{code_at, variables_at};
ghost use Rattle.check_meaning.specs.Code.{points};
ghost use Rattle.handler_machine.specs.Serving.{HasListOf, IsAwaiting, IsServing, IsSettled, MayTell, once_told};
ghost use Rattle.handler_machine.specs.Serving.{course_of, list_with};

use crate::Guide;
use crate::telling::TellsLate;
use declaration_insertion::Program;
use session_journal::{Desk, Site};
use session_values::{NoMemory, Op, Value};
use std::sync::Wait;
use std::thread::Threads;

/// Whether nothing is declared at a point of a handler.
#[inline(always)]
fn declares_nothing(program: &Program, h: u32, point: u32) -> bool
    requires handler { h < length program.now.file.handlers }
    requires point { point < 1 + points (code_at program.now.file h) }
    ensures { result ≡ true → declared_at program.now h point ≡ [] }
{
    program.kinds(h, point) == 0
}

/// Whether as many kinds are declared at a point of a handler as at the one before, and some.
#[inline(always)]
fn are_as_many(program: &Program, h: u32, before: u32, point: u32) -> bool
    requires handler { h < length program.now.file.handlers }
    requires before { before < 1 + points (code_at program.now.file h) }
    requires point { point < 1 + points (code_at program.now.file h) }
{
    let kinds = program.kinds(h, point);
    kinds > 0 && program.kinds(h, before) == kinds
}

/// Whether the same is declared at two points of a handler, each kind on a table once. Then the
/// values of the variables tell nothing new: what is declared with those of later is covered by what
/// is declared with those of before, so it is that.
#[inline(always)]
fn is_as_told(program: &Program, h: u32, before: u32, point: u32) -> bool
    requires handler { h < length program.now.file.handlers }
    requires before { before < 1 + points (code_at program.now.file h) }
    requires point { point < 1 + points (code_at program.now.file h) }
    ensures { OnTrue result ((declared_at program.now h before ≡ declared_at program.now h point)
        × NamesEachOnce (declared_at program.now h point)) }
{
    program.alike(h, before) == program.alike(h, point) && program.names_each_once(h, point)
}

/// Keeps the values of so many variables.
#[inline(always)]
fn keep_values(values: &mut [Value], env: &[Value], variables: usize)
    requires room { variables ≤ length values.old }
    requires variables { variables ≤ length env.now }
    ensures { (x : ℕ) → x < variables
        → slice_index_or values.new x Nil ≡ slice_index_or env.now x Nil }
{
    values[..variables].copy_from_slice(&env[..variables]);
}

/// A reply that a desk gave, which is a value that a program can hold.
#[inline(always)]
fn held(reply: Result<Value, NoMemory>) -> Result<Value, NoMemory>
    ensures same { result ≡ reply }
    ensures held { IfOk result IsValue }
{
    match reply {
        Ok(value) => {
            value.bounds();
            Ok(value)
        }
        Err(wanted) => Err(wanted),
    }
}

/// Leads a walk over a handler of a program at a desk: at each point it narrows to the declaration
/// there. Behind an operation the desk is told of it at once. At a branch and behind a loop it isn't
/// told where the same is declared as before, each kind on a table once, since that is what it has.
/// Else it is told at once where the number of kinds that are named changes, since that may free
/// others, and otherwise right before the next operation or the end: the point is kept and the values
/// that its variables have there. So a handler that computes takes no turn. No list is made: a desk
/// is told the site.
#[derive(Drop)]
pub(crate) struct Narrowing<'a, R> {
    pub(crate) rt: &'a R,
    pub(crate) program: &'a Program,
    pub(crate) handler: u32,
    /// How many variables the handler has.
    pub(crate) variables: usize,
    /// The point of whose declaration the desk has been told, or has still to be told. At the points
    /// passed since then the same was declared, and came to the same.
    pub(crate) point: u32,
    /// The values of the variables at that point, where the desk has still to be told of it.
    pub(crate) values: &'a mut [Value],
    /// Nothing is declared any more. What is declared later is covered by that, so it is nothing
    /// too, and the desk needn't be told.
    pub(crate) settled: bool,
    /// The desk has still to be told of that point's declaration.
    pub(crate) late: bool,
    ghost exists: { handler < length program.now.file.handlers },
    ghost counted: { variables ≡ length (variables_at program.now.file handler) },
    ghost room: { length values.now ≡ max_variables },
    ghost within: { point < 1 + points (code_at program.now.file handler) },
}

impl<'a, R: Threads + Wait + Sync, D: Desk> Guide<D> for Narrowing<'a, R> {
    ghost variables = { max_variables };

    ghost Serves = { λ n whole start now ahead. (D.script now ≡ D.script start.1)
        × IsServing (course_of (D.Served.meaning (D.script start.1)) (D.at start.1)
        n.program.now n.handler whole) (once_told n.late (list_with (declared_at n.program.now
        n.handler) n.point n.values.now) (D.at now)) ahead
        × IsSettled n.settled (once_told n.late (list_with (declared_at n.program.now n.handler)
        n.point n.values.now) (D.at now))
        × MayTell (D.Served.meaning (D.script start.1)) n.late (list_with (declared_at n.program.now
        n.handler) n.point n.values.now) (D.at now)
        × (n.values.ghost_name ≡ start.0.values.ghost_name)
        × HasListOf (declared_at n.program.now n.handler n.point) (once_told n.late (list_with
        (declared_at n.program.now n.handler) n.point n.values.now) (D.at now)) };

    ghost Waits = { λ n whole start now ahead. (D.script now ≡ D.script start.1)
        × IsAwaiting (course_of (D.Served.meaning (D.script start.1)) (D.at start.1)
        n.program.now n.handler whole) (D.at now) ahead
        × (n.values.ghost_name ≡ start.0.values.ghost_name) };

    ghost Stops = { λ n whole start now. (D.script now ≡ D.script start.1)
        × IsStopped (D.Served.meaning (D.script start.1)) (D.at start.1) (D.at now)
        × (n.values.ghost_name ≡ start.0.values.ghost_name) };

    fn call(&mut self, host: &mut D, op: Op) -> Result<Value, NoMemory> {
        let site = Site {
            part: self.handler,
            point: self.point,
        };
        host.tell(self.rt, self.late, site, &self.values[..self.variables]);
        self.late = false;
        held(host.call(self.rt, op))
    }

    fn replied(&mut self, host: &mut D, point: u32, env: &[Value]) {
        let site = Site {
            part: self.handler,
            point,
        };
        host.finish_at(self.rt, site, &env[..self.variables]);
        self.late = false;
        self.point = point;
        self.settled = declares_nothing(self.program, self.handler, point);
    }

    fn passed(&mut self, host: &mut D, point: u32, env: &[Value]) {
        if self.settled {
            return;
        }
        if is_as_told(self.program, self.handler, self.point, point) {
            return;
        }
        let before = self.point;
        self.point = point;
        if are_as_many(self.program, self.handler, before, point) {
            keep_values(self.values, env, self.variables);
            self.late = true;
            return;
        }
        let site = Site {
            part: self.handler,
            point,
        };
        self.settled = declares_nothing(self.program, self.handler, point);
        host.declare_at(self.rt, site, &env[..self.variables]);
        self.late = false;
    }
}
