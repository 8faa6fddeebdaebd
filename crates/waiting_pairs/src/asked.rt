// The operations of handlers.

ghost use Rattle.std.specs.Prelude.{◌≡◌, ◌≤◌, ◌<◌, ◌++◌, IfOk, OnOk, length};
ghost use Rattle.check_meaning.specs.Code.{Finish, block_code, stmt_code};
ghost use Rattle.serve_reading.specs.Resolved.{code_at};
ghost use Rattle.serve_reading.specs.Steps as steps;
ghost use Rattle.waiting_pairs.specs.Waits.{all_asked, operations};

use check_meaning::{CheckedAtom, CheckedCall, CheckedStmt};
use serve_reading::Program;
use session_values::{NoMemory, Value};
use std::alloc::Global;
use symbolic_ops::{Arg, Symbol};

/// An operation of a handler's text.
#[derive(Clone, Copy, Debug)]
pub struct Asked {
    /// The handler's number, from 0 in the order of the file.
    pub handler: u32,
    /// The byte place of the operation.
    pub at: u32,
    /// The operation, whose arguments are literals and variables of its handler.
    pub op: Symbol,
}

/// An argument that the operation has, or the literal nil.
fn argument(has: bool, atom: CheckedAtom) -> Arg
    ensures { result ≡ steps.argument has atom }
{
    match atom {
        _ if !has => Arg::Known(Value::Nil),
        CheckedAtom::Lit(v) => Arg::Known(v),
        CheckedAtom::Var(x) => Arg::Var(x),
    }
}

/// The symbol of an operation, as it stands in the text.
fn symbol_of(call: &CheckedCall) -> Symbol
    ensures { result ≡ steps.symbol_of call.now }
{
    let arguments = call.kind.arguments();
    Symbol::new(
        call.kind,
        call.table,
        argument(0 < arguments, call.key),
        argument(1 < arguments, call.value),
    )
}

/// The operations of a block join `out`, in the order of the text.
#[cycle(asking)]
fn add_block(handler: u32, block: &[CheckedStmt], out: &mut Vec<Asked>) -> Result<(), NoMemory>
    ensures { OnOk result (out.new.items
        ≡ out.old.items ++ operations handler (block_code block.now)) }
{
    for stmt in block {
        add_stmt(handler, stmt, out)?;
    }
    Ok(())
}

#[cycle(asking)]
fn add_stmt(handler: u32, stmt: &CheckedStmt, out: &mut Vec<Asked>) -> Result<(), NoMemory>
    ensures { OnOk result (out.new.items
        ≡ out.old.items ++ operations handler (stmt_code stmt.now Finish)) }
{
    match stmt {
        CheckedStmt::Store { .. } => Ok(()),
        CheckedStmt::Perform { at, call, .. } => {
            let op = symbol_of(call);
            out.push(Asked {
                handler,
                at: *at,
                op,
            })?;
            Ok(())
        }
        CheckedStmt::Choose { yes, no, .. } => {
            add_block(handler, yes.as_slice(), out)?;
            add_block(handler, no.as_slice(), out)
        }
        CheckedStmt::Repeat { body, .. } => add_block(handler, body.as_slice(), out),
        CheckedStmt::Answer { .. } => Ok(()),
    }
}

/// The operations of a program join `out`: those of its handlers, in the order of the text.
fn add_handler(program: &Program, h: u32, out: &mut Vec<Asked>) -> Result<(), NoMemory>
    requires { h < length program.now.file.handlers }
    ensures { OnOk result (out.new.items
        ≡ out.old.items ++ operations h (code_at program.now.file h)) }
{
    add_block(h, program.checked().handler(h).body.as_slice(), out)
}

/// The operations of a program's handlers, in the order of the text.
pub(crate) fn asked_of(alloc: Global, program: &Program) -> Result<Vec<Asked>, NoMemory>
    ensures { IfOk result (λ asked. asked.items ≡ all_asked program.now.file) }
{
    let mut out = Vec::new(alloc);
    for h in 0..program.checked().handlers() {
        add_handler(program, h, &mut out)?;
    }
    Ok(out)
}
