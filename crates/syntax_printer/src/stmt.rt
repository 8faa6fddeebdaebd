// Statements and blocks.

ghost use Rattle.std.specs.Prelude.{◌≡◌, ◌+◌, ◌<◌, length};
ghost use Rattle.std.specs.List.{flat_map};
ghost use Rattle.syntax_printer.specs.Lines.{block_points, else_line, line_text};
ghost use Rattle.syntax_printer.specs.Put.{choice_at, part_at, parts_of, put_block_text, put_branch_text, put_part_text, repeat_at};
ghost use Rattle.syntax_trees.specs.Mentions.{AreNamed, cond_mentions, stmt_mentions};
ghost use Rattle.syntax_trees.proofs.Sizes.{block_size, stmt_size};
ghost use Rattle.syntax_printer.specs.Countable.{FitsAt};
ghost use Rattle.byte_ends.specs.Texts.{Adds};

use crate::declarations::Declarations;
use crate::line::{
    put_assign, put_call_line, put_close, put_else, put_if, put_let, put_repeat_head, put_reply,
};
use crate::nested::{Choice, Repeat};
use crate::point::{put_point, put_right_point};
use crate::spot::Spot;
use byte_ends::TextSink;
use session_values::Names;
use syntax_trees::Stmt;

/// Appends the lines of a statement, and gives the number of the point behind its own.
#[cycle(statement)]
fn put_statement<D: Declarations, T: TextSink>(
    s: &Stmt,
    spot: Spot,
    at: &D,
    names: &Names,
    out: &mut T,
) -> u32
    requires named { AreNamed names.now (stmt_mentions s.now) }
    requires fits { FitsAt spot (stmt_size s.now) }
    ensures text { Adds T.IsDue
        (put_part_text (D.at_points at.now) spot
        (part_at names.now (D.at_points at.now) spot s.now))
        out.old out.new }
    ensures next { result ≡ spot.point
        + (part_at names.now (D.at_points at.now) spot s.now).points }
{
    match s {
        Stmt::Let { name, right, .. } => {
            put_let(*name, right, spot.depth, names, out);
            put_right_point(right, spot, at, names, out)
        }
        Stmt::Assign { name, right, .. } => {
            put_assign(*name, right, spot.depth, names, out);
            put_right_point(right, spot, at, names, out)
        }
        Stmt::Perform { call } => {
            put_call_line(call, spot.depth, names, out);
            put_point(spot, at, names, out)
        }
        Stmt::Choose { cond, yes, no, .. } => {
            let choice = Choice {
                cond: cond.get(),
                yes: yes.as_slice(),
                no: no.as_slice(),
            };
            put_choice(choice, spot, at, names, out)
        }
        Stmt::Repeat {
            turns,
            name,
            body,
            ..
        } => {
            let repeat = Repeat {
                turns: *turns,
                name: *name,
                body: body.as_slice(),
            };
            put_repeat(repeat, spot, at, names, out)
        }
        Stmt::Answer { values, .. } => {
            put_reply(values.as_slice(), spot.depth, names, out);
            spot.point
        }
    }
}

/// Appends the line between the blocks of an `if`. Where the second one is empty, it stands only
/// where points have lines.
fn put_middle<D: Declarations, T: TextSink>(
    no: &[Stmt],
    spot: Spot,
    at: &D,
    names: &Names,
    out: &mut T,
)
    ensures { Adds T.IsDue
        (line_text (D.at_points at.now).shown
        (else_line (parts_of names.now (D.at_points at.now) spot no.now) spot.depth))
        out.old out.new }
{
    if no.is_empty() && !at.is_shown() {
        return;
    }
    put_else(spot.depth, out)
}

/// Appends an `if`.
#[cycle(statement)]
fn put_choice<D: Declarations, T: TextSink>(
    choice: Choice<'_>,
    spot: Spot,
    at: &D,
    names: &Names,
    out: &mut T,
) -> u32
    requires cond { AreNamed names.now (cond_mentions choice.cond.now) }
    requires first { AreNamed names.now (flat_map stmt_mentions choice.yes.now) }
    requires second { AreNamed names.now (flat_map stmt_mentions choice.no.now) }
    requires fits { FitsAt spot (2 + (block_size choice.yes.now + block_size choice.no.now)) }
    ensures text { Adds T.IsDue
        (put_part_text (D.at_points at.now) spot
        (choice_at names.now (D.at_points at.now) spot choice.entry.cond.now
        choice.entry.yes.now choice.entry.no.now))
        out.old out.new }
    ensures next { result ≡ spot.point
        + (choice_at names.now (D.at_points at.now) spot choice.entry.cond.now
        choice.entry.yes.now choice.entry.no.now).points }
{
    put_if(choice.cond, spot.depth, names, out);
    let middle = put_branch(choice.yes, spot, at, names, out);
    put_middle(choice.no, spot, at, names, out);
    let next = put_branch(choice.no, spot.before(middle), at, names, out);
    put_close(spot.depth, out);
    next
}

/// Appends a `repeat`.
#[cycle(statement)]
fn put_repeat<D: Declarations, T: TextSink>(
    repeat: Repeat<'_>,
    spot: Spot,
    at: &D,
    names: &Names,
    out: &mut T,
) -> u32
    requires name { repeat.name < length names.now }
    requires body { AreNamed names.now (flat_map stmt_mentions repeat.body.now) }
    requires fits { FitsAt spot (1 + block_size repeat.body.now) }
    ensures text { Adds T.IsDue
        (put_part_text (D.at_points at.now) spot
        (repeat_at names.now (D.at_points at.now) spot repeat.entry.turns repeat.entry.name
        repeat.entry.body.now))
        out.old out.new }
    ensures next { result ≡ spot.point
        + (repeat_at names.now (D.at_points at.now) spot repeat.entry.turns repeat.entry.name
        repeat.entry.body.now).points }
{
    put_repeat_head(repeat.turns, repeat.name, spot.depth, names, out);
    let inner = spot.inside();
    let last = put_block(repeat.body, inner, at, names, out);
    put_close(spot.depth, out);
    put_point(spot.before(last), at, names, out)
}

/// Appends a block of a statement or a handler: what stands at its start, and its statements.
#[cycle(statement)]
pub(crate) fn put_branch<D: Declarations, T: TextSink>(
    block: &[Stmt],
    spot: Spot,
    at: &D,
    names: &Names,
    out: &mut T,
) -> u32
    requires named { AreNamed names.now (flat_map stmt_mentions block.now) }
    requires fits { FitsAt spot (1 + block_size block.now) }
    ensures text { Adds T.IsDue
        (put_branch_text names.now (D.at_points at.now) spot block.now)
        out.old out.new }
    ensures next { result ≡ spot.point
        + (1 + block_points (parts_of names.now (D.at_points at.now) spot block.now)) }
{
    let inner = spot.inside();
    let first = put_point(inner, at, names, out);
    put_block(block, inner.before(first), at, names, out)
}

/// Appends the statements of a block.
#[cycle(statement)]
fn put_block<D: Declarations, T: TextSink>(
    block: &[Stmt],
    spot: Spot,
    at: &D,
    names: &Names,
    out: &mut T,
) -> u32
    requires named { AreNamed names.now (flat_map stmt_mentions block.now) }
    requires fits { FitsAt spot (block_size block.now) }
    ensures text { Adds T.IsDue
        (put_block_text names.now (D.at_points at.now) spot block.now)
        out.old out.new }
    ensures next { result ≡ spot.point
        + block_points (parts_of names.now (D.at_points at.now) spot block.now) }
{
    let mut next = spot.point;
    for s in block {
        next = put_statement(s, spot.before(next), at, names, out);
    }
    next
}
