// How many statements and blocks a file has.

ghost use Rattle.std.specs.Prelude.{◌≡◌, ◌↔◌, min, true};
ghost use Rattle.std.specs.List.{AllByRecursion};
ghost use Rattle.syntax_trees.proofs.Sizes.{block_size, stmt_size};
ghost use Rattle.syntax_printer.specs.Countable.{IsCountable, IsCountableHandler};

use syntax_trees::{File, Handler, Stmt};

/// The size of a statement; 4,294,967,295 where it is more.
#[cycle(measuring)]
fn size_of_stmt(s: &Stmt) -> u32
    ensures { result ≡ min (stmt_size s.now) 4294967295 }
{
    match s {
        Stmt::Choose { yes, no, .. } => {
            let first = size_of_block(yes.as_slice());
            let second = size_of_block(no.as_slice());
            first.saturating_add(second).saturating_add(3)
        }
        Stmt::Repeat { body, .. } => size_of_block(body.as_slice()).saturating_add(2),
        _ => 1,
    }
}

/// The size of a block; 4,294,967,295 where it is more.
#[cycle(measuring)]
fn size_of_block(block: &[Stmt]) -> u32
    ensures { result ≡ min (block_size block.now) 4294967295 }
{
    let mut size: u32 = 1;
    for s in block {
        let own = size_of_stmt(s);
        size = size.saturating_add(own);
    }
    size
}

/// Whether all handlers are countable.
fn are_countable(handlers: &[Handler]) -> bool
    ensures { (result ≡ true) ↔ AllByRecursion IsCountableHandler handlers.now }
{
    for handler in handlers {
        if size_of_block(handler.body.as_slice()) == u32::MAX {
            return false;
        }
    }
    true
}

/// Whether the text of a file can be put with counters of 32 bits. No source is long enough for a
/// file that is not.
pub fn is_countable(file: &File) -> bool
    ensures { (result ≡ true) ↔ IsCountable file.now }
{
    let _few = file.handlers.len();
    are_countable(file.handlers.as_slice())
}
