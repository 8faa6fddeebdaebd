// The tables of a file.

ghost use Rattle.std.specs.Prelude.{◌≡◌, ◌≤◌, ◌<◌, ◌^◌, ◌∷◌, [], length, OnOk, Some};
ghost use Rattle.syntax_grammar.specs.Words.{first_word};
ghost use Rattle.syntax_grammar.specs.Next.{Anywhere, tables};
ghost use Rattle.syntax_grammar.specs.Phrase as spec;
ghost use Rattle.syntax_grammar.specs.Sorts as sorts;
ghost use Rattle.syntax_grammar.specs.Tree as tree;
ghost use Rattle.syntax_parser.specs.Reads.{Reads, ReadsOneMore};

use crate::input::Input;
use crate::list::list;
use crate::parse_words::{mark, name};
use session_values::TableKind;
use std::alloc::Global;
use syntax_grammar::{Sort, SyntaxRefusal, table_kind};
use syntax_trees::{TableDecl, TableDecls};

/// A table whose first word is in hand.
fn table(input: &mut Input<'_>, kind: TableKind) -> Result<TableDecl, SyntaxRefusal>
    requires { sorts.table_kind (first_word input.old.reader.end input.old.reader.words).sort
        ≡ Some kind }
    ensures { ReadsOneMore spec.table_words tree.table_tree Anywhere tables
        input.old result input.new }
{
    input.take()?;
    let (name, at) = name(input)?;
    mark(input, Sort::Semicolon)?;
    Ok(TableDecl { kind, name, at })
}

/// The tables of a file.
pub(crate) fn tables(alloc: Global, input: &mut Input<'_>) -> Result<TableDecls, SyntaxRefusal>
    requires { length input.old.reader.words < 2 ^ 32 }
    ensures { Reads spec.tables_words tree.tables_trees Anywhere (tables ∷ []) [] input.old
        result input.new }
{
    let mut items = Vec::new(alloc);
    'tables: loop {
        match table_kind(input.peek()?.sort) {
            Some(kind) => {
                let next = table(input, kind)?;
                items.push(next)?;
            }
            None => return Ok(list(items)),
        }
    }
}
