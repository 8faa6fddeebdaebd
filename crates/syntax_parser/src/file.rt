// Whole files, and the call that reads them.

ghost use Rattle.std.specs.Prelude.{◌≡◌, ◌≢◌, ◌≤◌, ◌<◌, ◌+◌, ◌^◌, [], length, None, Some, IfOk, OnOk, IfErr};
ghost use Rattle.session_values.specs.Limits.{max_input};
ghost use Rattle.syntax_grammar.specs.FirstFault.{IsFile};
ghost use Rattle.syntax_grammar.specs.Next.{Inside, fault, whole_file};
ghost use Rattle.syntax_grammar.specs.Phrase as spec;
ghost use Rattle.syntax_grammar.specs.Tree as tree;
ghost use Rattle.syntax_grammar.specs.Parsed.{Parsed};
ghost use Rattle.syntax_parser.specs.Reads.{HasNoEnd, NamesStay, Reads};
ghost use Rattle.syntax_grammar.specs.declared.refusals.SyntaxRefusal.TheVariants as syntax_refusal;
ghost use Rattle.syntax_trees.specs.declared.file.File.{File};

use crate::input::Input;
use crate::parse_handler::handlers;
use crate::parse_table::tables;
use session_values::Names;
use std::alloc::Global;
use syntax_grammar::{Reader, Sort, SyntaxRefusal, refusal};
use syntax_trees::File;

fn file(alloc: Global, input: &mut Input<'_>) -> Result<File, SyntaxRefusal>
    requires { length input.old.reader.words < 2 ^ 32 }
    ensures { Reads spec.file_words tree.file_tree (Inside 0) whole_file [] input.old result
        input.new }
{
    let tables = tables(alloc, input)?;
    let handlers = handlers(alloc, input)?;
    Ok(File { tables, handlers })
}

/// A file, with nothing behind it.
fn whole(alloc: Global, input: &mut Input<'_>) -> Result<File, SyntaxRefusal>
    requires few { length input.old.reader.words < 2 ^ 32 }
    requires no_end { HasNoEnd input.old.reader.words }
    requires signs { input.old.signs ≡ 0 }
    ensures ok { IfOk result (λ file. IsFile input.old.reader.words file) }
    ensures within { OnOk result (fault input.old.reader.end whole_file 0
        input.old.reader.words ≡ None) }
    ensures exact { IfErr result (λ e. e ≢ syntax_refusal.NoMemory
        → fault input.old.reader.end whole_file 0 input.old.reader.words ≡ Some e) }
    ensures finished { OnOk result (input.new.reader.words ≡ []) }
    ensures kept { NamesStay input.old.reader input.new.reader }
{
    let file = file(alloc, input)?;
    let word = input.peek()?;
    match word.sort {
        Sort::End => Ok(file),
        _ => Err(refusal(word)),
    }
}

/// The file that a source is. `names` then has the names and symbols of the source too; after a
/// refusal, perhaps some of them.
pub fn parse(alloc: Global, source: &str, names: &mut Names) -> Result<File, SyntaxRefusal>
    requires short { length source.now ≤ max_input }
    requires room { length names.old ≤ 4000000000 }
    ensures { Parsed names.old source.now result names.new }
{
    let mut input = Input {
        reader: Reader::over(source, names),
        signs: 0,
    };
    let found = whole(alloc, &mut input);
    let Input { reader, signs: _ } = input;
    let _names = reader.into_names();
    found
}
