// A file that is printed and read again.

ghost use Rattle.std.specs.Prelude.{◌≡◌, ◌≢◌, ◌≤◌, ◌<◌, ◌↔◌, IfOk, IfErr, IfSome, MatchResult, length, None};
ghost use Rattle.session_values.specs.Limits.{max_input};
ghost use Rattle.session_values.specs.Names.{Begins};
ghost use Rattle.syntax_trees.specs.Mentions.{AreNamed, file_mentions};
ghost use Rattle.syntax_grammar.specs.Texts.{IsNamedFile};
ghost use Rattle.syntax_grammar.specs.Parsed.{HasFault};
ghost use Rattle.syntax_grammar.specs.declared.refusals.SyntaxRefusal.TheVariants as syntax_refusal;
ghost use Rattle.syntax_printer.specs.Canonical.{canonical_text};
ghost use Rattle.handler_syntax.specs.SameTree.{SameTree};

use crate::file::File;
use crate::printing::print;
use crate::reading::parse;
use session_values::{MAX_INPUT, Names};
use std::alloc::Global;
use syntax_parser::SyntaxRefusal;

/// Prints a file and reads the text again. There is none where the text is longer than a source
/// may be.
pub fn reprint(alloc: Global, file: &File, names: &mut Names) -> Result<Option<File>, SyntaxRefusal>
    requires named { AreNamed names.old (file_mentions file.now) }
    requires room { length names.old ≤ 4000000000 }
    // A file whose names and symbols have texts that the language can write is read as the same
    // tree, places aside, unless memory runs out.
    ensures same { IsNamedFile names.old file.now
        → MatchResult result (λ read. IfSome read (SameTree file.now))
        (λ e. e ≡ syntax_refusal.NoMemory) }
    // No new name comes of it.
    ensures names { IsNamedFile names.old file.now
        → IfOk result (λ read. names.new ≡ names.old) }
    ensures long { IfOk result (λ read. read ≡ None ↔ max_input < length
        (canonical_text names.old file.now)) }
    // Any other file is refused where its text is.
    ensures refused { IfErr result (λ e.
        e ≢ syntax_refusal.NoMemory
        → HasFault names.old (canonical_text names.old file.now) e) }
    ensures kept { Begins names.old names.new }
{
    let text = print(alloc, file, names)?;
    if text.len() > MAX_INPUT {
        return Ok(None);
    }
    let read = parse(alloc, text.as_str(), names)?;
    Ok(Some(read))
}
