// Reading.

ghost use Rattle.std.specs.Prelude.{◌≤◌, length};
ghost use Rattle.session_values.specs.Limits.{max_input};
ghost use Rattle.syntax_grammar.specs.Parsed.{Parsed};

use crate::file::File;
use session_values::Names;
use std::alloc::Global;
use syntax_parser::SyntaxRefusal;

/// The file that a source is. `names` then has the names and symbols of the source too; after a
/// refusal, perhaps some of them.
pub fn parse(alloc: Global, source: &str, names: &mut Names) -> Result<File, SyntaxRefusal>
    requires short { length source.now ≤ max_input }
    requires room { length names.old ≤ 4000000000 }
    ensures { Parsed names.old source.now result names.new }
{
    match syntax_parser::parse(alloc, source, names) {
        Ok(tree) => Ok(File { tree }),
        Err(e) => Err(e),
    }
}
