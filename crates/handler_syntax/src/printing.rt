// Printing.

ghost use Rattle.std.specs.Prelude.{IfOk, string_bytes};
ghost use Rattle.syntax_trees.specs.Mentions.{AreNamed, file_mentions};
ghost use Rattle.handler_syntax.specs.Keeps.{Printed};

use crate::file::File;
use session_values::{Names, NoMemory};
use std::alloc::Global;

/// The canonical text of a file, whose names and symbols are those of the list.
pub fn print(alloc: Global, file: &File, names: &Names) -> Result<String, NoMemory>
    requires { AreNamed names.now (file_mentions file.now) }
    ensures { IfOk result (λ text. Printed names.now file.now (string_bytes text)) }
{
    // That the texts of the list are different is what `len` says of it.
    let _count = names.len();
    match syntax_printer::print(alloc, 0, &file.tree, names) {
        Ok(text) => Ok(text),
        Err(e) => Err(e),
    }
}
