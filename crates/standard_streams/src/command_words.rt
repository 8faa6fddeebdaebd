// The words of the command line.

ghost use Rattle.std.specs.Prelude.{◌≡◌, drop, IfOk};
ghost use Rattle.std.specs.Vec.Iter.{into_iter_items};

use std::alloc::{AllocError, Global};
use std::env;
use std::env::Args;
use std::io::ErrorKind;

/// The words after the program's name; none where one of them isn't text.
pub fn text_words(rt: &HostRuntime) -> Result<Option<Vec<String>>, AllocError> {
    match env::args(rt) {
        Ok(args) => match behind_name(rt.alloc(), args) {
            Ok(words) => Ok(Some(words)),
            Err(e) => Err(e),
        },
        Err(e) if e.kind() == ErrorKind::OutOfMemory => Err(AllocError),
        Err(_) => Ok(None),
    }
}

/// The words after the program's name. Where one isn't text there are no words, which is no command
/// line either of a program that wants some.
pub fn words(rt: &HostRuntime) -> Result<Vec<String>, AllocError> {
    match text_words(rt) {
        Ok(Some(words)) => Ok(words),
        Ok(None) => Ok(Vec::new(rt.alloc())),
        Err(e) => Err(e),
    }
}

/// All arguments but the first, in order.
fn behind_name(alloc: Global, mut args: Args) -> Result<Vec<String>, AllocError>
    ensures { IfOk result (λ words. words.items ≡ drop 1 (into_iter_items args)) }
{
    args.next();
    args.collect(alloc)
}
