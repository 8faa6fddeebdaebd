//! From a refusal of `foresight` to the place in the file: the file's name is the one word, and in
//! place of the first line of the standard input that is a refusal's the place with a sentence is
//! written. All other lines are handed on as they are. Behind `--json` the place and the sentence
//! are written as JSON, without the other lines.
#![tactic(auto)]

mod asking;
mod choosing;
mod ending;
mod reading;
mod showing;
#[cfg(test)]
mod tests;
mod top;

use ending::Ending;
use standard_streams::{FileInput, Input, Output, words};
use std::process::ExitCode;
use top::{run, tell};

fn main(rt: HostRuntime) -> ExitCode {
    let mut source = Input::over(rt.stdin());
    let mut files = FileInput::over(&rt);
    let mut out = Output::over(rt.stdout());
    let mut err = Output::over(rt.stderr());
    let ending = match words(&rt) {
        Ok(words) => run(
            rt.alloc(),
            words.as_slice(),
            &mut source,
            &mut files,
            &mut out,
            &mut err,
        ),
        Err(_) => {
            tell(Ending::NoMemory, &mut err);
            Ending::NoMemory
        }
    };
    ExitCode::from(ending.number())
}
