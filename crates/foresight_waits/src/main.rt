//! Who waits for whom: reads a file of handlers, or a session file of which it looks at the
//! handlers alone, and writes which operations of which handlers wait for what other handlers may
//! still call: in columns, or behind `--json` as JSON. Behind `--trace` it reads a session file
//! that ends in a trace, and writes which ones waited in it, how often, and the longest chains.
#![tactic(auto)]

mod command;
mod ending;
mod showing;
mod top;

use standard_streams::{FileInput, Input, Output, text_words};
use std::process::ExitCode;
use top::exit_number;

fn main(rt: HostRuntime) -> ExitCode {
    ExitCode::from(exit_number(
        rt.alloc(),
        text_words(&rt),
        &mut Input::over(rt.stdin()),
        &mut FileInput::over(&rt),
        &mut Output::over(rt.stdout()),
        &mut Output::over(rt.stderr()),
    ))
}
