//! The program: from its words, standard input and output to the top call, whose number it ends
//! with.
#![tactic(auto)]

use serve_core::exit_number;
use standard_streams::{Input, Output, words};
use std::process::ExitCode;
use worker_gate::OpenGate;

fn main(rt: HostRuntime) -> ExitCode {
    ExitCode::from(exit_number(
        &rt,
        rt.alloc(),
        words(&rt),
        &mut Input::over(rt.stdin()),
        &mut Output::over(rt.stdout()),
        &mut Output::over(rt.stderr()),
        &OpenGate,
    ))
}
