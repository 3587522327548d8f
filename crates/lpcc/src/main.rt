//! `lpcc`, an exact global solver for linear programs with complementarity constraints.
#![tactic(auto)]

use lp_io::{StdSink, StdSource};
use lpcc_run::run_called;
use std::io;
use std::process::ExitCode;
use worker::NoGate;

/// The words that the program was called with, its name first.
fn called_words(rt: &HostRuntime) -> io::Result<Vec<String>> {
    let words: Vec<String> = std::env::args(rt)?.collect(rt.alloc())?;
    Ok(words)
}

fn main(rt: HostRuntime) -> ExitCode {
    let mut source = StdSource::over(rt.reader());
    let mut sink = StdSink::over(io::writer(&rt));
    let status = run_called(
        &rt,
        rt.alloc(),
        called_words(&rt),
        &NoGate,
        &mut source,
        &mut sink,
    );
    ExitCode::from(status)
}
