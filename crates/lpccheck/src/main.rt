//! `lpccheck`, which judges a certificate for a deck, and stands on nothing of the solver.
#![tactic(auto)]

mod run;
#[cfg(test)]
mod tests;

use lp_io::{StdSink, StdSource};
use run::run_called;
use std::io;
use std::process::ExitCode;

/// The words that the program was called with, its name first.
fn called_words(rt: &HostRuntime) -> io::Result<Vec<String>> {
    let words: Vec<String> = std::env::args(rt)?.collect(rt.alloc())?;
    Ok(words)
}

fn main(rt: HostRuntime) -> ExitCode {
    let mut source = StdSource::over(rt.reader());
    let mut sink = StdSink::over(io::writer(&rt));
    let called = called_words(&rt);
    let status = run_called(&rt, rt.alloc(), called, &mut source, &mut sink);
    ExitCode::from(status)
}
