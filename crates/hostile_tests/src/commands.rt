//! The commands that read a deck.
use lp_io::{MemSink, MemSource};
use play::{Options, ShrinkMode, Workers};
use relaxing::relax;
use report::Style;
use solving::run_solve;
use std::alloc::Global;
use std::test::Fail;
use verifier::verify;

/// A command that reads a deck.
#[derive(Clone, Copy, Debug)]
pub enum Command {
    Check,
    Relax,
    Solve,
}

pub const COMMANDS: [Command; 3] = [Command::Check, Command::Relax, Command::Solve];

const BUDGET: u64 = 1_000_000;

fn options() -> Options {
    Options {
        workers: Workers::one(),
        pieces: BUDGET,
        pivots: BUDGET,
        shrink: ShrinkMode::Full,
    }
}

/// The status and what the sink took.
pub fn run(
    alloc: Global,
    command: Command,
    mut source: MemSource,
    mut sink: MemSink,
) -> Result<(u8, String), Fail> {
    let status = match command {
        Command::Check => verify(alloc, &mut source, &mut sink),
        Command::Relax => relax(alloc, BUDGET, &mut source, &mut sink),
        Command::Solve => run_solve(alloc, &options(), Style::Two, &mut source, &mut sink),
    };
    let text = String::from_utf8(sink.bytes)
        .ok()
        .ok_or("the text is ASCII")?;
    Ok((status, text))
}

/// The same for an input that comes whole, and a sink that takes a whole text.
pub fn answer(alloc: Global, command: Command, input: &str) -> Result<(u8, String), Fail> {
    let source = MemSource::over(input.as_bytes().to_vec(alloc)?, 4096, Vec::new(alloc));
    let sink = MemSink::create(alloc, 1000, 4096, Vec::new(alloc))?;
    run(alloc, command, source, sink)
}
