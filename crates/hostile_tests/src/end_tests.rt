//! Reads and writes that fail, one in each run.
use crate::commands::{COMMANDS, Command, answer, run};
use checker_tests::texts::{BOUNDED_DECK, OPTIMAL};
use lp_io::{MemSink, MemSource};
use std::alloc::Global;
use std::test::Fail;

/// An input that the command takes.
fn input_for(alloc: Global, command: Command) -> Result<String, Fail> {
    Ok(match command {
        Command::Check => format!(in alloc; "{BOUNDED_DECK}{OPTIMAL}")?,
        Command::Relax | Command::Solve => String::from_str(alloc, BOUNDED_DECK)?,
    })
}

/// A source whose reads give 16 bytes each, and of which one fails.
fn read_fails(alloc: Global, input: &str, read: u64) -> Result<MemSource, Fail> {
    let fails = vec![in alloc; read]?;
    Ok(MemSource::over(input.as_bytes().to_vec(alloc)?, 16, fails))
}

/// A sink whose writes take four bytes each, and of which one fails.
fn write_fails(alloc: Global, write: u64) -> Result<MemSink, Fail> {
    let fails = vec![in alloc; write]?;
    Ok(MemSink::create(alloc, 1000, 4, fails)?)
}

#[test]
fn every_failing_read(rt: HostRuntime) -> Result<(), Fail> {
    let alloc = rt.alloc();
    for command in COMMANDS {
        let input = input_for(alloc, command)?;
        // The last read finds the end.
        for read in 1..=input.len().div_ceil(16) as u64 + 1 {
            let source = read_fails(alloc, input.as_str(), read)?;
            let sink = MemSink::create(alloc, 1000, 4096, Vec::new(alloc))?;
            let (status, text) = run(alloc, command, source, sink)?;
            assert_eq!(rt; (status, text.as_str()), (4, "read fault\n"), "{read}");
        }
    }
    Ok(())
}

/// The writes before the one that fails are of the text that is written where none fails.
#[test]
fn every_failing_write(rt: HostRuntime) -> Result<(), Fail> {
    let alloc = rt.alloc();
    for command in COMMANDS {
        let input = input_for(alloc, command)?;
        let (_, whole) = answer(alloc, command, input.as_str())?;
        for (before, _) in whole.as_bytes().chunks(4).enumerate() {
            let source = MemSource::over(input.as_bytes().to_vec(alloc)?, 4096, Vec::new(alloc));
            let sink = write_fails(alloc, before as u64 + 1)?;
            let (status, text) = run(alloc, command, source, sink)?;
            assert!(rt;
                status == 5
                    && whole.starts_with(text.as_str())
                    && text.len() / 4 == before
                    && text.len() % 4 == 0,
                "{before}"
            );
        }
    }
    Ok(())
}
