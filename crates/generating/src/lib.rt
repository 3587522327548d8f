//! The command that makes a deck from a number, and solves it where that is asked.
#![tactic(auto)]

ghost use Rattle.engine.specs.Solved.{alone};
ghost use Rattle.generating.specs.Generating.{IsDrafted, IsGenerated, IsGeneratedAndSolved};

use command::{Status, give, give_no_memory};
use deck_gen::deck;
use lp_io::{MemSource, Sink};
use play::Options;
use report::Style;
use solving::run_solve;
use std::alloc::Global;

/// The bytes that one read of the deck gives at most.
const STEP: usize = 65_536;

/// Writes the deck of this seed with so many columns, rows and pairs. It reads nothing.
pub fn generate<K: Sink>(
    alloc: Global,
    seed: u64,
    columns: u32,
    rows: u32,
    pairs: u32,
    out: &mut K,
) -> Status
    requires { IsDrafted (record { seed = seed; columns = columns; rows = rows; pairs = pairs }) }
    ensures { IsGenerated (record { seed = seed; columns = columns; rows = rows; pairs = pairs })
        (K.taken out.old) (K.taken out.new) (K.faults out.old) (K.faults out.new) result }
{
    match deck(alloc, seed, columns, rows, pairs) {
        Ok(text) => give(text.as_slice(), 0, out),
        Err(_) => give_no_memory(out),
    }
}

/// Solves the deck of this seed with so many columns, rows and pairs, and writes the verdict without
/// its certificate, or why there is none. It reads nothing.
pub fn generate_and_solve<K: Sink>(
    alloc: Global,
    seed: u64,
    columns: u32,
    rows: u32,
    pairs: u32,
    options: &Options,
    out: &mut K,
) -> Status
    requires { IsDrafted (record { seed = seed; columns = columns; rows = rows; pairs = pairs }) }
    ensures { IsGeneratedAndSolved (alone options.now) (record { seed = seed; columns = columns; rows = rows; pairs = pairs })
        (K.taken out.old) (K.taken out.new) (K.faults out.old) (K.faults out.new) result }
{
    match deck(alloc, seed, columns, rows, pairs) {
        Ok(text) => {
            let mut source = MemSource::over(text, STEP, Vec::new(alloc));
            run_solve(alloc, options, Style::Brief, &mut source, out)
        }
        Err(_) => give_no_memory(out),
    }
}
