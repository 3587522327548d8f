//! A run with one worker.
ghost use Rattle.std.specs.Prelude.{◌≡◌, IfOk};
ghost use Rattle.engine.specs.Solved.{IsEnded, IsSolved, PiecesLast, PivotsLast, VerdictsAreShown, alone};

use crate::turn::turn;
use desk_part::RecordedPart;
use lpcc_case::Case;
use play::{Ending, Options, Workers};
use settling::Knowledge;
use std::alloc::{AllocError, Global};

/// Goes on until the desk is done, and closes it.
fn run(alloc: Global, case: &Case, options: &Options) -> Result<Ending, AllocError>
    requires one { options.now.workers ≡ 1 }
    ensures { IfOk result (IsEnded case.now options.now) }
{
    let mut desk = RecordedPart::create(alloc, case, options)?;
    let mut known = Knowledge::new(alloc, 0);
    'turns: loop {
        if !turn(alloc, case, options, &mut desk, &mut known)? {
            return desk.close(alloc);
        }
    }
}

/// Solves the case with one worker, whatever number of workers the options name. It always returns.
///
/// The ending is that of a record of the run: a verdict with its certificate and the number of
/// pieces drawn, or why there is none. `NoMemory` is free.
pub fn solve_alone(alloc: Global, case: &Case, options: &Options) -> Ending
    ensures ending { IsSolved case.now (alone options.now) result }
    ensures verdict { VerdictsAreShown case.now (alone options.now) result }
    ensures pieces { PiecesLast case.now options.now result }
    ensures pivots { PivotsLast case.now options.now result }
{
    let _pairs = case.pairs();
    let options = Options {
        workers: Workers::one(),
        ..*options
    };
    match run(alloc, case, &options) {
        Ok(ending) => ending,
        Err(_) => Ending::NoMemory,
    }
}
