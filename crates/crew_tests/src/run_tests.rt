//! Two workers that run at once, and more of them.
use crate::runs::{case_in, options_for};
use cert_text::Cert;
use crew::solve_with;
use nogoods::{Piece, Side};
use play::Ending;
use std::sync::atomic::Ordering::SeqCst;
use std::sync::atomic::{AtomicBool, AtomicU64};
use std::test::Fail;
use worker::{Gate, Mark, NoGate};

/// A column of at least 1, paired with the one that costs, and a pair of two that cost nothing.
const DECK: &str =
    "ROWS\n N cost\n G r\nCOLUMNS\n x r 1\n y cost 1\n z cost 0\n w cost 0\nRHS\n rhs r 1\nPAIRS\n p1 COL x COL y\n p2 COL z COL w\nENDATA\n";

const TURNS: u64 = 1_000_000_000;

/// Holds the worker that draws the piece `1a 2a` until another has published its cut of `1a 2b`.
#[derive(Drop)]
struct Holding {
    drawn: AtomicU64,
    published: AtomicBool,
    skipped: AtomicBool,
}

impl Holding {
    fn new() -> Holding {
        Holding {
            drawn: AtomicU64::new(0),
            published: AtomicBool::new(false),
            skipped: AtomicBool::new(false),
        }
    }

    fn wait(&self) {
        for _ in 0..TURNS {
            if self.published.load(SeqCst) {
                return;
            }
        }
    }
}

fn has_sides(piece: &Piece, first: Side, second: Side) -> bool {
    let [left, right] = piece.sides() else {
        return false;
    };
    *left == first && *right == second
}

impl Gate for Holding {
    fn pass(&self, _worker: u32, mark: Mark, piece: &Piece) {
        match mark {
            Mark::Drawn => {
                let _ = self.drawn.fetch_add(1, SeqCst);
                if has_sides(piece, Side::A, Side::A) {
                    self.wait();
                }
            }
            Mark::Published => {
                if has_sides(piece, Side::A, Side::B) {
                    self.published.store(true, SeqCst);
                }
            }
            Mark::Skipped => {
                if has_sides(piece, Side::A, Side::A) {
                    self.skipped.store(true, SeqCst);
                }
            }
            Mark::Settled => (),
        }
    }
}

/// The value and the number of draws of an optimal verdict.
fn optimum(ending: &Ending) -> Result<(i128, u64), Fail> {
    match ending {
        Ending::Verdict {
            cert: Cert::Optimal { z, .. },
            drawn,
        } => Ok((*z, *drawn)),
        _ => Err("there is an optimum")?,
    }
}

#[test]
fn a_held_worker_skips_its_piece(rt: HostRuntime) -> Result<(), Fail> {
    let alloc = rt.alloc();
    let case = case_in(alloc, DECK)?;
    let gate = Holding::new();
    let ending = solve_with(&rt, alloc, &case, &options_for(2)?, &gate);
    let (value, drawn) = optimum(&ending)?;
    assert_eq!(rt; value, 0);
    assert_eq!(rt; drawn, gate.drawn.load(SeqCst));
    assert!(rt; drawn >= 3);
    assert!(rt; gate.skipped.load(SeqCst));
    Ok(())
}

#[test]
fn many_workers_find_the_optimum(rt: HostRuntime) -> Result<(), Fail> {
    let alloc = rt.alloc();
    let case = case_in(alloc, DECK)?;
    for workers in 1..9 {
        let ending = solve_with(&rt, alloc, &case, &options_for(workers)?, &NoGate);
        assert_eq!(rt; optimum(&ending)?.0, 0);
    }
    Ok(())
}
