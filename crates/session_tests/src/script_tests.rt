//! What scripts of edits say: answers, refusals, and endings that are no verdicts.
use edit_solving::run_edits;
use lp_io::{MemSink, MemSource};
use play::{Options, ShrinkMode, Workers};
use std::alloc::Global;
use std::test::Fail;

/// Two columns of at most 3 and 2 with the costs -1 and -2, and a pair of both.
const BOUNDED: &str =
    "ROWS\n N cost\nCOLUMNS\n x cost -1\n y cost -2\nBOUNDS\n UP bnd x 3\n UP bnd y 2\nPAIRS\n p1 COL x COL y\nENDATA\n";

/// A pair of two columns that are both at least 1.
const BARRED: &str =
    "ROWS\n N cost\n G r1\n G r2\nCOLUMNS\n x r1 1\n y r2 1\nRHS\n rhs r1 1 r2 1\nPAIRS\n p1 COL x COL y\nENDATA\n";

/// A column with the cost -1 that is paired with itself, and a free one.
const FREE: &str =
    "ROWS\n N obj\nCOLUMNS\n x1 obj -1\n x2 obj 0\nBOUNDS\n FR bnd x2\nPAIRS\n p1 COL x1 COL x1\nENDATA\n";

/// Two pairs, of which the first is of one row alone.
const TWO_PAIRS: &str =
    "ROWS\n N obj\n G r1\n G r2\nCOLUMNS\n x1 r1 1 obj -1\n x2 obj -1\n x2 r2 2\nBOUNDS\n UP bnd x1 1\nPAIRS\n p1 ROW r2 ROW r2\n p2 ROW r1 COL x2\nENDATA\n";

/// An objective to be greatest, with a constant.
const GREATEST: &str =
    "OBJSENSE MAX\nROWS\n N cost\n G g\nCOLUMNS\n x cost 1 g 1\n y cost -1 g 1\nRHS\n rhs g 2\n rhs cost 4\nBOUNDS\n UP bnd x 9\n UP bnd y 5\nPAIRS\n p1 ROW g COL y\nENDATA\n";

fn options(pieces: u64) -> Options {
    Options {
        workers: Workers::one(),
        pieces,
        pivots: 1_000_000,
        shrink: ShrinkMode::Full,
    }
}

/// The status and what is written for a deck with a script behind it, where each answer may draw so
/// many pieces.
fn say(alloc: Global, pieces: u64, deck: &str, script: &str) -> Result<(u8, String), Fail> {
    let input = format!(in alloc; "{deck}{script}")?;
    let mut source = MemSource::over(input.as_bytes().to_vec(alloc)?, 4096, Vec::new(alloc));
    let mut sink = MemSink::create(alloc, 1000, 4096, Vec::new(alloc))?;
    let status = run_edits(alloc, &options(pieces), &mut source, &mut sink);
    let text = String::from_utf8(sink.bytes)
        .ok()
        .ok_or("the text is ASCII")?;
    Ok((status, text))
}

/// What is written for a script without a fault, each answer being a verdict.
#[test]
fn answers(rt: HostRuntime) -> Result<(), Fail> {
    let rows = [
        // An answer after each edit.
        (
            BOUNDED,
            "solve\nadd G -3 : 1 -1 2 -1\nsolve\ntighten 4 -1\nsolve\ncost : 1 -1 2 -5\nsolve\nend\n",
            "* optimal -4\n* drawn 2\n* optimal -4\n* drawn 1\n* optimal -3\n* drawn 2\n* optimal -5\n* drawn 2\n",
        ),
        // Each relation, a constraint and a cost without terms, and a right side for what was added.
        (
            BOUNDED,
            "solve\nadd L 1 : 2 1\nsolve\nadd E 3 : 1 2 2 2\nsolve\nadd G 0 :\ntighten 1 2\nsolve\ncost :\nsolve\ntighten 7 1\nsolve\nend\n",
            "* optimal -4\n* drawn 2\n* optimal -3\n* drawn 2\n* optimal -3/2\n* drawn 2\n* infeasible\n* drawn 1\n* infeasible\n* drawn 0\n* infeasible\n* drawn 0\n",
        ),
        // The present right side is no looser.
        (
            BOUNDED,
            "tighten 4 -1\ntighten 4 -1\nsolve\nend\n",
            "* optimal -3\n* drawn 2\n",
        ),
        // Kept ray cuts leave no piece to be drawn.
        (
            BARRED,
            "solve\ntighten 3 0\nsolve\ncost : 1 1\nsolve\nend\n",
            "* infeasible\n* drawn 2\n* infeasible\n* drawn 0\n* infeasible\n* drawn 0\n",
        ),
        // A cut outlasts the tightening of a constraint on which it has a negative multiplier, and
        // the value of a point cut is made anew.
        (
            FREE,
            "solve\ntighten 1 2\nsolve\nend\n",
            "* optimal 0\n* drawn 2\n* optimal -2\n* drawn 1\n",
        ),
        // A kept point cut becomes active behind a later settlement.
        (
            TWO_PAIRS,
            "solve\nsolve\nend\n",
            "* optimal -1\n* drawn 3\n* optimal -1\n* drawn 2\n",
        ),
        // A new cost is to be least, and has no constant.
        (
            GREATEST,
            "solve\ncost : 1 1 2 -1\nsolve\nend\n",
            "* optimal 5\n* drawn 2\n* optimal -2\n* drawn 2\n",
        ),
    ];
    for (deck, script, text) in rows {
        let found = say(rt.alloc(), 50_000, deck, script)?;
        assert_eq!(rt; (found.0, found.1.as_str()), (0, text), "{script}");
    }
    Ok(())
}

/// A refusal is said alone, and the least line counts.
#[test]
fn refusals(rt: HostRuntime) -> Result<(), Fail> {
    let rows = [
        // The deck is judged before its script, and the whole script before any edit.
        ("ROWS\n", "solv\n", "deck: line 2: UnknownSection\n"),
        (BOUNDED, "solve\nsolve\nsolv", "script: line 3: NotEnded\n"),
        (
            BOUNDED,
            "solve\ntighten 9 0\nsolve\nadd G 0 : 1 0\nend\n",
            "script: line 4: BadEdit\n",
        ),
        (
            BOUNDED,
            "tighten 4 -3\ntighten 4 -9223372036854775808\nend\n",
            "script: line 2: BadEdit\n",
        ),
        (BOUNDED, "tighten 9 0\nend\n ", "script: line 3: AfterEnd\n"),
        (BOUNDED, "solve\nbad\nend\nx", "script: line 2: BadEdit\n"),
        // Edits are refused in their order, behind answers too.
        (
            BOUNDED,
            "solve\nsolve\ntighten 9 0\nend\n",
            "script: line 3: NoSuch\n",
        ),
        (
            BOUNDED,
            "tighten 9 0\ntighten 4 -3\nend\n",
            "script: line 1: NoSuch\n",
        ),
        (
            BOUNDED,
            "tighten 4 -3\ntighten 9 0\nend\n",
            "script: line 1: Loosens\n",
        ),
        // Each edit is judged over the present case.
        (
            BOUNDED,
            "tighten 5 0\nadd G 0 : 1 1\nend\n",
            "script: line 1: NoSuch\n",
        ),
        (
            BOUNDED,
            "add G -9 : 1 1\ntighten 5 0\nadd E 0 : 1 1\ntighten 6 0\nend\n",
            "script: line 4: Loosens\n",
        ),
        (
            BOUNDED,
            "tighten 4 -1\ntighten 4 -2\nend\n",
            "script: line 2: Loosens\n",
        ),
        // NoSuch comes before the others, and Loosens before Limit.
        (
            BOUNDED,
            "tighten 4294967300 -4503599627370497\nend\n",
            "script: line 1: NoSuch\n",
        ),
        (
            BOUNDED,
            "add G 0 : 2 1 1 4503599627370497\nend\n",
            "script: line 1: NoSuch\n",
        ),
        (
            BOUNDED,
            "tighten 4 -4503599627370497\nend\n",
            "script: line 1: Loosens\n",
        ),
        (
            BOUNDED,
            "tighten 4 4503599627370496\ntighten 4 4503599627370497\nend\n",
            "script: line 2: Limit\n",
        ),
    ];
    for (deck, script, text) in rows {
        let found = say(rt.alloc(), 50_000, deck, script)?;
        assert_eq!(rt; (found.0, found.1.as_str()), (3, text), "{script}");
    }
    Ok(())
}

/// What was answered before an ending that is no verdict is written, and no line behind it is followed.
#[test]
fn the_last_ending(rt: HostRuntime) -> Result<(), Fail> {
    let script = "cost : 1 1 2 1\nsolve\ncost : 1 -1 2 -2\nsolve\nsolve\ntighten 9 0\nend\n";
    let found = say(rt.alloc(), 1, BOUNDED, script)?;
    assert_eq!(rt;
        (found.0, found.1.as_str()),
        (8, "* optimal 0\n* drawn 1\nbudget pieces 1 left 1b\n")
    );
    Ok(())
}
