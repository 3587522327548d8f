//! Searches by branching on decks of known answer.
ghost use Rattle.tree_engine.specs.Answers.{IsBranch};

use crate::cases::{BOUNDED_DECK, SHARED_DECK, case_in};
use cert_text::Cert;
use lpcc_case::Case;
use nogoods::{Choice, Side};
use std::alloc::Global;
use std::test::Fail;
use tree_certs::{direction_cert, tree_cert};
use tree_engine::{Branch, BranchOptions, Node, NodeEnd, branch};

/// A column with the cost -1, paired with one without a cost.
const FALLING_DECK: &str =
    "ROWS\n N cost\nCOLUMNS\n x cost -1\n y cost 0\nPAIRS\n p1 COL x COL y\nENDATA\n";

/// Two columns that are at least 1, and a pair of both.
const EMPTY_DECK: &str =
    "ROWS\n N cost\n G r\n G s\nCOLUMNS\n x r 1\n y s 1\nRHS\n rhs r 1 s 1\nPAIRS\n p1 COL x COL y\nENDATA\n";

/// The columns of `BOUNDED_DECK` without a pair.
const LOOSE_DECK: &str =
    "ROWS\n N cost\nCOLUMNS\n x cost -1\n y cost -2\nBOUNDS\n UP bnd x 3\n UP bnd y 2\nENDATA\n";

/// Two equations whose first exchange gives a number of 104 bits.
const WIDE_DECK: &str =
    "ROWS\n N cost\n E r\n E s\nCOLUMNS\n x cost 1 r 4503599627370495\n x s 1\n y r 1 s 4503599627370494\nRHS\n rhs r 1 s 1\nENDATA\n";

/// A sum of at least 2 whose first member is at most 1; the pair lets the other one alone reach it.
const EQUAL_DECK: &str =
    "ROWS\n N cost\n G r\nCOLUMNS\n x cost 1 r 1\n y cost 1 r 1\nRHS\n rhs r 2\nBOUNDS\n UP bnd x 1\nPAIRS\n p1 COL x COL y\nENDATA\n";

/// How a search ended, in a few words.
fn ending(alloc: Global, answer: &Branch) -> Result<String, Fail> {
    let text = match answer {
        Branch::Closed {
            best: Some(point),
            nodes,
            ..
        } => format!(in alloc; "{} / {} by {nodes} nodes", point.z, point.d)?,
        Branch::Closed {
            best: None,
            nodes,
            ..
        } => format!(in alloc; "infeasible by {nodes} nodes")?,
        Branch::Unbounded { nodes, .. } => format!(in alloc; "unbounded by {nodes} nodes")?,
        Branch::Overflow { at, run, .. } => {
            format!(in alloc;
                "wide behind {} pivots, {} nodes before",
                at.pivots,
                run.len()
            )?
        },
        Branch::PivotsSpent { at, run, .. } => {
            format!(in alloc; "{} pivots spent, {} nodes before", at.pivots, run.len())?
        },
        Branch::NodesSpent { nodes, left, .. } => {
            format!(in alloc;
                "{nodes} nodes spent, {} choices left",
                left.choices().len()
            )?
        },
    };
    Ok(text)
}

/// How many no-good lines the certificate of an answer has, where it has one.
fn line_count(
    alloc: Global,
    case: &Case,
    options: &BranchOptions,
    answer: &Branch,
) -> Result<Option<usize>, Fail>
    requires { IsBranch case.now options.now answer.now }
{
    let cert = match answer {
        Branch::Closed { best, tree, .. } => tree_cert(alloc, case, best.as_ref(), tree)?,
        Branch::Unbounded {
            piece,
            point,
            ray,
            ..
        } => direction_cert(alloc, case, piece, point, ray)?,
        _ => return Ok(None),
    };
    match &cert {
        Cert::Optimal { lines, .. } | Cert::Infeasible { lines } => Ok(Some(lines.len())),
        Cert::Unbounded { .. } => Ok(Some(0)),
    }
}

/// How a search of a deck ends, and how many lines its certificate has, where it has one.
fn outcome(
    alloc: Global,
    deck: &str,
    nodes: u64,
    pivots: u64,
) -> Result<(String, Option<usize>), Fail> {
    let case = case_in(alloc, deck)?;
    let options = BranchOptions { nodes, pivots };
    let answer = branch(alloc, &case, &options)?;
    let lines = line_count(alloc, &case, &options, &answer)?;
    Ok((ending(alloc, &answer)?, lines))
}

#[test]
fn verdicts(rt: HostRuntime) -> Result<(), Fail> {
    let alloc = rt.alloc();
    let (text, lines) = outcome(alloc, BOUNDED_DECK, 3, 1000)?;
    assert_eq!(rt; (text.as_str(), lines), ("-4 / 1 by 3 nodes", Some(3)));
    let (text, lines) = outcome(alloc, SHARED_DECK, 1, 1000)?;
    assert_eq!(rt; (text.as_str(), lines), ("0 / 1 by 1 nodes", Some(1)));
    let (text, lines) = outcome(alloc, EMPTY_DECK, 3, 1000)?;
    assert_eq!(rt; (text.as_str(), lines), ("infeasible by 3 nodes", Some(3)));
    let (text, lines) = outcome(alloc, EQUAL_DECK, 3, 1000)?;
    assert_eq!(rt; (text.as_str(), lines), ("2 / 1 by 3 nodes", Some(1)));
    let (text, lines) = outcome(alloc, FALLING_DECK, 3, 1000)?;
    assert_eq!(rt; (text.as_str(), lines), ("unbounded by 3 nodes", Some(0)));
    let (text, lines) = outcome(alloc, LOOSE_DECK, 1, 2)?;
    assert_eq!(rt; (text.as_str(), lines), ("-7 / 1 by 1 nodes", Some(1)));
    Ok(())
}

#[test]
fn other_endings(rt: HostRuntime) -> Result<(), Fail> {
    let alloc = rt.alloc();
    let (text, _) = outcome(alloc, BOUNDED_DECK, 2, 1000)?;
    assert_eq!(rt; text.as_str(), "2 nodes spent, 1 choices left");
    let (text, _) = outcome(alloc, LOOSE_DECK, 1, 1)?;
    assert_eq!(rt; text.as_str(), "1 pivots spent, 0 nodes before");
    let (text, _) = outcome(alloc, WIDE_DECK, 1, 1000)?;
    assert_eq!(rt; text.as_str(), "wide behind 0 pivots, 0 nodes before");
    Ok(())
}

/// Whether a node has these choices and was split.
fn is_split_at(node: &Node, path: &[Choice]) -> bool {
    node.path.choices() == path && matches!(node.end, NodeEnd::Split(_, _))
}

/// Whether a node has these choices and is a leaf.
fn is_leaf_at(node: &Node, path: &[Choice]) -> bool {
    node.path.choices() == path && matches!(node.end, NodeEnd::Leaf(_))
}

/// The root is solved first, then side A, and side B is left.
#[test]
fn a_run_that_is_broken_off(rt: HostRuntime) -> Result<(), Fail> {
    let alloc = rt.alloc();
    let case = case_in(alloc, BOUNDED_DECK)?;
    let options = BranchOptions {
        nodes: 2,
        pivots: 1000,
    };
    let answer = branch(alloc, &case, &options)?;
    let Branch::NodesSpent { left, run, .. } = &answer else {
        assert!(rt; false, "the nodes are spent");
        return Ok(());
    };
    let [root, first] = run.as_slice() else {
        assert!(rt; false, "two nodes were solved");
        return Ok(());
    };
    let a = Choice {
        pair: 0,
        side: Side::A,
    };
    let b = Choice {
        pair: 0,
        side: Side::B,
    };
    assert!(rt; is_split_at(root, &[]) && root.best.is_none());
    assert!(rt; is_leaf_at(first, &[a]) && first.best.is_some());
    assert_eq!(rt; left.choices(), [b].as_slice());
    Ok(())
}
