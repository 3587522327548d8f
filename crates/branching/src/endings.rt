//! What is written of an answer.
ghost use Rattle.std.specs.Prelude.{◌≡◌, ◌<◌, ◌^◌, [], IfOk, length};
ghost use Rattle.std.specs.Option.{option_copied};
ghost use Rattle.cert_text.specs.Certs.{lines_of};
ghost use Rattle.tree_engine.specs.Answers.{IsBranch, IsDirection};
ghost use Rattle.tree_engine.specs.Bests.{IsBest, IsVerdictOf};
ghost use Rattle.tree_engine.specs.Trees.{Holds};
ghost use Rattle.tree_engine.specs.declared.answer.Branch.TheVariants as answer_of;
ghost use Rattle.lpcc_case.specs.NarrowPoints.{IsPointOf};
ghost use Rattle.lpcc_case.specs.Values.{IsValue};
ghost use Rattle.report.specs.Endings.{overflow_text, pivots_text};
ghost use Rattle.branching.specs.Branching.{IsTextOf};
ghost use Rattle.branching.specs.Texts.{status_of};

use crate::texts::{nodes_text, verdict_text};
use cert_text::Cert;
use cuts::{SpentAt, WideAt};
use lp_nums::Frac;
use lpcc_case::{Case, Point, Ray, Verdict, value_of};
use nogoods::Piece;
use play::Ending;
use report::{Style, text_of};
use std::alloc::{AllocError, Global};
use tree_certs::{direction_cert, tree_cert};
use tree_engine::{Branch, BranchOptions, Tree};

fn value_at(case: &Case, point: &Point) -> Frac
    requires { IsPointOf case.now point.now }
    ensures { IsValue case.now point.now.z point.now.d result }
{
    let _pairs = case.pairs();
    value_of(case, point)
}

fn verdict_of(case: &Case, best: Option<&Point>) -> Verdict
    requires { IsBest case.now (option_copied best) }
    ensures { IsVerdictOf case.now (option_copied best.entry) result }
{
    match best {
        Some(point) => Verdict::Optimal(value_at(case, point)),
        None => Verdict::Infeasible,
    }
}

// How many no-good lines a certificate has.
fn line_count(cert: &Cert) -> usize
    ensures { length (lines_of cert.now) < 2 ^ 64 }
{
    match cert {
        Cert::Optimal { lines, .. } | Cert::Infeasible { lines } => lines.len(),
        Cert::Unbounded { .. } => 0,
    }
}

fn closed_text(
    alloc: Global,
    case: &Case,
    brief: bool,
    best: Option<&Point>,
    tree: &Tree,
    nodes: u64,
) -> Result<Vec<u8>, AllocError>
    requires best { IsBest case.now (option_copied best) }
    requires holds { Holds case.now (option_copied best) [] tree.now }
    ensures { IfOk result (λ text. IsTextOf case.now brief (answer_of.Closed (option_copied best.entry) tree.now nodes) text.items) }
{
    let cert = tree_cert(alloc, case, best, tree)?;
    let _lines = line_count(&cert);
    let verdict = verdict_of(case, best);
    verdict_text(alloc, verdict, nodes, brief, &cert)
}

fn unbounded_text(
    alloc: Global,
    case: &Case,
    brief: bool,
    piece: &Piece,
    point: &Point,
    ray: &Ray,
    nodes: u64,
) -> Result<Vec<u8>, AllocError>
    requires { IsDirection case.now piece.now point.now ray.now }
    ensures { IfOk result (λ text. IsTextOf case.now brief (answer_of.Unbounded piece.now point.now ray.now nodes) text.items) }
{
    let cert = direction_cert(alloc, case, piece, point, ray)?;
    let _lines = line_count(&cert);
    verdict_text(alloc, Verdict::Unbounded, nodes, brief, &cert)
}

// The same line as `solve` writes.
fn wide_text(alloc: Global, case: &Case, piece: &Piece, at: &WideAt) -> Result<Vec<u8>, AllocError>
    ensures { IfOk result (λ text. text.items ≡ overflow_text piece.now at.now) }
{
    let ending = Ending::Overflow {
        piece: piece.copy(alloc)?,
        at: WideAt {
            pivots: at.pivots,
            forms: at.forms.copy(alloc)?,
        },
    };
    text_of(alloc, case, &ending, Style::Brief)
}

// The same line as `solve` writes.
fn spent_text(alloc: Global, case: &Case, piece: &Piece, at: SpentAt) -> Result<Vec<u8>, AllocError>
    ensures { IfOk result (λ text. text.items ≡ pivots_text piece.now at) }
{
    let ending = Ending::PivotsSpent {
        piece: piece.copy(alloc)?,
        at,
    };
    text_of(alloc, case, &ending, Style::Brief)
}

/// The whole text of an answer.
pub fn answer_text(
    alloc: Global,
    case: &Case,
    options: &BranchOptions,
    brief: bool,
    answer: &Branch,
) -> Result<Vec<u8>, AllocError>
    requires { IsBranch case.now options.now answer.now }
    ensures { IfOk result (λ text. IsTextOf case.now brief answer.now text.items) }
{
    match answer {
        Branch::Closed { best, tree, nodes } => {
            closed_text(alloc, case, brief, best.as_ref(), tree, *nodes)
        },
        Branch::Unbounded {
            piece,
            point,
            ray,
            nodes,
        } => unbounded_text(alloc, case, brief, piece, point, ray, *nodes),
        Branch::Overflow { piece, at, .. } => wide_text(alloc, case, piece, at),
        Branch::PivotsSpent { piece, at, .. } => spent_text(alloc, case, piece, *at),
        Branch::NodesSpent { nodes, left, .. } => {
            Ok(nodes_text(alloc, *nodes, left.choices())?.into_bytes())
        },
    }
}

/// The status that a program ends with where the text was written.
pub fn status_of(answer: &Branch) -> u8
    ensures { result ≡ status_of answer.now }
{
    match answer {
        Branch::Closed { .. } | Branch::Unbounded { .. } => 0,
        Branch::Overflow { .. } => 7,
        Branch::PivotsSpent { .. } | Branch::NodesSpent { .. } => 8,
    }
}
