//! Certificates of what a search by branching answers.
ghost use Rattle.std.specs.Prelude.{◌≡◌, [], All, IfOk};
ghost use Rattle.std.specs.Option.{option_copied};
ghost use Rattle.lpcc_case.specs.declared.verdict.Verdict.{Verdict as Claim};
ghost use Rattle.lpcc_case.specs.declared.verdict.Verdict.TheVariants as claim;
ghost use Rattle.cert_text.specs.Certs.{IsLine, KeepsForm};
ghost use Rattle.cert_check.specs.Acceptance.{Accepts};
ghost use Rattle.cert_parts.specs.Lines.{AreBacked, AreTrimmedLines};
ghost use Rattle.tree_engine.specs.Answers.{IsDirection};
ghost use Rattle.tree_engine.specs.Bests.{IsBest, IsVerdictOf};
ghost use Rattle.tree_engine.specs.Trees.{Holds};
ghost use Rattle.tree_certs.specs.Certs.{IsTreeCert, direction_cert};
ghost use Rattle.tree_certs.specs.Derivations.{leaves, log_of};
ghost use Rattle.tree_certs.specs.Refuting.{IsWholeDerivation};

use crate::refuting::{Derivation, refuted};
use cert_parts::{choices_of, lines_of, optimal_cert, unbounded_cert};
use cert_text::{Cert, CertLine};
use derivation::Log;
use lp_base::Sequence;
use lpcc_case::{Case, Point, Ray};
use nogoods::Piece;
use std::alloc::{AllocError, Global};
use tree_engine::{Tree, root};

/// The derivation without steps.
fn nothing(alloc: Global) -> Derivation
    ensures cuts { result.cuts ≡ [] }
    ensures log { result.log ≡ [] }
{
    Derivation {
        cuts: Sequence::new(alloc),
        log: Log::create(alloc),
    }
}

/// The derivation of a tree that holds at the empty path.
fn derivation_of(
    alloc: Global,
    case: &Case,
    best: Option<&Point>,
    tree: &Tree,
) -> Result<Derivation, AllocError>
    requires { Holds case.now (option_copied best) [] tree.now }
    ensures { IfOk result (IsWholeDerivation case.now (option_copied best.entry) tree.now) }
{
    let mut made = nothing(alloc);
    let path = root(alloc)?;
    refuted(alloc, case, best, &mut made, &path, tree)?;
    Ok(made)
}

/// The trimmed lines of a tree that holds at the empty path.
fn tree_lines(
    alloc: Global,
    case: &Case,
    best: Option<&Point>,
    tree: &Tree,
) -> Result<Sequence<CertLine>, AllocError>
    requires { Holds case.now (option_copied best) [] tree.now }
    ensures lines { IfOk result (AreTrimmedLines (leaves tree.now) (log_of tree.now)) }
    ensures backed { IfOk result (AreBacked case.now (option_copied best.entry)) }
    ensures form { IfOk result (All IsLine) }
{
    let made = derivation_of(alloc, case, best, tree)?;
    let _pairs = case.pairs();
    lines_of(alloc, case, made.cuts.as_slice(), &made.log)
}

/// The certificate of a best point, or of none, by a tree that holds for it at the empty path. Each
/// leaf is the line of its cut. A split whose no-goods both have their side of its pair is their
/// resolvent; else the one that lacks it stands for the split. Of these lines those are kept that
/// the first one without choices reaches.
///
/// # Errors
///
/// Want of memory alone.
pub fn tree_cert(
    alloc: Global,
    case: &Case,
    best: Option<&Point>,
    tree: &Tree,
) -> Result<Cert, AllocError>
    requires best { IsBest case.now (option_copied best) }
    requires holds { Holds case.now (option_copied best) [] tree.now }
    ensures cert { IfOk result (IsTreeCert (option_copied best.entry) tree.now) }
    ensures form { IfOk result KeepsForm }
    ensures accepted { (v : Claim) → IsVerdictOf case.now (option_copied best.entry) v → IfOk result (λ c. Accepts case.now c v) }
{
    let lines = tree_lines(alloc, case, best, tree)?;
    match best {
        Some(point) => optimal_cert(alloc, case, point, lines),
        None => Ok(Cert::Infeasible { lines }),
    }
}

/// The certificate that from a point of the piece the ray can be followed without end, the cost
/// falling.
///
/// # Errors
///
/// Want of memory alone.
pub fn direction_cert(
    alloc: Global,
    case: &Case,
    piece: &Piece,
    point: &Point,
    ray: &Ray,
) -> Result<Cert, AllocError>
    requires { IsDirection case.now piece.now point.now ray.now }
    ensures cert { IfOk result (λ c. c ≡ direction_cert piece.now point.now ray.now) }
    ensures form { IfOk result KeepsForm }
    ensures accepted { IfOk result (λ c. Accepts case.now c claim.Unbounded) }
{
    let _pairs = case.pairs();
    let choices = choices_of(alloc, piece)?;
    unbounded_cert(alloc, case, choices, point, ray)
}
