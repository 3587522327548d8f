//! How a desk part ends.
ghost use Rattle.std.specs.Prelude.{◌≡◌, All, Contains, IfOk, None, Some, [], length};
ghost use Rattle.derivation.specs.Logs.{no_goods};
ghost use Rattle.search.specs.FirstPieces.{AllBlocked};
ghost use Rattle.cert_text.specs.Certs.{IsLine, KeepsForm};
ghost use Rattle.play.specs.Parts.{barring, taken};
ghost use Rattle.lpcc_case.specs.Cases.{IsCase};
ghost use Rattle.lpcc_case.specs.NarrowPoints.{IsPointOf};
ghost use Rattle.cert_text.specs.declared.cert.Cert.TheVariants as cert_of;
ghost use Rattle.play.specs.Points.{IsDirection, choices_of};
ghost use Rattle.play.specs.Lawful.{MayConclude};
ghost use Rattle.play.specs.Certificates.{AreTrimmedLines, IsCertOf, cert_point, terms_from};
ghost use Rattle.play.specs.Endings.{IsEnding, IsIdle};
ghost use Rattle.play.specs.declared.event.VerdictKind.TheVariants as kind_of;
ghost use Rattle.desk_part.specs.DeskParts.{EndingKeepsForm, IsCarried, IsOver, IsSettled};
ghost use Rattle.desk_part.specs.Stuck.{IsStuckEnding, ending_of};

use crate::DeskPart;
use crate::lines::lines_of;
use crate::points::{cert_point, terms_of};
use crate::stuck::lowest;
use cert_text::{Cert, CertLine};
use lp_base::Sequence;
use lpcc_case::{Case, Point};
use play::{Aside, Cause, Direction, Ending, Options, VerdictKind, choices_of};
use search::Found;
use std::alloc::{AllocError, Global};

fn ending_of(aside: Aside) -> Ending
    ensures { result ≡ ending_of aside }
{
    let Aside { piece, cause, .. } = aside;
    match cause {
        Cause::Wide(at) => Ending::Overflow { piece, at },
        Cause::Spent(at) => Ending::PivotsSpent { piece, at },
    }
}

fn optimal_cert(
    alloc: Global,
    case: &Case,
    best: &Point,
    lines: Sequence<CertLine>,
) -> Result<Cert, AllocError>
    requires is_case { IsCase case.now }
    requires numbers { IsPointOf case.now best.now }
    requires lines { All IsLine lines }
    ensures cert { IfOk result (λ c. c ≡ cert_of.Optimal (cert_point best.now) best.now.z lines) }
    ensures form { IfOk result KeepsForm }
{
    let point = cert_point(alloc, case, best)?;
    Ok(Cert::Optimal {
        point,
        z: best.z,
        lines,
    })
}

fn unbounded_cert(alloc: Global, case: &Case, kept: &Direction) -> Result<Cert, AllocError>
    requires is_case { IsCase case.now }
    requires kept { IsDirection case.now kept.now }
    ensures cert { IfOk result (λ c. c ≡ cert_of.Unbounded (choices_of kept.now.piece) (cert_point kept.now.point) (terms_from 0 kept.now.ray.r)) }
    ensures form { IfOk result KeepsForm }
{
    let piece = choices_of(alloc, &kept.piece)?;
    let point = cert_point(alloc, case, &kept.point)?;
    let ray = terms_of(alloc, case, kept.ray.r.as_slice())?;
    Ok(Cert::Unbounded { piece, point, ray })
}

impl DeskPart {
    /// The lines that show that nothing is lower than the best point, or that no point is
    /// feasible.
    fn lines(
        &self,
        alloc: Global,
        case: &Case,
        options: &Options,
    ) -> Result<Sequence<CertLine>, AllocError>
        requires carried { IsCarried case.now options.now self.now }
        requires empty { Contains (no_goods self.now.log) [] }
        ensures lines { IfOk result (AreTrimmedLines self.now.absorbed self.now.log) }
        ensures form { IfOk result (All IsLine) }
        ensures is_case { IsCase case.now }
    {
        let _pairs = case.pairs();
        lines_of(alloc, case, self.absorbed.as_slice(), &self.log)
    }

    fn optimal(&self, alloc: Global, case: &Case, options: &Options) -> Result<Cert, AllocError>
        requires carried { IsCarried case.now options.now self.now }
        requires concluded { MayConclude self.now kind_of.Optimal }
        ensures cert { IfOk result (IsCertOf self.now kind_of.Optimal) }
        ensures form { IfOk result KeepsForm }
    {
        let lines = self.lines(alloc, case, options)?;
        match &self.best {
            Some(best) => optimal_cert(alloc, case, best, lines),
            None => unreachable!(),
        }
    }

    fn infeasible(&self, alloc: Global, case: &Case, options: &Options) -> Result<Cert, AllocError>
        requires carried { IsCarried case.now options.now self.now }
        requires concluded { MayConclude self.now kind_of.Infeasible }
        ensures cert { IfOk result (IsCertOf self.now kind_of.Infeasible) }
        ensures form { IfOk result KeepsForm }
    {
        let lines = self.lines(alloc, case, options)?;
        Ok(Cert::Infeasible { lines })
    }

    fn unbounded(&self, alloc: Global, case: &Case, options: &Options) -> Result<Cert, AllocError>
        requires carried { IsCarried case.now options.now self.now }
        requires concluded { MayConclude self.now kind_of.Unbounded }
        ensures cert { IfOk result (IsCertOf self.now kind_of.Unbounded) }
        ensures form { IfOk result KeepsForm }
    {
        let _pairs = case.pairs();
        match &self.unbounded {
            Some(kept) => unbounded_cert(alloc, case, kept),
            None => unreachable!(),
        }
    }

    /// The certificate of a verdict.
    fn certificate(
        &self,
        alloc: Global,
        case: &Case,
        options: &Options,
        kind: VerdictKind,
    ) -> Result<Cert, AllocError>
        requires carried { IsCarried case.now options.now self.now }
        requires concluded { MayConclude self.now kind }
        ensures cert { IfOk result (IsCertOf self.now kind) }
        ensures form { IfOk result KeepsForm }
    {
        match kind {
            VerdictKind::Optimal => self.optimal(alloc, case, options),
            VerdictKind::Infeasible => self.infeasible(alloc, case, options),
            VerdictKind::Unbounded => self.unbounded(alloc, case, options),
        }
    }

    /// The ending with a verdict.
    fn concluded(
        self,
        alloc: Global,
        case: &Case,
        options: &Options,
        kind: VerdictKind,
    ) -> Result<Ending, AllocError>
        requires carried { IsCarried case.now options.now self }
        requires concluded { self.verdict ≡ Some kind }
        ensures ending { IfOk result (IsEnding case.now options.now self) }
        ensures form { IfOk result EndingKeepsForm }
    {
        let cert = self.certificate(alloc, case, options, kind)?;
        Ok(Ending::Verdict {
            cert,
            drawn: self.drawn,
        })
    }

    /// The ending where each piece that is not barred was set aside, and there is one.
    fn stuck(self, case: &Case) -> Ending
        requires idle { IsIdle self }
        requires blocked { AllBlocked (length case.now.pairs) (barring self) (taken self) }
        ensures { IsStuckEnding case.now self result }
    {
        let DeskPart {
            absorbed,
            mut aside,
            ..
        } = self;
        let Some(at) = lowest(absorbed.as_slice(), aside.as_slice()) else {
            unreachable!()
        };
        ending_of(aside.swap_remove(at))
    }

    /// The ending without a verdict.
    fn unsolved(self, alloc: Global, case: &Case, options: &Options) -> Result<Ending, AllocError>
        requires carried { IsCarried case.now options.now self }
        requires settled { self.unbounded ≡ None }
        requires waiting { self.verdict ≡ None }
        requires over { IsOver case.now options.now self }
        ensures ending { IfOk result (IsEnding case.now options.now self) }
        ensures form { IfOk result EndingKeepsForm }
    {
        let mut part = self;
        match part.search(alloc, case, options)? {
            Found::Piece(left) => Ok(Ending::PiecesSpent {
                drawn: part.drawn,
                left,
            }),
            Found::Refuted => unreachable!(),
            Found::Blocked => Ok(part.stuck(case)),
        }
    }

    /// The ending of the record. Without memory the part is spent.
    pub fn close(self, alloc: Global, case: &Case, options: &Options) -> Result<Ending, AllocError>
        requires carried { IsCarried case.now options.now self }
        requires settled { IsSettled self }
        requires over { IsOver case.now options.now self }
        ensures ending { IfOk result (IsEnding case.now options.now self) }
        ensures form { IfOk result EndingKeepsForm }
    {
        match self.verdict {
            Some(kind) => self.concluded(alloc, case, options, kind),
            None => self.unsolved(alloc, case, options),
        }
    }
}
