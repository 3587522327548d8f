//! Why certificates are accepted.
ghost use Rattle.std.specs.Prelude.{List, Option, Some, None};
ghost use Rattle.lp_nums.specs.Fractions.{Fraction};
ghost use Rattle.nogoods.specs.declared.choice.Choice.{Choice};
ghost use Rattle.lpcc_case.specs.Instance.{Instance};
ghost use Rattle.lpcc_case.specs.NarrowPoints.{IsPointOf};
ghost use Rattle.lpcc_case.specs.Points.{IsFeasible};
ghost use Rattle.lpcc_case.specs.Values.{IsValue};
ghost use Rattle.lpcc_case.specs.declared.point.Point.{Point};
ghost use Rattle.lpcc_case.specs.declared.point.Ray.{Ray};
ghost use Rattle.lpcc_case.specs.declared.verdict.Verdict.TheVariants as verdict;
ghost use Rattle.cuts.specs.declared.cut.Cut.{Cut};
ghost use Rattle.reasons.specs.Reasons.{Has, IsPointIn, IsRayFor};
ghost use Rattle.derivation.specs.declared.step.Step.{Step};
ghost use Rattle.cert_text.specs.declared.cert.Cert.TheVariants as cert;
ghost use Rattle.cert_text.specs.declared.cert.CertLine.{CertLine};
ghost use Rattle.cert_check.specs.Acceptance.{Accepts, IsWholePiece};
ghost use Rattle.cert_parts.specs.Lines.{AreBacked, AreTrimmedLines, IsSoundLog};
ghost use Rattle.cert_parts.specs.PointTerms.{cert_point, terms_from};

/// Of a log whose starting steps are no-goods of sound cuts the trimmed lines are backed, and the
/// last one is without choices.
pub fn trimmed_lines_are_backed()
    ensures { (a : Instance) (best : Option Point) (known : List Cut) (log : List Step) (lines : List CertLine) →
        IsSoundLog a best known log → AreTrimmedLines known log lines → AreBacked a best lines }
{}

/// A certificate of a feasible point with lines that are backed for it is accepted.
pub fn backed_lines_show_a_best_point()
    ensures { (a : Instance) (q : Point) (lines : List CertLine) (value : Fraction) →
        IsPointOf a q → Has a q (IsFeasible a) → AreBacked a (Some q) lines → IsValue a q.z q.d value →
        Accepts a (cert.Optimal (cert_point q) q.z lines) (verdict.Optimal value) }
{}

/// A certificate of lines that are backed without a best point is accepted.
pub fn backed_lines_show_that_none_is_feasible()
    ensures { (a : Instance) (lines : List CertLine) → AreBacked a None lines → Accepts a (cert.Infeasible lines) verdict.Infeasible }
{}

/// A certificate of a point with one choice for each pair tight, and a ray that recedes for these
/// choices, is accepted.
pub fn points_and_rays_show_unbounded()
    ensures { (a : Instance) (choices : List Choice) (q : Point) (ray : Ray) →
        IsWholePiece a choices → IsPointIn a choices q → IsRayFor a choices ray →
        Accepts a (cert.Unbounded choices (cert_point q) (terms_from 0 ray.r)) verdict.Unbounded }
{}
