//! The lines of a certificate: the steps that the first empty step of a log reaches, each start
//! with the known cut that it is of.
ghost use Rattle.std.specs.Prelude.{◌≡◌, ◌<◌, ◌-◌, ◌^◌, ◌+◌, ◌≤◌, ◌∷◌, [], List, All, Contains, IfOk, OnOk, length, map, take, slice_index_or, pos, ◌≤ℤ◌};
ghost use Rattle.nogoods.specs.declared.choice.Choice.{Choice as ChosenSide};
ghost use Rattle.lpcc_case.specs.Cases.{IsCase};
ghost use Rattle.lpcc_case.specs.Pieces.{NamesPairs};
ghost use Rattle.cuts.specs.declared.cut.Cut.TheVariants as cut_of;
ghost use Rattle.cuts.specs.Cuts.{Passes, no_good_of};
ghost use Rattle.derivation.specs.declared.step.Step.TheVariants as step_of;
ghost use Rattle.derivation.specs.Logs as logs;
ghost use Rattle.derivation.specs.Logs.{no_goods};
ghost use Rattle.trimming.specs.Trimmed.{hints_of};
ghost use Rattle.cert_text.specs.Certs.{IsLine};
ghost use Rattle.cert_parts.specs.Lines.{AreTrimmedLines, line_at, line_of_cut, starts_of};
ghost use Rattle.cert_parts.specs.Making.{AreCounted, AreReady, line_by};

use cert_text::CertLine;
use cuts::Cut;
use derivation::{Log, Step};
use lp_base::Sequence;
use lpcc_case::Case;
use nogoods::NoGood;
use std::alloc::{AllocError, Global};
use trimming::{reached_steps, trim};

fn ray_line(
    alloc: Global,
    case: &Case,
    ng: &NoGood,
    mult: &Sequence<(u32, i64)>,
) -> Result<CertLine, AllocError>
    requires is_case { IsCase case.now }
    requires passes { Passes case.now (cut_of.Ray ng.now mult.now) }
    ensures line { IfOk result (λ l. l ≡ line_of_cut (cut_of.Ray ng.now mult.now)) }
    ensures form { IfOk result IsLine }
{
    let _choices = ng.choices();
    let ng = ng.copy(alloc)?;
    let mult = mult.copy(alloc)?;
    Ok(CertLine::Ray { ng, mult })
}

fn point_line(
    alloc: Global,
    case: &Case,
    ng: &NoGood,
    mult: &Sequence<(u32, i64)>,
    e: i64,
    v: i128,
) -> Result<CertLine, AllocError>
    requires is_case { IsCase case.now }
    requires passes { Passes case.now (cut_of.Point ng.now mult.now e v) }
    ensures line { IfOk result (λ l. l ≡ line_of_cut (cut_of.Point ng.now mult.now e v)) }
    ensures form { IfOk result IsLine }
{
    let _choices = ng.choices();
    let ng = ng.copy(alloc)?;
    let mult = mult.copy(alloc)?;
    Ok(CertLine::Point { ng, e, mult })
}

/// The line of a cut.
fn line_of_cut(alloc: Global, case: &Case, cut: &Cut) -> Result<CertLine, AllocError>
    requires is_case { IsCase case.now }
    requires passes { Passes case.now cut.now }
    ensures line { IfOk result (λ l. l ≡ line_of_cut cut.now) }
    ensures form { IfOk result IsLine }
{
    match cut {
        Cut::Ray { ng, mult } => ray_line(alloc, case, ng, mult),
        Cut::Point { ng, mult, e, v } => point_line(alloc, case, ng, mult, *e, *v),
    }
}

fn derived_line(
    alloc: Global,
    case: &Case,
    ng: &NoGood,
    hints: &Sequence<u64>,
) -> Result<CertLine, AllocError>
    requires is_case { IsCase case.now }
    requires named { NamesPairs case.now ng.now }
    requires low { All (λ h. h < 2 ^ 64 - 1) hints.now }
    ensures line { IfOk result (λ l. l ≡ line_by (cut_of.Ray [] []) (step_of.Derived ng.now hints.now)) }
    ensures form { IfOk result IsLine }
{
    let _choices = ng.choices();
    let ng = ng.copy(alloc)?;
    let hints = hints.copy(alloc)?;
    Ok(CertLine::Derived { ng, hints })
}

/// The line of a step of the trimmed log, of which so many starts stand before it.
fn line_of_step(
    alloc: Global,
    case: &Case,
    known: &[Cut],
    number: usize,
    step: &Step,
) -> Result<CertLine, AllocError>
    requires is_case { IsCase case.now }
    requires passing { All (Passes case.now) known.now }
    requires within { (ng : List ChosenSide) → step.now ≡ step_of.Start ng → number < length known.now }
    requires named { NamesPairs case.now (logs.no_good_of step.now) }
    requires low { All (λ h. h < 2 ^ 64 - 1) (hints_of step.now) }
    ensures line { IfOk result (λ l. l ≡ line_by (slice_index_or known.now number (cut_of.Ray [] [])) step.now) }
    ensures form { IfOk result IsLine }
{
    match step {
        Step::Start(_) => line_of_cut(alloc, case, &known[number]),
        Step::Derived(ng, hints) => derived_line(alloc, case, ng, hints),
    }
}

fn number_at(numbers: &[usize], place: u64) -> usize
    requires { place < length numbers.now }
    ensures { result ≡ slice_index_or numbers.now place 0 }
{
    numbers[place as usize]
}

/// The line of the kept step at this place.
fn line_of_place(
    alloc: Global,
    case: &Case,
    known: &[Cut],
    log: &Log,
    places: &[u64],
    trimmed: &Log,
    numbers: &[usize],
    at: usize,
) -> Result<CertLine, AllocError>
    requires ready { AreReady case.now known.now log.now places.now trimmed.now numbers.now }
    requires within { at < length places.now }
    ensures line { IfOk result (λ l. l ≡ line_at known.now log.now places.now (slice_index_or places.now at 0)) }
    ensures form { IfOk result IsLine }
{
    let number = number_at(numbers, places[at]);
    line_of_step(alloc, case, known, number, &trimmed.steps()[at])
}

/// Adds the line of the kept step at this place.
fn add_line(
    alloc: Global,
    made: &mut Sequence<CertLine>,
    case: &Case,
    known: &[Cut],
    log: &Log,
    places: &[u64],
    trimmed: &Log,
    numbers: &[usize],
    at: usize,
) -> Result<(), AllocError>
    requires ready { AreReady case.now known.now log.now places.now trimmed.now numbers.now }
    requires within { at < length places.now }
    requires lines { made.old ≡ map (line_at known.now log.now places.now) (take at places.now) }
    requires form { All IsLine made.old }
    ensures lines { OnOk result (made.new ≡ map (line_at known.now log.now places.now) (take (at + 1) places.now)) }
    ensures form { OnOk result (All IsLine made.new) }
{
    let line = line_of_place(alloc, case, known, log, places, trimmed, numbers, at)?;
    made.push(line)?;
    Ok(())
}

fn make_lines(
    alloc: Global,
    case: &Case,
    known: &[Cut],
    log: &Log,
    places: &[u64],
    trimmed: &Log,
    numbers: &[usize],
) -> Result<Sequence<CertLine>, AllocError>
    requires ready { AreReady case.now known.now log.now places.now trimmed.now numbers.now }
    ensures lines { IfOk result (λ made. made ≡ map (line_at known.now log.now places.now) places.now) }
    ensures form { IfOk result (All IsLine) }
{
    let mut made = Sequence::new(alloc);
    for at in 0..places.len() {
        add_line(
            alloc, &mut made, case, known, log, places, trimmed, numbers, at,
        )?;
    }
    Ok(made)
}

/// The number of starts, with this step counted.
fn counted(count: usize, step: &Step, most: usize) -> usize
    requires { count < most }
    ensures { result ≡ count + length (starts_of (step.now ∷ [])) }
{
    match step {
        Step::Start(_) => count + 1,
        Step::Derived(_, _) => count,
    }
}

/// Adds the number of starts up to this step.
fn add_count(made: &mut Vec<usize>, steps: &[Step], at: usize) -> Result<(), AllocError>
    requires within { at < length steps.now }
    requires counted { AreCounted steps.now (at + 1) made.old.items }
    ensures { OnOk result (AreCounted steps.now (at + 1 + 1) made.new.items) }
{
    let count = counted(made[at], &steps[at], steps.len());
    made.push(count)?;
    Ok(())
}

/// For each step the number of starts before it, and that of all starts.
fn starts_before(alloc: Global, steps: &[Step]) -> Result<Vec<usize>, AllocError>
    ensures { IfOk result (λ made. AreCounted steps.now (length steps.now + 1) made.items) }
{
    let mut made = Vec::new(alloc);
    made.push(0)?;
    for at in 0..steps.len() {
        add_count(&mut made, steps, at)?;
    }
    Ok(made)
}

/// The lines of the steps that the first empty step reaches.
pub fn lines_of(
    alloc: Global,
    case: &Case,
    known: &[Cut],
    log: &Log,
) -> Result<Sequence<CertLine>, AllocError>
    requires is_case { IsCase case.now }
    requires empty { Contains (no_goods log.now) [] }
    requires passing { All (Passes case.now) known.now }
    requires starts { starts_of log.now ≡ map no_good_of known.now }
    requires named { All (NamesPairs case.now) (no_goods log.now) }
    ensures lines { IfOk result (AreTrimmedLines known.now log.now) }
    ensures form { IfOk result (All IsLine) }
{
    let places = reached_steps(alloc, log)?;
    let trimmed = trim(alloc, log)?;
    let numbers = starts_before(alloc, log.steps())?;
    let _ = trimmed.steps();
    make_lines(
        alloc,
        case,
        known,
        log,
        places.as_slice(),
        &trimmed,
        numbers.as_slice(),
    )
}
