//! Reading a certificate, line by line.
ghost use Rattle.std.specs.Prelude.{◌≡◌, ◌<◌, ◌-◌, ◌^◌, ℕ, IfOk, IfErr, Ok, Err, length};
ghost use Rattle.cert_text.specs.declared.cert.Cert.{Cert as Certificate};
ghost use Rattle.cert_text.specs.declared.fault.CertWhy.{CertWhy as Why};
ghost use Rattle.cert_text.specs.Faults.{is_last};
ghost use Rattle.cert_text.specs.Reading.{kind_at, point_at, value_at, piece_at, ray_at};
ghost use Rattle.cert_text.specs.Texts.{Spells, FailsAs, Fails, found_by};
ghost use Rattle.lp_base.specs.Answers.{Gives, Refuses};
ghost use Rattle.cert_text.specs.Steps.{Finds, Reads, line_as, head_step, kind_step, entry_at, entry_step, log_step, last_step, optimal_step, infeasible_step, unbounded_step, step_of, behind_end, cert_at};

use crate::lines::{Lines, Next};
use crate::rows::{parse_end, parse_line, parse_piece, parse_point, parse_ray, parse_value};
use crate::split::Split;
use crate::words::Fault;
use crate::{Cert, CertFault, CertLine, CertPoint, CertWhy};
use lp_base::Sequence;
use nogoods::NoGood;
use std::alloc::Global;

/// The kinds of certificates.
pub enum Kind {
    Optimal,
    Infeasible,
    Unbounded,
}

#[tactic(auto, unfolding(crate::specs::Steps::head_step))]
fn parse_head(lines: &mut Lines) -> Result<(), CertFault>
    ensures { Finds (λ _. lines.new) result (head_step lines.old) }
{
    let line = lines.next_number();
    let why = match lines.next() {
        Next::Whole(bytes) if bytes == b"lpcc-certificate 1".as_slice() => return Ok(()),
        Next::Cut => CertWhy::NotEnded,
        Next::Whole(_) | Next::Over => CertWhy::BadHead,
    };
    Err(CertFault::At { line, why })
}

#[tactic(auto, unfolding(crate::specs::Reading::kind_at))]
fn parse_kind(line: &[u8]) -> Result<Kind, Fault>
    ensures { Reads (λ kind. kind) result (kind_at line.now) }
{
    if line == b"optimal".as_slice() {
        return Ok(Kind::Optimal);
    }
    if line == b"infeasible".as_slice() {
        return Ok(Kind::Infeasible);
    }
    if line == b"unbounded".as_slice() {
        return Ok(Kind::Unbounded);
    }
    Err(Fault::Of(CertWhy::BadLine))
}

/// The kind, on the line that comes next.
#[tactic(auto, unfolding(crate::specs::Steps::kind_step))]
pub fn parse_kind_line(lines: &mut Lines) -> Result<Kind, CertFault>
    ensures { Finds (λ kind. (kind, lines.new)) result (kind_step lines.old) }
{
    let line = lines.whole()?;
    lines.judged(parse_kind(line))
}

/// A point, on the line that comes next.
#[tactic(auto, unfolding(crate::specs::Steps::line_as))]
pub fn parse_point_line(alloc: Global, lines: &mut Lines) -> Result<CertPoint, CertFault>
    ensures { Finds (λ point. (point, lines.new)) result (line_as point_at lines.old) }
{
    let line = lines.whole()?;
    lines.judged(parse_point(alloc, &mut Split::of(line, b' ')))
}

/// A value, on the line that comes next.
#[tactic(auto, unfolding(crate::specs::Steps::line_as))]
pub fn parse_value_line(lines: &mut Lines) -> Result<i128, CertFault>
    ensures { Finds (λ z. (z, lines.new)) result (line_as value_at lines.old) }
{
    let line = lines.whole()?;
    lines.judged(parse_value(&mut Split::of(line, b' ')))
}

/// A piece, on the line that comes next.
#[tactic(auto, unfolding(crate::specs::Steps::line_as))]
pub fn parse_piece_line(alloc: Global, lines: &mut Lines) -> Result<NoGood, CertFault>
    ensures { Finds (λ piece. (piece, lines.new)) result (line_as piece_at lines.old) }
{
    let line = lines.whole()?;
    lines.judged(parse_piece(alloc, &mut Split::of(line, b' ')))
}

/// A ray, on the line that comes next.
#[tactic(auto, unfolding(crate::specs::Steps::line_as))]
pub fn parse_ray_line(alloc: Global, lines: &mut Lines) -> Result<Sequence<(u32, i64)>, CertFault>
    ensures { Finds (λ ray. (ray, lines.new)) result (line_as ray_at lines.old) }
{
    let line = lines.whole()?;
    lines.judged(parse_ray(alloc, &mut Split::of(line, b' ')))
}

/// Whether a line is the last one, by its first word.
pub fn is_last(line: &[u8]) -> bool
    ensures { result ≡ is_last line.now }
{
    match Split::of(line, b' ').next() {
        Some(word) => word == b"end".as_slice(),
        None => false,
    }
}

// A no-good line, or nothing for the last line, behind so many no-good lines.
#[tactic(auto, unfolding(crate::specs::Steps::entry_at))]
fn parse_entry(alloc: Global, line: &[u8], count: u64) -> Result<Option<CertLine>, Fault>
    ensures { Reads (λ entry. entry) result (entry_at count line.now) }
{
    let mut words = Split::of(line, b' ');
    if is_last(line) {
        parse_end(&mut words, count)?;
        return Ok(None);
    }
    Ok(Some(parse_line(alloc, &mut words)?))
}

#[tactic(auto, unfolding(crate::specs::Steps::entry_step))]
fn parse_entry_line(
    alloc: Global,
    lines: &mut Lines,
    count: u64,
) -> Result<Option<CertLine>, CertFault>
    ensures { Finds (λ entry. (entry, lines.new)) result (entry_step count lines.old) }
{
    let line = lines.whole()?;
    lines.judged(parse_entry(alloc, line, count))
}

fn parse_log(alloc: Global, lines: &mut Lines) -> Result<Sequence<CertLine>, CertFault>
    ensures { Finds (λ log. (log, lines.new)) result (log_step 0 lines.old) }
{
    let mut log = Sequence::new(alloc);
    while let Some(entry) = parse_entry_line(alloc, lines, log.len() as u64)? {
        log.push(entry)?;
    }
    Ok(log)
}

/// The last line, which counts no no-good lines.
#[tactic(auto, unfolding(crate::specs::Steps::last_step, crate::specs::Steps::line_as))]
pub fn parse_last_line(lines: &mut Lines) -> Result<u64, CertFault>
    ensures { Finds (λ k. (k, lines.new)) result (last_step lines.old) }
{
    let line = lines.whole()?;
    lines.judged(parse_end(&mut Split::of(line, b' '), 0))
}

#[tactic(auto, unfolding(crate::specs::Steps::optimal_step))]
fn parse_optimal(alloc: Global, lines: &mut Lines) -> Result<Cert, CertFault>
    ensures { Finds (λ cert. (cert, lines.new)) result (optimal_step lines.old) }
{
    let point = parse_point_line(alloc, lines)?;
    let z = parse_value_line(lines)?;
    let log = parse_log(alloc, lines)?;
    Ok(Cert::Optimal {
        point,
        z,
        lines: log,
    })
}

#[tactic(auto, unfolding(crate::specs::Steps::infeasible_step))]
fn parse_infeasible(alloc: Global, lines: &mut Lines) -> Result<Cert, CertFault>
    ensures { Finds (λ cert. (cert, lines.new)) result (infeasible_step lines.old) }
{
    let log = parse_log(alloc, lines)?;
    Ok(Cert::Infeasible { lines: log })
}

#[tactic(auto, unfolding(crate::specs::Steps::unbounded_step))]
fn parse_unbounded(alloc: Global, lines: &mut Lines) -> Result<Cert, CertFault>
    ensures { Finds (λ cert. (cert, lines.new)) result (unbounded_step lines.old) }
{
    let piece = parse_piece_line(alloc, lines)?;
    let point = parse_point_line(alloc, lines)?;
    let ray = parse_ray_line(alloc, lines)?;
    parse_last_line(lines)?;
    Ok(Cert::Unbounded { piece, point, ray })
}

fn parse_cert_of_kind(alloc: Global, kind: Kind, lines: &mut Lines) -> Result<Cert, CertFault>
    ensures { Finds (λ cert. (cert, lines.new)) result (step_of kind lines.old) }
{
    match kind {
        Kind::Optimal => parse_optimal(alloc, lines),
        Kind::Infeasible => parse_infeasible(alloc, lines),
        Kind::Unbounded => parse_unbounded(alloc, lines),
    }
}

/// No content stands behind the last line.
#[tactic(auto, unfolding(crate::specs::Steps::behind_end))]
pub fn parse_text_end(lines: &mut Lines) -> Result<(), CertFault>
    ensures { Finds (λ _. lines.old) result (behind_end lines.old) }
{
    let line = lines.next_number();
    match lines.next() {
        Next::Over => Ok(()),
        Next::Whole(_) | Next::Cut => Err(CertFault::At {
            line,
            why: CertWhy::AfterEnd,
        }),
    }
}

#[tactic(auto, unfolding(crate::specs::Steps::cert_at))]
fn parse_cert(alloc: Global, lines: &mut Lines) -> Result<Cert, CertFault>
    ensures { Finds (λ cert. cert) result (cert_at lines.old) }
{
    parse_head(lines)?;
    let kind = parse_kind_line(lines)?;
    let cert = parse_cert_of_kind(alloc, kind, lines)?;
    parse_text_end(lines)?;
    Ok(cert)
}

/// The certificate that a text spells, or the text's first fault. The time is linear in the text.
pub fn read_cert(alloc: Global, text: &[u8]) -> Result<Cert, CertFault>
    requires { length text.now < 2 ^ 32 - 1 }

    // What is read is spelled so, and what is spelled so is read, unless memory is short.
    ensures spelled { IfOk result (λ cert. Spells text.now cert) }
    ensures only { (cert : Certificate) → Spells text.now cert → Gives found_by cert result }

    // The fault that is named is the text's first, and the first is named, unless memory is short.
    ensures fails { IfErr result (λ fault. FailsAs fault text.now) }
    ensures only_fails { (line : ℕ) (why : Why) → Fails text.now line why → Refuses found_by (line, why) result }
{
    parse_cert(alloc, &mut Lines::of(text))
}
