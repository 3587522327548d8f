//! Reading a certificate of either form, line by line.
ghost use Rattle.std.specs.Prelude.{◌≡◌, ◌<◌, ◌-◌, ◌^◌, ℕ, true, IfOk, IfErr, length};
ghost use Rattle.cert_text.specs.declared.fault.CertWhy.{CertWhy as Why};
ghost use Rattle.cert_text.specs.Steps.{Finds, Reads, all_lines};
ghost use Rattle.cert_text.specs.Texts.{found_by};
ghost use Rattle.lp_base.specs.Answers.{Gives, Refuses};
ghost use Rattle.cert2_text.specs.declared.cert2.AnyCert.{AnyCert as Certificate};
ghost use Rattle.cert2_text.specs.Faults2.{is_head2};
ghost use Rattle.cert2_text.specs.Texts2.{is_two, SpellsAny, FailsAny, FailsAnyAs};
ghost use Rattle.cert2_text.specs.Steps2.{entry2_at, entry2_step, log2_step, optimal2_step, infeasible2_step, unbounded2_step, step2_of, cert2_at, as_one, as_two};

use crate::rows2::parse_line2;
use crate::{AnyCert, Cert2, Cert2Line, counted};
use cert_text::lines::{Lines, Next};
use cert_text::read::{
    Kind, is_last, parse_kind_line, parse_last_line, parse_piece_line, parse_point_line,
    parse_ray_line, parse_text_end, parse_value_line,
};
use cert_text::rows::parse_end;
use cert_text::split::Split;
use cert_text::words::Fault;
use cert_text::{Cert, CertFault, read_cert};
use lp_base::Sequence;
use std::alloc::Global;

// A line, or nothing for the last line, behind so many no-good lines.
#[tactic(auto, unfolding(crate::specs::Steps2::entry2_at))]
fn parse_entry(alloc: Global, line: &[u8], count: u64) -> Result<Option<Cert2Line>, Fault>
    ensures { Reads (λ entry. entry) result (entry2_at count line.now) }
{
    let mut words = Split::of(line, b' ');
    if is_last(line) {
        parse_end(&mut words, count)?;
        return Ok(None);
    }
    Ok(Some(parse_line2(alloc, &mut words)?))
}

#[tactic(auto, unfolding(crate::specs::Steps2::entry2_step))]
fn parse_entry_line(
    alloc: Global,
    lines: &mut Lines,
    count: u64,
) -> Result<Option<Cert2Line>, CertFault>
    ensures { Finds (λ entry. (entry, lines.new)) result (entry2_step count lines.old) }
{
    let line = lines.whole()?;
    lines.judged(parse_entry(alloc, line, count))
}

fn parse_log(alloc: Global, lines: &mut Lines) -> Result<Sequence<Cert2Line>, CertFault>
    ensures { Finds (λ log. (log, lines.new)) result (log2_step 0 lines.old) }
{
    let mut log = Sequence::new(alloc);
    let mut count = 0;
    while let Some(entry) = parse_entry_line(alloc, lines, count)? {
        count += counted(&entry);
        log.push(entry)?;
    }
    Ok(log)
}

#[tactic(auto, unfolding(crate::specs::Steps2::optimal2_step))]
fn parse_optimal(alloc: Global, lines: &mut Lines) -> Result<Cert2, CertFault>
    ensures { Finds (λ cert. (cert, lines.new)) result (optimal2_step lines.old) }
{
    let point = parse_point_line(alloc, lines)?;
    let z = parse_value_line(lines)?;
    let log = parse_log(alloc, lines)?;
    Ok(Cert2::Optimal {
        point,
        z,
        lines: log,
    })
}

#[tactic(auto, unfolding(crate::specs::Steps2::infeasible2_step))]
fn parse_infeasible(alloc: Global, lines: &mut Lines) -> Result<Cert2, CertFault>
    ensures { Finds (λ cert. (cert, lines.new)) result (infeasible2_step lines.old) }
{
    let log = parse_log(alloc, lines)?;
    Ok(Cert2::Infeasible { lines: log })
}

#[tactic(auto, unfolding(crate::specs::Steps2::unbounded2_step))]
fn parse_unbounded(alloc: Global, lines: &mut Lines) -> Result<Cert2, CertFault>
    ensures { Finds (λ cert. (cert, lines.new)) result (unbounded2_step lines.old) }
{
    let piece = parse_piece_line(alloc, lines)?;
    let point = parse_point_line(alloc, lines)?;
    let ray = parse_ray_line(alloc, lines)?;
    parse_last_line(lines)?;
    Ok(Cert2::Unbounded { piece, point, ray })
}

fn parse_cert_of_kind(alloc: Global, kind: Kind, lines: &mut Lines) -> Result<Cert2, CertFault>
    ensures { Finds (λ cert. (cert, lines.new)) result (step2_of kind lines.old) }
{
    match kind {
        Kind::Optimal => parse_optimal(alloc, lines),
        Kind::Infeasible => parse_infeasible(alloc, lines),
        Kind::Unbounded => parse_unbounded(alloc, lines),
    }
}

// A certificate of form 2, behind any first line.
#[tactic(auto, unfolding(crate::specs::Steps2::cert2_at))]
fn parse_cert(alloc: Global, lines: &mut Lines) -> Result<Cert2, CertFault>
    ensures { Finds (λ cert. cert) result (cert2_at lines.old) }
{
    lines.whole()?;
    let kind = parse_kind_line(lines)?;
    let cert = parse_cert_of_kind(alloc, kind, lines)?;
    parse_text_end(lines)?;
    Ok(cert)
}

fn is_head(line: &[u8]) -> bool
    ensures { result ≡ is_head2 line.now }
{
    line == b"lpcc-certificate 2".as_slice()
}

// Whether the first content line is the head of form 2.
fn is_two(text: &[u8]) -> bool
    requires { length text.now < 2 ^ 32 - 1 }
    ensures { result ≡ is_two text.now }
{
    match Lines::of(text).next() {
        Next::Whole(line) => is_head(line),
        Next::Cut | Next::Over => false,
    }
}

fn as_one(read: Result<Cert, CertFault>) -> Result<AnyCert, CertFault>
    ensures { result ≡ as_one read }
{
    match read {
        Ok(cert) => Ok(AnyCert::One(cert)),
        Err(fault) => Err(fault),
    }
}

fn as_two(read: Result<Cert2, CertFault>) -> Result<AnyCert, CertFault>
    ensures { result ≡ as_two read }
{
    match read {
        Ok(cert) => Ok(AnyCert::Two(cert)),
        Err(fault) => Err(fault),
    }
}

/// The certificate that a text spells, of the form that its head names, or the text's first fault.
/// The time is linear in the text.
pub fn read_any(alloc: Global, text: &[u8]) -> Result<AnyCert, CertFault>
    requires { length text.now < 2 ^ 32 - 1 }

    // What is read is spelled so, and what is spelled so is read, unless memory is short.
    ensures spelled { IfOk result (λ cert. SpellsAny text.now cert) }
    ensures only { (cert : Certificate) → SpellsAny text.now cert → Gives found_by cert result }

    // The fault that is named is the text's first, and the first is named, unless memory is short.
    ensures fails { IfErr result (λ fault. FailsAnyAs fault text.now) }
    ensures only_fails { (line : ℕ) (why : Why) → FailsAny text.now line why → Refuses found_by (line, why) result }
{
    if !is_two(text) {
        return as_one(read_cert(alloc, text));
    }
    as_two(parse_cert(alloc, &mut Lines::of(text)))
}
