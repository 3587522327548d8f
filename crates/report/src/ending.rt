//! How a run of the solver ends.
ghost use Rattle.std.specs.Prelude.{◌≡◌, ◌<◌, ◌+◌, ◌-◌, ◌^◌, ◌≤◌, ◌≤ℤ◌, ◌++◌, ◌∷◌, [], IfOk, OnOk, length, pos, string_bytes, unsigned_abs};
ghost use Rattle.lpcc_case.specs.Values.{IsValue};
ghost use Rattle.cert_text.specs.Certs.{KeepsForm};
ghost use Rattle.cert_text.specs.Spelling.{choice_word};
ghost use Rattle.cert_check.specs.Acceptance.{Claims};
ghost use Rattle.cert2_text.specs.Spelling2.{spelling2};
ghost use Rattle.migrating.specs.Migration.{migrated};
ghost use Rattle.report.specs.Endings.{CanBeWritten, IsTextOf, certificate_text, choices_text, comments, drawn_line, overflow_text, piece_text, pieces_text, pivots_text, status_of, verdict_line, verdict_text};

use crate::forms::{form_text, push_forms};
use crate::style::Style;
use cert_text::Cert;
use cert_write::write_cert;
use cert2_write::write_cert2;
use cuts::{SpentAt, WideAt};
use lp_base::Sequence;
use lp_nums::Frac;
use lpcc_case::{Case, Point, Verdict, value_of};
use migrating::migrate;
use nogoods::{Piece, Side};
use play::Ending;
use std::alloc::{AllocError, Global};

// The choice of this side for the pair of this number, which is counted from 0.
fn choice_text(alloc: Global, pair: u64, side: Side) -> Result<String, AllocError>
    requires { pair < 2 ^ 64 - 1 }
    ensures { IfOk result (λ text. string_bytes text ≡ choice_word (record { pair = pair; side = side })) }
{
    let number = pair + 1;
    match side {
        Side::A => format!(in alloc; "{number}a"),
        Side::B => format!(in alloc; "{number}b"),
    }
}

fn push_choices(
    text: &mut String,
    alloc: Global,
    pair: u64,
    sides: &[Side],
) -> Result<(), AllocError>
    requires { pair + length sides.now < 2 ^ 64 }
    ensures { OnOk result (string_bytes text.new ≡ string_bytes text.old ++ choices_text pair sides.now) }
{
    match sides {
        [] => Ok(()),
        [side] => text.push_str(choice_text(alloc, pair, *side)?.as_str()),
        [side, rest @ ..] => {
            text.push_str(choice_text(alloc, pair, *side)?.as_str())?;
            text.push(' ')?;
            push_choices(text, alloc, pair + 1, rest)
        },
    }
}

fn push_piece(text: &mut String, alloc: Global, piece: &Piece) -> Result<(), AllocError>
    ensures { OnOk result (string_bytes text.new ≡ string_bytes text.old ++ piece_text piece.now) }
{
    match piece.sides() {
        [] => text.push('-'),
        sides => push_choices(text, alloc, 0, sides),
    }
}

fn text_of_overflow(alloc: Global, piece: &Piece, at: &WideAt) -> Result<String, AllocError>
    ensures { IfOk result (λ text. string_bytes text ≡ overflow_text piece.now at.now) }
{
    let mut text = String::from_str(alloc, "overflow piece ")?;
    push_piece(&mut text, alloc, piece)?;
    text.push_str(format!(in alloc; " pivots {} forms ", at.pivots)?.as_str())?;
    push_forms(&mut text, alloc, at.forms.as_slice())?;
    text.push('\n')?;
    Ok(text)
}

fn text_of_pivots(alloc: Global, piece: &Piece, at: SpentAt) -> Result<String, AllocError>
    ensures { IfOk result (λ text. string_bytes text ≡ pivots_text piece.now at) }
{
    let mut text = format!(in alloc; "budget pivots {} piece ", at.pivots)?;
    push_piece(&mut text, alloc, piece)?;
    text.push_str(" stage ")?;
    text.push_str(form_text(alloc, at.stage)?.as_str())?;
    text.push('\n')?;
    Ok(text)
}

fn text_of_pieces(alloc: Global, drawn: u64, left: &Piece) -> Result<String, AllocError>
    ensures { IfOk result (λ text. string_bytes text ≡ pieces_text drawn left.now) }
{
    let mut text = format!(in alloc; "budget pieces {drawn} left ")?;
    push_piece(&mut text, alloc, left)?;
    text.push('\n')?;
    Ok(text)
}

// The value of a point with this denominator and this cost times it.
fn value_at(alloc: Global, case: &Case, d: i64, z: i128) -> Frac
    requires positive { pos 1 ≤ℤ d }
    requires room { unsigned_abs z ≤ 2 ^ 126 }
    ensures { IsValue case.now z d result }
{
    let point = Point {
        d,
        x: Sequence::new(alloc),
        z,
    };
    value_of(case, &point)
}

// The verdict that the certificate claims.
fn claimed(alloc: Global, case: &Case, cert: &Cert) -> Verdict
    requires { KeepsForm cert.now }
    ensures { Claims case.now cert.now result }
{
    match cert {
        Cert::Optimal { point, z, .. } => Verdict::Optimal(value_at(alloc, case, point.d, *z)),
        Cert::Infeasible { .. } => Verdict::Infeasible,
        Cert::Unbounded { .. } => Verdict::Unbounded,
    }
}

// The line of a verdict, which a certificate takes for a comment.
fn verdict_comment(alloc: Global, verdict: Verdict) -> Result<String, AllocError>
    ensures { IfOk result (λ text. string_bytes text ≡ verdict_line verdict ++ 10 ∷ []) }
{
    match verdict {
        Verdict::Optimal(value) => format!(in alloc; "* optimal {value}\n"),
        Verdict::Infeasible => String::from_str(alloc, "* infeasible\n"),
        Verdict::Unbounded => String::from_str(alloc, "* unbounded\n"),
    }
}

// The line with the number of draws, another comment.
fn drawn_comment(alloc: Global, drawn: u64) -> Result<String, AllocError>
    ensures { IfOk result (λ text. string_bytes text ≡ drawn_line drawn ++ 10 ∷ []) }
{
    format!(in alloc; "* drawn {drawn}\n")
}

fn text_of_comments(alloc: Global, verdict: Verdict, drawn: u64) -> Result<String, AllocError>
    ensures { IfOk result (λ text. string_bytes text ≡ comments verdict drawn) }
{
    let mut text = verdict_comment(alloc, verdict)?;
    text.push_str(drawn_comment(alloc, drawn)?.as_str())?;
    Ok(text)
}

// The text of the certificate in form 2.
fn text_in_form_2(alloc: Global, cert: &Cert) -> Result<Vec<u8>, AllocError>
    requires { KeepsForm cert.now }
    ensures { IfOk result (λ text. text.items ≡ spelling2 (migrated cert.now)) }
{
    let made = migrate(alloc, cert)?;
    write_cert2(alloc, &made)
}

// The text of the certificate, if there is to be one.
fn text_of_certificate(alloc: Global, style: Style, cert: &Cert) -> Result<Vec<u8>, AllocError>
    requires { KeepsForm cert.now }
    ensures { IfOk result (λ text. text.items ≡ certificate_text style cert.now) }
{
    match style {
        Style::Brief => Ok(Vec::new(alloc)),
        Style::One => write_cert(alloc, cert),
        Style::Two => text_in_form_2(alloc, cert),
    }
}

fn text_of_verdict(
    alloc: Global,
    verdict: Verdict,
    drawn: u64,
    style: Style,
    cert: &Cert,
) -> Result<Vec<u8>, AllocError>
    requires { KeepsForm cert.now }
    ensures { IfOk result (λ text. text.items ≡ verdict_text verdict drawn style cert.now) }
{
    let mut text = text_of_comments(alloc, verdict, drawn)?.into_bytes();
    text.extend_from_slice(text_of_certificate(alloc, style, cert)?.as_slice())?;
    Ok(text)
}

/// The whole text of an ending of a run over the case: that of a verdict is two comment lines with
/// its value and the number of pieces drawn, and behind them the certificate in its form, unless it
/// is to be brief; every other one is a line that names what happened.
///
/// # Errors
///
/// Want of memory alone.
pub fn text_of(
    alloc: Global,
    case: &Case,
    ending: &Ending,
    style: Style,
) -> Result<Vec<u8>, AllocError>
    requires { CanBeWritten ending.now }
    ensures { IfOk result (λ text. IsTextOf case.now style ending.now text.items) }
{
    match ending {
        Ending::Verdict { cert, drawn } => {
            text_of_verdict(alloc, claimed(alloc, case, cert), *drawn, style, cert)
        },
        Ending::Overflow { piece, at } => Ok(text_of_overflow(alloc, piece, at)?.into_bytes()),
        Ending::PivotsSpent { piece, at } => Ok(text_of_pivots(alloc, piece, *at)?.into_bytes()),
        Ending::PiecesSpent { drawn, left } => Ok(text_of_pieces(
            alloc, *drawn, left,
        )?.into_bytes()),
        Ending::NoMemory => Ok(String::from_str(alloc, "no memory\n")?.into_bytes()),
    }
}

/// The status that a program ends with where the text was written. It takes no memory.
pub fn status_of(ending: &Ending) -> u8
    ensures { result ≡ status_of ending.now }
{
    match ending {
        Ending::Verdict { .. } => 0,
        Ending::Overflow { .. } => 7,
        Ending::PivotsSpent { .. } | Ending::PiecesSpent { .. } => 8,
        Ending::NoMemory => 6,
    }
}
