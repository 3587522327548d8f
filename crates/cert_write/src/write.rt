//! Writing a certificate. What is pushed stands behind all that was written before.
ghost use Rattle.std.specs.Prelude.{◌≡◌, ◌++◌, ◌∷◌, [], IfOk, OnOk, map, flat_map, codes};
ghost use Rattle.std.specs.Fmt.{decimal, signed_decimal};
ghost use Rattle.cert_text.specs.declared.cert.Cert.TheVariants.{Optimal, Infeasible, Unbounded};
ghost use Rattle.cert_text.specs.declared.cert.CertLine.TheVariants.{Ray, Point, Derived};
ghost use Rattle.cert_text.specs.Certs.{KeepsForm};
ghost use Rattle.cert_text.specs.Spelling.{colon, choice_word, term_words, hint_word, head_words, point_words, value_words, piece_words, ray_words, line_words, log_words, spelling};
ghost use Rattle.cert_write.specs.Writing.{spaced, text_line, text_lines};

use cert_text::{Cert, CertLine, CertPoint};
use itoa::{Buffer, Integer};
use nogoods::{Choice, NoGood, Side};
use std::alloc::{AllocError, Global};

/// Bytes as they are.
pub fn push_bytes(out: &mut Vec<u8>, bytes: &[u8]) -> Result<(), AllocError>
    ensures { OnOk result (out.new.items ≡ out.old.items ++ bytes.now) }
{
    out.extend_from_slice(bytes)
}

/// A number, in decimal.
pub fn push_number<I: Integer>(out: &mut Vec<u8>, number: I) -> Result<(), AllocError>
    ensures { OnOk result (out.new.items ≡ out.old.items ++ I.text number) }
{
    out.extend_from_slice(Buffer::new().format(number).as_bytes())
}

// ---- words, with a space in front of each

fn push_choice(out: &mut Vec<u8>, choice: Choice) -> Result<(), AllocError>
    ensures { OnOk result (out.new.items ≡ out.old.items ++ 32 ∷ choice_word choice) }
{
    push_bytes(out, b" ")?;
    push_number(out, u64::from(choice.pair) + 1)?;
    match choice.side {
        Side::A => push_bytes(out, b"a"),
        Side::B => push_bytes(out, b"b"),
    }
}

fn push_choices(out: &mut Vec<u8>, choices: &[Choice]) -> Result<(), AllocError>
    ensures { OnOk result (out.new.items ≡ out.old.items ++ spaced (map choice_word choices.now)) }
{
    for choice in choices {
        push_choice(out, *choice)?;
    }
    Ok(())
}

#[tactic(auto, unfolding(crate::specs::Writing::spaced))]
fn push_term(out: &mut Vec<u8>, term: (u32, i64)) -> Result<(), AllocError>
    ensures { OnOk result (out.new.items ≡ out.old.items ++ spaced (term_words term)) }
{
    push_bytes(out, b" ")?;
    push_number(out, u64::from(term.0) + 1)?;
    push_bytes(out, b" ")?;
    push_number(out, term.1)
}

fn push_terms(out: &mut Vec<u8>, terms: &[(u32, i64)]) -> Result<(), AllocError>
    ensures { OnOk result (out.new.items ≡ out.old.items ++ spaced (flat_map term_words terms.now)) }
{
    for term in terms {
        push_term(out, *term)?;
    }
    Ok(())
}

fn push_hint(out: &mut Vec<u8>, hint: u64) -> Result<(), AllocError>
    ensures { OnOk result (out.new.items ≡ out.old.items ++ 32 ∷ hint_word hint) }
{
    push_bytes(out, b" ")?;
    push_number(out, u128::from(hint) + 1)
}

/// Numbers of lines, with a space in front of each.
pub fn push_hints(out: &mut Vec<u8>, hints: &[u64]) -> Result<(), AllocError>
    ensures { OnOk result (out.new.items ≡ out.old.items ++ spaced (map hint_word hints.now)) }
{
    for hint in hints {
        push_hint(out, *hint)?;
    }
    Ok(())
}

// ---- parts of lines

/// The first word, choices and a colon.
pub fn push_front(out: &mut Vec<u8>, kind: &[u8], ng: &NoGood) -> Result<(), AllocError>
    ensures { OnOk result (out.new.items ≡ out.old.items ++ (kind.now ++ spaced (map choice_word ng.now ++ colon ∷ []))) }
{
    push_bytes(out, kind)?;
    push_choices(out, ng.choices())?;
    push_bytes(out, b" :")
}

/// A number and a colon.
#[tactic(auto, unfolding(crate::specs::Writing::spaced))]
pub fn push_bound(out: &mut Vec<u8>, bound: i64) -> Result<(), AllocError>
    ensures { OnOk result (out.new.items ≡ out.old.items ++ (signed_decimal bound ++ spaced (colon ∷ []))) }
{
    push_number(out, bound)?;
    push_bytes(out, b" :")
}

/// Terms up to the end of the line.
pub fn push_last_terms(out: &mut Vec<u8>, terms: &[(u32, i64)]) -> Result<(), AllocError>
    ensures { OnOk result (out.new.items ≡ out.old.items ++ (spaced (flat_map term_words terms.now) ++ 10 ∷ [])) }
{
    push_terms(out, terms)?;
    push_bytes(out, b"\n")
}

// ---- lines

fn push_ray_cut(out: &mut Vec<u8>, ng: &NoGood, terms: &[(u32, i64)]) -> Result<(), AllocError>
    ensures { OnOk result (out.new.items ≡ out.old.items ++ text_line (line_words (Ray ng.now terms.now))) }
{
    push_front(out, b"i", ng)?;
    push_last_terms(out, terms)
}

fn push_point_cut(
    out: &mut Vec<u8>,
    ng: &NoGood,
    e: i64,
    terms: &[(u32, i64)],
) -> Result<(), AllocError>
    ensures { OnOk result (out.new.items ≡ out.old.items ++ text_line (line_words (Point ng.now e terms.now))) }
{
    push_front(out, b"p", ng)?;
    push_bytes(out, b" ")?;
    push_bound(out, e)?;
    push_last_terms(out, terms)
}

/// The line of a derived no-good.
pub fn push_derived(out: &mut Vec<u8>, ng: &NoGood, hints: &[u64]) -> Result<(), AllocError>
    ensures { OnOk result (out.new.items ≡ out.old.items ++ text_line (line_words (Derived ng.now hints.now))) }
{
    push_front(out, b"d", ng)?;
    push_hints(out, hints)?;
    push_bytes(out, b"\n")
}

fn push_line(out: &mut Vec<u8>, line: &CertLine) -> Result<(), AllocError>
    ensures { OnOk result (out.new.items ≡ out.old.items ++ text_line (line_words line.now)) }
{
    match line {
        CertLine::Ray { ng, mult } => push_ray_cut(out, ng, mult.as_slice()),
        CertLine::Point { ng, e, mult } => push_point_cut(out, ng, *e, mult.as_slice()),
        CertLine::Derived { ng, hints } => push_derived(out, ng, hints.as_slice()),
    }
}

/// The last line, with the number of no-good lines.
#[tactic(auto, unfolding(crate::specs::Writing::text_line))]
pub fn push_end(out: &mut Vec<u8>, lines: u64) -> Result<(), AllocError>
    ensures { OnOk result (out.new.items ≡ out.old.items ++ text_line (codes "end" ∷ decimal lines ∷ [])) }
{
    push_bytes(out, b"end ")?;
    push_number(out, lines)?;
    push_bytes(out, b"\n")
}

// The no-good lines, and the last line.
fn push_log(out: &mut Vec<u8>, lines: &[CertLine]) -> Result<(), AllocError>
    ensures { OnOk result (out.new.items ≡ out.old.items ++ text_lines (log_words lines.now)) }
{
    for line in lines {
        push_line(out, line)?;
    }
    push_end(out, lines.len() as u64)
}

/// The line of a point.
pub fn push_point(out: &mut Vec<u8>, point: &CertPoint) -> Result<(), AllocError>
    ensures { OnOk result (out.new.items ≡ out.old.items ++ text_line (point_words point.now)) }
{
    push_bytes(out, b"point ")?;
    push_bound(out, point.d)?;
    push_last_terms(out, point.terms.as_slice())
}

/// The line of a point's value.
#[tactic(auto, unfolding(crate::specs::Writing::text_line))]
pub fn push_value(out: &mut Vec<u8>, z: i128) -> Result<(), AllocError>
    ensures { OnOk result (out.new.items ≡ out.old.items ++ text_line (value_words z)) }
{
    push_bytes(out, b"value ")?;
    push_number(out, z)?;
    push_bytes(out, b"\n")
}

/// The line of a piece.
pub fn push_piece(out: &mut Vec<u8>, piece: &NoGood) -> Result<(), AllocError>
    ensures { OnOk result (out.new.items ≡ out.old.items ++ text_line (piece_words piece.now)) }
{
    push_bytes(out, b"piece")?;
    push_choices(out, piece.choices())?;
    push_bytes(out, b"\n")
}

/// The line of a ray.
pub fn push_ray(out: &mut Vec<u8>, ray: &[(u32, i64)]) -> Result<(), AllocError>
    ensures { OnOk result (out.new.items ≡ out.old.items ++ text_line (ray_words ray.now)) }
{
    push_bytes(out, b"ray :")?;
    push_last_terms(out, ray)
}

// The first two lines.
fn push_kind(out: &mut Vec<u8>, kind: &[u8]) -> Result<(), AllocError>
    ensures { OnOk result (out.new.items ≡ out.old.items ++ text_lines (head_words ∷ (kind.now ∷ []) ∷ [])) }
{
    push_bytes(out, b"lpcc-certificate 1\n")?;
    push_bytes(out, kind)?;
    push_bytes(out, b"\n")
}

// ---- certificates

fn push_optimal(
    out: &mut Vec<u8>,
    point: &CertPoint,
    z: i128,
    lines: &[CertLine],
) -> Result<(), AllocError>
    ensures { OnOk result (out.new.items ≡ out.old.items ++ spelling (Optimal point.now z lines.now)) }
{
    push_kind(out, b"optimal")?;
    push_point(out, point)?;
    push_value(out, z)?;
    push_log(out, lines)
}

fn push_infeasible(out: &mut Vec<u8>, lines: &[CertLine]) -> Result<(), AllocError>
    ensures { OnOk result (out.new.items ≡ out.old.items ++ spelling (Infeasible lines.now)) }
{
    push_kind(out, b"infeasible")?;
    push_log(out, lines)
}

fn push_unbounded(
    out: &mut Vec<u8>,
    piece: &NoGood,
    point: &CertPoint,
    ray: &[(u32, i64)],
) -> Result<(), AllocError>
    ensures { OnOk result (out.new.items ≡ out.old.items ++ spelling (Unbounded piece.now point.now ray.now)) }
{
    push_kind(out, b"unbounded")?;
    push_piece(out, piece)?;
    push_point(out, point)?;
    push_ray(out, ray)?;
    push_end(out, 0)
}

fn push_cert(out: &mut Vec<u8>, cert: &Cert) -> Result<(), AllocError>
    ensures { OnOk result (out.new.items ≡ out.old.items ++ spelling cert.now) }
{
    match cert {
        Cert::Optimal { point, z, lines } => push_optimal(out, point, *z, lines.as_slice()),
        Cert::Infeasible { lines } => push_infeasible(out, lines.as_slice()),
        Cert::Unbounded { piece, point, ray } => push_unbounded(out, piece, point, ray.as_slice()),
    }
}

/// The one text of a certificate, without comments.
pub fn write_cert(alloc: Global, cert: &Cert) -> Result<Vec<u8>, AllocError>
    requires { KeepsForm cert.now }
    ensures { IfOk result (λ text. text.items ≡ spelling cert.now) }
{
    let mut text = Vec::new(alloc);
    push_cert(&mut text, cert)?;
    Ok(text)
}
