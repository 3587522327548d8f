//! Writing a certificate of form 2. What is pushed stands behind all that was written before.
ghost use Rattle.std.specs.Prelude.{◌≡◌, ◌≤◌, ◌++◌, ◌∷◌, [], IfOk, OnOk, codes};
ghost use Rattle.cert_write.specs.Writing.{spaced, text_line, text_lines};
ghost use Rattle.cert2_text.specs.declared.cert2.Cert2.TheVariants.{Optimal, Infeasible, Unbounded};
ghost use Rattle.cert2_text.specs.declared.cert2.Cert2Line.TheVariants.{Shared, Ray, Point, Derived, Forget};
ghost use Rattle.cert2_text.specs.Certs2.{KeepsForm2, counted};
ghost use Rattle.cert2_text.specs.Spelling2.{head2_words, list_words, line2_words, log2_words, spelling2};

use cert_text::CertPoint;
use cert_write::write::{
    push_bound, push_bytes, push_derived, push_end, push_front, push_hints, push_last_terms,
    push_number, push_piece, push_point, push_ray, push_value,
};
use cert2_text::{Cert2, Cert2Line, counted};
use nogoods::NoGood;
use std::alloc::{AllocError, Global};

// The list that a line names, with a space in front.
#[tactic(auto, unfolding(cert_write::specs::Writing::spaced))]
fn push_list(out: &mut Vec<u8>, list: Option<u64>) -> Result<(), AllocError>
    ensures { OnOk result (out.new.items ≡ out.old.items ++ spaced (list_words list)) }
{
    let Some(number) = list else {
        return Ok(());
    };
    push_bytes(out, b" @")?;
    push_number(out, u128::from(number) + 1)
}

// ---- lines

fn push_shared(out: &mut Vec<u8>, terms: &[(u32, i64)]) -> Result<(), AllocError>
    ensures { OnOk result (out.new.items ≡ out.old.items ++ text_line (line2_words (Shared terms.now))) }
{
    push_bytes(out, b"m :")?;
    push_last_terms(out, terms)
}

fn push_ray_cut(
    out: &mut Vec<u8>,
    ng: &NoGood,
    list: Option<u64>,
    terms: &[(u32, i64)],
) -> Result<(), AllocError>
    ensures { OnOk result (out.new.items ≡ out.old.items ++ text_line (line2_words (Ray ng.now list terms.now))) }
{
    push_front(out, b"i", ng)?;
    push_list(out, list)?;
    push_last_terms(out, terms)
}

fn push_point_cut(
    out: &mut Vec<u8>,
    ng: &NoGood,
    e: i64,
    list: Option<u64>,
    terms: &[(u32, i64)],
) -> Result<(), AllocError>
    ensures { OnOk result (out.new.items ≡ out.old.items ++ text_line (line2_words (Point ng.now e list terms.now))) }
{
    push_front(out, b"p", ng)?;
    push_bytes(out, b" ")?;
    push_bound(out, e)?;
    push_list(out, list)?;
    push_last_terms(out, terms)
}

fn push_forget(out: &mut Vec<u8>, lines: &[u64]) -> Result<(), AllocError>
    ensures { OnOk result (out.new.items ≡ out.old.items ++ text_line (line2_words (Forget lines.now))) }
{
    push_bytes(out, b"x")?;
    push_hints(out, lines)?;
    push_bytes(out, b"\n")
}

fn push_line(out: &mut Vec<u8>, line: &Cert2Line) -> Result<(), AllocError>
    ensures { OnOk result (out.new.items ≡ out.old.items ++ text_line (line2_words line.now)) }
{
    match line {
        Cert2Line::Shared { mult } => push_shared(out, mult.as_slice()),
        Cert2Line::Ray { ng, list, mult } => push_ray_cut(out, ng, *list, mult.as_slice()),
        Cert2Line::Point { ng, e, list, mult } => {
            push_point_cut(out, ng, *e, *list, mult.as_slice())
        }
        Cert2Line::Derived { ng, hints } => push_derived(out, ng, hints.as_slice()),
        Cert2Line::Forget { lines } => push_forget(out, lines.as_slice()),
    }
}

// The lines, and the last line.
fn push_log(out: &mut Vec<u8>, lines: &[Cert2Line]) -> Result<(), AllocError>
    ensures { OnOk result (out.new.items ≡ out.old.items ++ text_lines (log2_words lines.now)) }
{
    let mut count = 0;
    for line in lines {
        push_line(out, line)?;
        count += counted(line);
    }
    push_end(out, count)
}

// The first two lines.
fn push_kind(out: &mut Vec<u8>, kind: &[u8]) -> Result<(), AllocError>
    ensures { OnOk result (out.new.items ≡ out.old.items ++ text_lines (head2_words ∷ (kind.now ∷ []) ∷ [])) }
{
    push_bytes(out, b"lpcc-certificate 2\n")?;
    push_bytes(out, kind)?;
    push_bytes(out, b"\n")
}

// ---- certificates

fn push_optimal(
    out: &mut Vec<u8>,
    point: &CertPoint,
    z: i128,
    lines: &[Cert2Line],
) -> Result<(), AllocError>
    ensures { OnOk result (out.new.items ≡ out.old.items ++ spelling2 (Optimal point.now z lines.now)) }
{
    push_kind(out, b"optimal")?;
    push_point(out, point)?;
    push_value(out, z)?;
    push_log(out, lines)
}

fn push_infeasible(out: &mut Vec<u8>, lines: &[Cert2Line]) -> Result<(), AllocError>
    ensures { OnOk result (out.new.items ≡ out.old.items ++ spelling2 (Infeasible lines.now)) }
{
    push_kind(out, b"infeasible")?;
    push_log(out, lines)
}

fn push_unbounded(
    out: &mut Vec<u8>,
    piece: &NoGood,
    point: &CertPoint,
    ray: &[(u32, i64)],
) -> Result<(), AllocError>
    ensures { OnOk result (out.new.items ≡ out.old.items ++ spelling2 (Unbounded piece.now point.now ray.now)) }
{
    push_kind(out, b"unbounded")?;
    push_piece(out, piece)?;
    push_point(out, point)?;
    push_ray(out, ray)?;
    push_end(out, 0)
}

fn push_cert(out: &mut Vec<u8>, cert: &Cert2) -> Result<(), AllocError>
    ensures { OnOk result (out.new.items ≡ out.old.items ++ spelling2 cert.now) }
{
    match cert {
        Cert2::Optimal { point, z, lines } => push_optimal(out, point, *z, lines.as_slice()),
        Cert2::Infeasible { lines } => push_infeasible(out, lines.as_slice()),
        Cert2::Unbounded { piece, point, ray } => {
            push_unbounded(out, piece, point, ray.as_slice())
        }
    }
}

/// The one text of a certificate of form 2, without comments.
pub fn write_cert2(alloc: Global, cert: &Cert2) -> Result<Vec<u8>, AllocError>
    requires { KeepsForm2 cert.now }
    ensures { IfOk result (λ text. text.items ≡ spelling2 cert.now) }
{
    let mut text = Vec::new(alloc);
    push_cert(&mut text, cert)?;
    Ok(text)
}
