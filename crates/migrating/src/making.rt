//! Making a migration, line by line.
ghost use Rattle.std.specs.Prelude.{◌≡◌, ◌∷◌, ◌++◌, ◌<◌, ◌^◌, [], IfOk, OnOk, length};
ghost use Rattle.cert_text.specs.Certs.{KeepsForm, lines_of};
ghost use Rattle.cert2_text.specs.Certs2.{KeepsForm2, count_of, lines2_of};
ghost use Rattle.migrating.specs.Migration.{drop_line, migrated, migrated_lines};
ghost use Rattle.migrating.specs.Making.{list_in_front, list_named, lists_and, made_line, made_lists, own_terms};

use crate::hinting::dropped_lines;
use crate::lists::{Lists, Term};
use crate::sharing::shared_lists;
use cert_text::{Cert, CertLine, CertPoint};
use cert2_text::{Cert2, Cert2Line};
use lp_base::Sequence;
use nogoods::NoGood;
use std::alloc::{AllocError, Global};

// A migration so far: its lists and its lines.
#[derive(Drop)]
struct Made<'a> {
    lists: Lists<'a>,
    lines: Sequence<Cert2Line>,
}

fn copy_terms(alloc: Global, terms: &[Term]) -> Result<Sequence<Term>, AllocError>
    ensures { IfOk result (λ copy. copy ≡ terms.now) }
{
    Ok(Sequence::of_vec(Vec::from_slice(alloc, terms)?))
}

fn copy_numbers(alloc: Global, numbers: &[u64]) -> Result<Sequence<u64>, AllocError>
    ensures { IfOk result (λ copy. copy ≡ numbers.now) }
{
    Ok(Sequence::of_vec(Vec::from_slice(alloc, numbers)?))
}

fn copy_point(alloc: Global, point: &CertPoint) -> Result<CertPoint, AllocError>
    ensures { IfOk result (λ copy. copy ≡ point.now) }
{
    let terms = point.terms.copy(alloc)?;
    Ok(CertPoint { d: point.d, terms })
}

// Makes a list of multipliers that are shared, unless they are one.
fn put_list<'a>(
    alloc: Global,
    shared: &Lists<'a>,
    made: &mut Made<'a>,
    mult: &'a [Term],
) -> Result<(), AllocError>
    ensures lists { OnOk result (made.new.lists ≡ lists_and shared.now made.old.lists mult.now) }
    ensures lines { OnOk result (made.new.lines ≡ made.old.lines ++ list_in_front shared.now made.old.lists mult.now) }
{
    if !shared.has(mult) || made.lists.has(mult) {
        return Ok(());
    }
    made.lists.add(mult)?;
    made.lines.push(Cert2Line::Shared {
        mult: copy_terms(alloc, mult)?,
    })
}

// The number of the list that a cut of these multipliers names.
fn list_of<'a>(shared: &Lists<'a>, lists: &Lists<'a>, mult: &'a [Term]) -> Option<u64>
    ensures { result ≡ list_named shared.now lists.now mult.now }
{
    if shared.has(mult) {
        Some(lists.place(mult) as u64)
    } else {
        None
    }
}

// The terms of a cut besides those of the list that it names.
fn terms_beside(
    alloc: Global,
    list: Option<u64>,
    mult: &[Term],
) -> Result<Sequence<Term>, AllocError>
    ensures { IfOk result (λ own. own ≡ own_terms list mult.now) }
{
    match list {
        Some(_) => Ok(Sequence::new(alloc)),
        None => copy_terms(alloc, mult),
    }
}

fn put_ray<'a>(
    alloc: Global,
    shared: &Lists<'a>,
    made: &mut Made<'a>,
    ng: &NoGood,
    mult: &'a [Term],
) -> Result<(), AllocError>
    ensures lists { OnOk result (made.new.lists ≡ made_lists shared.now made.old.lists (CertLine.Ray ng.now mult.now)) }
    ensures lines { OnOk result (made.new.lines ≡ made.old.lines ++ made_line shared.now made.old.lists (CertLine.Ray ng.now mult.now) []) }
{
    let list = list_of(shared, &made.lists, mult);
    put_list(alloc, shared, made, mult)?;
    made.lines.push(Cert2Line::Ray {
        ng: ng.copy(alloc)?,
        list,
        mult: terms_beside(alloc, list, mult)?,
    })
}

fn put_point<'a>(
    alloc: Global,
    shared: &Lists<'a>,
    made: &mut Made<'a>,
    ng: &NoGood,
    e: i64,
    mult: &'a [Term],
) -> Result<(), AllocError>
    ensures lists { OnOk result (made.new.lists ≡ made_lists shared.now made.old.lists (CertLine.Point ng.now e mult.now)) }
    ensures lines { OnOk result (made.new.lines ≡ made.old.lines ++ made_line shared.now made.old.lists (CertLine.Point ng.now e mult.now) []) }
{
    let list = list_of(shared, &made.lists, mult);
    put_list(alloc, shared, made, mult)?;
    made.lines.push(Cert2Line::Point {
        ng: ng.copy(alloc)?,
        e,
        list,
        mult: terms_beside(alloc, list, mult)?,
    })
}

// A derived line, and behind it the lines that are dropped.
fn put_derived(
    alloc: Global,
    lines: &mut Sequence<Cert2Line>,
    ng: &NoGood,
    hints: &[u64],
    dropped: &[u64],
) -> Result<(), AllocError>
    ensures { OnOk result (lines.new ≡ lines.old ++ Cert2Line.Derived ng.now hints.now ∷ drop_line dropped.now) }
{
    lines.push(Cert2Line::Derived {
        ng: ng.copy(alloc)?,
        hints: copy_numbers(alloc, hints)?,
    })?;
    if dropped.is_empty() {
        return Ok(());
    }
    lines.push(Cert2Line::Forget {
        lines: copy_numbers(alloc, dropped)?,
    })
}

// A line, over the lists that are shared, with the lines that are dropped behind it.
fn put_line<'a>(
    alloc: Global,
    shared: &Lists<'a>,
    made: &mut Made<'a>,
    line: &'a CertLine,
    dropped: &[u64],
) -> Result<(), AllocError>
    ensures lists { OnOk result (made.new.lists ≡ made_lists shared.now made.old.lists line.now) }
    ensures lines { OnOk result (made.new.lines ≡ made.old.lines ++ made_line shared.now made.old.lists line.now dropped.now) }
{
    match line {
        CertLine::Ray { ng, mult } => put_ray(alloc, shared, made, ng, mult.as_slice()),
        CertLine::Point { ng, e, mult } => {
            put_point(alloc, shared, made, ng, *e, mult.as_slice())
        }
        CertLine::Derived { ng, hints } => {
            put_derived(alloc, &mut made.lines, ng, hints.as_slice(), dropped)
        }
    }
}

// The lines of a migration.
fn migrate_lines(alloc: Global, lines: &[CertLine]) -> Result<Sequence<Cert2Line>, AllocError>
    ensures { IfOk result (λ made. made ≡ migrated_lines lines.now) }
{
    let shared = shared_lists(alloc, lines)?;
    let dropped = dropped_lines(alloc, lines)?;
    let mut made = Made {
        lists: Lists::new(alloc),
        lines: Sequence::new(alloc),
    };
    for (at, line) in lines.iter().enumerate() {
        put_line(alloc, &shared, &mut made, line, dropped[at].as_slice())?;
    }
    Ok(made.lines)
}

// The number of no-good lines.
fn line_count(cert: &Cert) -> usize
    ensures value { result ≡ length (lines_of cert.now) }
    ensures few { result < 2 ^ 64 }
{
    match cert {
        Cert::Optimal { lines, .. } | Cert::Infeasible { lines } => lines.len(),
        Cert::Unbounded { .. } => 0,
    }
}

fn make(alloc: Global, cert: &Cert) -> Result<Cert2, AllocError>
    ensures { IfOk result (λ made. made ≡ migrated cert.now) }
{
    match cert {
        Cert::Optimal { point, z, lines } => Ok(Cert2::Optimal {
            point: copy_point(alloc, point)?,
            z: *z,
            lines: migrate_lines(alloc, lines.as_slice())?,
        }),
        Cert::Infeasible { lines } => Ok(Cert2::Infeasible {
            lines: migrate_lines(alloc, lines.as_slice())?,
        }),
        Cert::Unbounded { piece, point, ray } => Ok(Cert2::Unbounded {
            piece: piece.copy(alloc)?,
            point: copy_point(alloc, point)?,
            ray: ray.copy(alloc)?,
        }),
    }
}

/// The certificate in form 2: multipliers of four or more terms that stand whole in several cuts are
/// a list, which stands directly before the first of these, and each line is dropped behind the last
/// line that hints at it. It takes as much memory as the certificate, and a few words for each line;
/// the time is linear in the certificate, as far as the hashes of its multipliers differ.
pub fn migrate(alloc: Global, cert: &Cert) -> Result<Cert2, AllocError>
    requires { KeepsForm cert.now }
    ensures migrated { IfOk result (λ made. made ≡ migrated cert.now) }
    ensures form { IfOk result KeepsForm2 }
    ensures few { IfOk result (λ made. count_of (lines2_of made) < 2 ^ 64) }
{
    // Lines in memory are counted in one word.
    let _count = line_count(cert);
    make(alloc, cert)
}
