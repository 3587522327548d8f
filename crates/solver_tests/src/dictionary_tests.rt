//! Pivots there and back.
ghost use Rattle.std.specs.Prelude.{◌≡◌, ◌≢◌, ◌≤◌, ◌<◌, pos, length, All, IfOk};
ghost use Rattle.lpcc_case.specs.Cases.{FitsCase, IsConstraint};

use dict::{Dict, PivotFault};
use lp_base::Sequence;
use lpcc_case::{Case, Constraint, Form, Kind};
use sense::Sense;
use std::alloc::{AllocError, Global};
use std::test::Fail;

const LARGE: i64 = 1 << 52;

/// The number, or 1 where a case may not hold it.
fn fitting(z: i64) -> i64
    ensures fits { FitsCase result }
    ensures some { result ≢ pos 0 }
{
    if z == 0 || z > LARGE || z < -LARGE {
        1
    } else {
        z
    }
}

/// a x >= right.
fn in_one(alloc: Global, a: i64, right: bool) -> Result<Constraint, AllocError>
    ensures { IfOk result (IsConstraint 1) }
{
    let terms: Vec<(u32, i64)> = vec![in alloc; (0, fitting(a))]?;
    Ok(Constraint {
        kind: Kind::Ge,
        terms: Sequence::of_vec(terms),
        rhs: if right { 1 } else { 0 },
    })
}

/// a x + b y = right.
fn in_two(alloc: Global, a: i64, b: i64, right: i64) -> Result<Constraint, AllocError>
    ensures { IfOk result (IsConstraint 2) }
{
    let terms: Vec<(u32, i64)> = vec![in alloc; (0, fitting(a)), (1, fitting(b))]?;
    Ok(Constraint {
        kind: Kind::Eq,
        terms: Sequence::of_vec(terms),
        rhs: fitting(right),
    })
}

/// Minimise x over two constraints.
fn case_of(
    alloc: Global,
    cost: Sequence<i64>,
    columns: u32,
    first: Constraint,
    second: Constraint,
) -> Result<Case, AllocError>
    requires few { columns ≤ 2 }
    requires size { length cost ≡ columns }
    requires costs { All FitsCase cost }
    requires first { IsConstraint columns first }
    requires second { IsConstraint columns second }
{
    let mut constraints: Sequence<Constraint> = Sequence::new(alloc);
    constraints.push(first)?;
    constraints.push(second)?;
    Ok(Case::of_parts(
        columns,
        cost,
        1,
        0,
        Sense::Min,
        constraints,
        Sequence::new(alloc),
    ))
}

/// The numbers of all rows: the denominator, the constant, then each entry.
fn numbers(alloc: Global, dict: &Dict) -> Result<Vec<i64>, AllocError> {
    let mut all: Vec<i64> = Vec::new(alloc);
    for row in 0..dict.rows() {
        all.push(dict.denominator(row))?;
        all.push(dict.constant(row))?;
        for col in 0..dict.columns() {
            all.push(dict.entry(row, col))?;
        }
    }
    Ok(all)
}

/// What a pivot answers, with the place of a number that is not narrow. It is not made over an
/// entry that is zero.
fn pivot(dict: &mut Dict, row: u32, col: u32) -> (&'static str, u32, u32) {
    if row >= dict.rows() || col >= dict.columns() || dict.entry(row, col) == 0 {
        return ("zero", 0, 0);
    }
    match dict.pivot(row, col) {
        Ok(()) => ("made", row, col),
        Err(PivotFault::Wide(wide)) => ("wide", wide.at_row, wide.at_col),
        Err(PivotFault::NoMemory(_)) => ("memory", 0, 0),
    }
}

// Minimise x over 3x >= 1 and x >= 0, there and back.
#[test]
fn pivots_and_back(rt: HostRuntime) -> Result<(), Fail> {
    let alloc = rt.alloc();
    let cost = Sequence::of_vec(vec![in alloc; 1]?);
    let case = case_of(
        alloc,
        cost,
        1,
        in_one(alloc, 3, true)?,
        in_one(alloc, 1, false)?,
    )?;
    let mut dict = Dict::start(alloc, &case)?;
    let start = [1, -1, 3, 1, 0, 1, 1, 0, 1];
    let after = [3, 1, 1, 3, 1, 1, 3, 1, 1];
    assert_eq!(rt; numbers(alloc, &dict)?.as_slice(), start.as_slice());
    assert_eq!(rt; pivot(&mut dict, 0, 0), ("made", 0, 0));
    assert_eq!(rt; numbers(alloc, &dict)?.as_slice(), after.as_slice());
    assert_eq!(rt; pivot(&mut dict, 0, 0), ("made", 0, 0));
    assert_eq!(rt; numbers(alloc, &dict)?.as_slice(), start.as_slice());
    Ok(())
}

// The product of two numbers near 2^52 is not narrow.
#[test]
fn tells_a_wide_row(rt: HostRuntime) -> Result<(), Fail> {
    let alloc = rt.alloc();
    let cost = Sequence::of_vec(vec![in alloc; 1, 0]?);
    let first = in_two(alloc, 4503599627370495, 1, 1)?;
    let second = in_two(alloc, 1, 4503599627370494, 1)?;
    let case = case_of(alloc, cost, 2, first, second)?;
    let mut dict = Dict::start(alloc, &case)?;
    let before = numbers(alloc, &dict)?;
    assert_eq!(rt; pivot(&mut dict, 0, 0), ("wide", 1, 1));
    assert_eq!(rt; numbers(alloc, &dict)?.as_slice(), before.as_slice());
    Ok(())
}

fn next(seed: &mut u64) -> u64 {
    *seed = seed
        .wrapping_mul(6364136223846793005)
        .wrapping_add(1442695040888963407);
    *seed >> 33
}

/// The numbers of the constraints a x + b y = p and c x + d y = q.
#[derive(Clone, Copy)]
struct Sample {
    a: i64,
    b: i64,
    p: i64,
    c: i64,
    d: i64,
    q: i64,
}

fn small(seed: &mut u64) -> i64 {
    fitting((next(seed) % 19) as i64 - 9)
}

fn some_sample(seed: &mut u64) -> Sample {
    Sample {
        a: small(seed),
        b: small(seed),
        p: small(seed),
        c: small(seed),
        d: small(seed),
        q: small(seed),
    }
}

fn linear(a: i64, x: i128, b: i64, y: i128, right: i64) -> i128 {
    i128::from(a)
        .wrapping_mul(x)
        .wrapping_add(i128::from(b).wrapping_mul(y))
        .wrapping_sub(i128::from(right))
}

/// What a form is worth at a point.
fn worth(sample: Sample, form: Form, x: i128, y: i128) -> i128 {
    match form {
        Form::Col(0) => x,
        Form::Col(_) => y,
        Form::Con(0) => linear(sample.a, x, sample.b, y, sample.p),
        Form::Con(_) => linear(sample.c, x, sample.d, y, sample.q),
        Form::Cost => x,
    }
}

/// Whether each row holds at the point.
fn holds(dict: &Dict, sample: Sample, x: i128, y: i128) -> bool {
    for row in 0..dict.rows() {
        let mut right = i128::from(dict.constant(row));
        for col in 0..dict.columns() {
            let form = worth(sample, dict.nonbasic(col), x, y);
            right = right.wrapping_add(i128::from(dict.entry(row, col)).wrapping_mul(form));
        }
        let left = i128::from(dict.denominator(row)).wrapping_mul(worth(
            sample,
            dict.basic(row),
            x,
            y,
        ));
        if left != right {
            return false;
        }
    }
    true
}

// Walks of ten exchanges and back: each row is an identity on the way, and the start comes again.
#[test]
fn walks_and_back(rt: HostRuntime) -> Result<(), Fail> {
    let alloc = rt.alloc();
    let mut seed: u64 = 7;
    for _ in 0..20u32 {
        let sample = some_sample(&mut seed);
        let cost = Sequence::of_vec(vec![in alloc; 1, 0]?);
        let first = in_two(alloc, sample.a, sample.b, sample.p)?;
        let second = in_two(alloc, sample.c, sample.d, sample.q)?;
        let case = case_of(alloc, cost, 2, first, second)?;
        let mut dict = Dict::start(alloc, &case)?;
        let start = numbers(alloc, &dict)?;
        let mut made: Vec<(u32, u32)> = Vec::new(alloc);
        for _ in 0..10u32 {
            let row = (next(&mut seed) % 3) as u32;
            let col = (next(&mut seed) % 2) as u32;
            if pivot(&mut dict, row, col).0 == "made" {
                made.push((row, col))?;
            }
            for (x, y) in [(0, 0), (1, 0), (0, 1), (5, -3)] {
                assert!(rt; holds(&dict, sample, x, y), "{seed} {x} {y}");
            }
        }
        while let Some((row, col)) = made.pop() {
            assert_eq!(rt; pivot(&mut dict, row, col), ("made", row, col));
        }
        assert_eq!(rt; numbers(alloc, &dict)?.as_slice(), start.as_slice());
    }
    Ok(())
}
