//! Sets of sides of pairs, as bits: two for each pair, that of side A first. They only select which
//! known points are tested, so nothing is claimed of them.
use lpcc_case::{Case, Constraint, Point};
use nogoods::{NoGood, Side};
use std::alloc::{AllocError, Global};

/// Whether the left side at these numbers differs from d times the right side.
fn is_loose(constraint: &Constraint, numbers: &[i64], d: i64) -> bool {
    let mut sum = 0_i128;
    for term in constraint.terms.as_slice() {
        let j = term.0 as usize;
        if j < numbers.len() {
            sum = sum.wrapping_add(i128::from(term.1).wrapping_mul(i128::from(numbers[j])));
        }
    }
    sum != i128::from(constraint.rhs).wrapping_mul(i128::from(d))
}

fn is_loose_at(case: &Case, number: u32, point: &Point) -> bool {
    match case.constraints().get(number as usize) {
        Some(constraint) => is_loose(constraint, point.x.as_slice(), point.d),
        None => false,
    }
}

/// Sets the bit of a side.
fn mark(words: &mut [u64], pair: usize, side: Side) {
    let bit = match side {
        Side::A => pair.wrapping_mul(2),
        Side::B => pair.wrapping_mul(2).wrapping_add(1),
    };
    let word = bit / 64;
    if word < words.len() {
        words[word] |= 1_u64.wrapping_shl((bit % 64) as u32);
    }
}

/// The empty set of sides of so many pairs.
fn no_sides(alloc: Global, pairs: usize) -> Result<Vec<u64>, AllocError> {
    let mut words = Vec::new(alloc);
    for _ in 0..=pairs / 32 {
        words.push(0_u64)?;
    }
    Ok(words)
}

/// The sides that are loose at the point.
pub fn loose_sides(alloc: Global, case: &Case, point: &Point) -> Result<Vec<u64>, AllocError> {
    let mut words = no_sides(alloc, case.pairs().len())?;
    for (k, pair) in case.pairs().iter().enumerate() {
        if is_loose_at(case, pair.0, point) {
            mark(words.as_mut_slice(), k, Side::A);
        }
        if is_loose_at(case, pair.1, point) {
            mark(words.as_mut_slice(), k, Side::B);
        }
    }
    Ok(words)
}

/// The sides of the choices.
pub fn sides_of(alloc: Global, case: &Case, choices: &NoGood) -> Result<Vec<u64>, AllocError> {
    let mut words = no_sides(alloc, case.pairs().len())?;
    for choice in choices.choices() {
        mark(words.as_mut_slice(), choice.pair as usize, choice.side);
    }
    Ok(words)
}

/// Whether a side is in both sets.
pub fn have_common(a: &[u64], b: &[u64]) -> bool {
    a.iter().zip(b).any(|(x, y)| *x & *y != 0)
}
