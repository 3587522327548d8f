//! Loops over the numbers of a row that are not zero, by a bit set of these, word by word.

use simplex_numbers::Number;
use std::alloc::{AllocError, Global};

const BITS: usize = 64;

/// The place of the lowest bit of a word, and the word without it.
#[inline(always)]
fn lowest(first: usize, word: u64) -> (usize, u64) {
    let k = first.wrapping_add(word.trailing_zeros() as usize);
    (k, word & word.wrapping_sub(1))
}

/// The bit set of the numbers that are not zero.
pub fn bits_of<N: Number>(alloc: Global, numbers: &[N]) -> Result<Vec<u64>, AllocError> {
    let mut bits = Vec::with_capacity(alloc, (numbers.len() / BITS).wrapping_add(1))?;
    for _ in 0..(numbers.len() / BITS).wrapping_add(1) {
        bits.push(0_u64)?;
    }
    for (k, x) in numbers.iter().enumerate() {
        if !x.is_zero() {
            toggle(bits.as_mut_slice(), k);
        }
    }
    Ok(bits)
}

/// Turns a bit.
#[inline(always)]
pub fn toggle(bits: &mut [u64], k: usize) {
    let word = k / BITS;
    if word < bits.len() {
        bits[word] ^= 1_u64.wrapping_shl((k % BITS) as u32);
    }
}

#[inline(always)]
fn multiply_word<N: Number>(numbers: &mut [N], first: usize, word: u64, factor: N) {
    let mut left = word;
    for _ in 0..word.count_ones() {
        let (k, rest) = lowest(first, left);
        left = rest;
        if k < numbers.len() {
            numbers[k] = numbers[k].times(factor);
        }
    }
}

/// Multiplies the numbers.
#[inline(always)]
pub fn multiply<N: Number>(numbers: &mut [N], bits: &[u64], factor: N) {
    for (w, word) in bits.iter().enumerate() {
        multiply_word(numbers, w.wrapping_mul(BITS), *word, factor);
    }
}

#[inline(always)]
fn join_word<N: Number>(numbers: &[N], first: usize, word: u64, start: N) -> N {
    let mut magnitude = start;
    let mut left = word;
    for _ in 0..word.count_ones() {
        let (k, rest) = lowest(first, left);
        left = rest;
        if k < numbers.len() {
            magnitude = magnitude.join(numbers[k].size());
        }
    }
    magnitude
}

/// The sizes of the numbers, joined.
pub fn magnitude_of<N: Number>(numbers: &[N], bits: &[u64]) -> N {
    let mut magnitude = N::of(0);
    for (w, word) in bits.iter().enumerate() {
        magnitude = join_word(numbers, w.wrapping_mul(BITS), *word, magnitude);
    }
    magnitude
}

#[inline(always)]
fn divide_word<N: Number>(
    numbers: &mut [N],
    first: usize,
    word: u64,
    divisor: N::Divisor,
    start: N,
) -> N {
    let mut magnitude = start;
    let mut left = word;
    for _ in 0..word.count_ones() {
        let (k, rest) = lowest(first, left);
        left = rest;
        if k < numbers.len() {
            let new = numbers[k].divided(divisor);
            numbers[k] = new;
            magnitude = magnitude.join(new.size());
        }
    }
    magnitude
}

/// Divides the numbers, and gives the sizes of the quotients, joined.
pub fn divide<N: Number>(numbers: &mut [N], bits: &[u64], divisor: N::Divisor) -> N {
    let mut magnitude = N::of(0);
    for (w, word) in bits.iter().enumerate() {
        magnitude = divide_word(numbers, w.wrapping_mul(BITS), *word, divisor, magnitude);
    }
    magnitude
}

/// The greatest common divisor of a size above 0, with its divisor, and the numbers of a word.
#[inline(always)]
fn common_of_word<N: Number>(
    start: N,
    by: N::Divisor,
    numbers: &[N],
    first: usize,
    word: u64,
) -> N {
    let mut common = start;
    let mut divisor = by;
    let mut left = word;
    for _ in 0..word.count_ones() {
        let (k, rest) = lowest(first, left);
        left = rest;
        if k < numbers.len() && !numbers[k].is_divided(divisor) {
            common = common.gcd(numbers[k]);
            divisor = common.divisor();
        }
    }
    common
}

/// The greatest common divisor of a size above 0 and the numbers.
pub fn common_divisor<N: Number>(start: N, numbers: &[N], bits: &[u64]) -> N {
    let mut common = start;
    let mut divisor = start.divisor();
    for (w, word) in bits.iter().enumerate() {
        let next = common_of_word(common, divisor, numbers, w.wrapping_mul(BITS), *word);
        if common.is_above(next) {
            common = next;
            if common.is_one() {
                break;
            }
            divisor = common.divisor();
        }
    }
    common
}
