//! The sparsity pattern of the rows, column by column.

use simplex_numbers::Number;
use std::alloc::{AllocError, Global};

/// In which rows each column is not zero: a bit for each row, and their number.
pub struct Pattern {
    counts: Vec<u64>,
    words: Vec<u64>,
    /// How many words a column has.
    stride: usize,
}

/// By a call, which keeps the models of the functions small that own one.
impl Drop for Pattern {
    fn drop(self) {
        let Pattern {
            counts: _,
            words: _,
            stride: _,
        } = self;
    }
}

/// The place and the mask of the bit of a row.
#[inline(always)]
fn bit_of(stride: usize, row: usize, col: usize) -> (usize, u64) {
    let word = col.wrapping_mul(stride).wrapping_add(row / 64);
    (word, 1_u64.wrapping_shl((row % 64) as u32))
}

impl Pattern {
    /// That of rows that are all zero.
    pub fn zero(alloc: Global, rows: usize, columns: usize) -> Result<Pattern, AllocError> {
        let stride = (rows / 64).wrapping_add(1);
        let mut counts = Vec::with_capacity(alloc, columns)?;
        let mut words = Vec::new(alloc);
        for _ in 0..columns {
            counts.push(0_u64)?;
            for _ in 0..stride {
                words.push(0_u64)?;
            }
        }
        Ok(Pattern {
            counts,
            words,
            stride,
        })
    }

    /// In how many rows the column is not zero.
    #[inline(always)]
    pub fn count(&self, col: usize) -> u64 {
        if col < self.counts.len() {
            self.counts[col]
        } else {
            0
        }
    }

    /// An entry of a column becomes zero, or fills.
    pub fn flip(&mut self, row: usize, col: usize, fills: bool) {
        let (word, mask) = bit_of(self.stride, row, col);
        if col < self.counts.len() && word < self.words.len() {
            let count = self.counts[col];
            self.counts[col] = if fills {
                count.wrapping_add(1)
            } else {
                count.wrapping_sub(1)
            };
            self.words[word] ^= mask;
        }
    }

    /// An entry changes from an old number to a new one.
    #[inline(always)]
    pub fn change<N: Number>(&mut self, row: usize, col: usize, old: N, new: N) {
        if old.is_zero() != new.is_zero() {
            self.flip(row, col, old.is_zero());
        }
    }

    /// The rows in which the column is not zero, ascending.
    pub fn list(&self, col: usize, rows: &mut Vec<usize>) -> Result<(), AllocError> {
        rows.clear();
        let first = col.wrapping_mul(self.stride);
        for k in 0..self.stride {
            let at = first.wrapping_add(k);
            if at < self.words.len() {
                list_word(self.words[at], k.wrapping_mul(64), rows)?;
            }
        }
        Ok(())
    }
}

#[inline(always)]
fn list_word(word: u64, first: usize, rows: &mut Vec<usize>) -> Result<(), AllocError> {
    let mut left = word;
    for _ in 0..word.count_ones() {
        rows.push(first.wrapping_add(left.trailing_zeros() as usize))?;
        left &= left.wrapping_sub(1);
    }
    Ok(())
}
