//! Rows of the dictionary, and the operations on them that take the time.

use crate::pattern::Pattern;
use crate::words::{bits_of, common_divisor, divide, magnitude_of, multiply, toggle};
use simplex_numbers::Number;
use std::alloc::{AllocError, Global};

/// A row below this magnitude keeps its common divisor.
const WORTH_REDUCING: i64 = 1 << 24;

/// By how many bits the magnitude of a row grows before its common divisor is taken out.
const GROWTH: u32 = 6;

/// `den` times the row's variable is the constant and the sum of the entries, each times the
/// variable of its column.
pub struct Row<N> {
    pub entries: Vec<N>,
    /// A bit for each entry that is not zero.
    nonzero: Vec<u64>,
    pub constant: N,
    pub den: N,
    /// At least the size of each number: the sizes joined, or more.
    pub magnitude: N,
    /// The magnitude when the common divisor was last taken out.
    pub reduced_magnitude: N,
    /// The variable that is basic here.
    pub variable: usize,
}

/// By a call, which keeps the models of the functions small that own one.
impl<N: Drop> Drop for Row<N> {
    fn drop(self) {
        let Row {
            entries: _,
            nonzero: _,
            constant: _,
            den: _,
            magnitude: _,
            reduced_magnitude: _,
            variable: _,
        } = self;
    }
}

/// The row of the variable that leaves, as the other rows need it. Its terms stand beside it.
#[derive(Clone, Copy)]
pub struct PivotRow<N> {
    /// The column of the variable that enters.
    pub col: usize,
    /// The row's entry there.
    pub entry: N,
    pub constant: N,
    pub den: N,
    pub magnitude: N,
}

/// A row becomes `own` times itself less `other` times the pivot's row.
#[derive(Clone, Copy)]
struct Factors<N> {
    own: N,
    other: N,
}

impl<N: Number> Factors<N> {
    #[inline(always)]
    fn of(entry: N, pivot: N) -> Factors<N> {
        let divisor = entry.gcd(pivot);
        let own = pivot.quotient(divisor);
        let other = entry.quotient(divisor);
        if own.is_negative() {
            Factors {
                own: own.negated(),
                other: other.negated(),
            }
        } else {
            Factors { own, other }
        }
    }

    /// Whether the row that they make of rows of these magnitudes fits.
    #[inline(always)]
    fn fit(self, row: N, pivot: N) -> bool {
        N::combination_fits(row, self.own, pivot, self.other.size())
    }
}

/// Tells the bit set of row `i` and the pattern that an entry changes.
#[inline(always)]
fn change<N: Number>(bits: &mut [u64], pattern: &mut Pattern, i: usize, k: usize, old: N, new: N) {
    if old.is_zero() != new.is_zero() {
        toggle(bits, k);
        pattern.flip(i, k, old.is_zero());
    }
}

/// Takes `factor` times the terms from the numbers, which are those of row `i`, and gives the
/// sizes of the new ones, joined.
#[inline(always)]
fn subtract<N: Number>(
    numbers: &mut [N],
    bits: &mut [u64],
    terms: &[(usize, N)],
    factor: N,
    pattern: &mut Pattern,
    i: usize,
) -> N {
    let mut magnitude = N::of(0);
    for term in terms {
        let (k, v) = *term;
        if k < numbers.len() {
            let old = numbers[k];
            let new = old.minus(factor.times(v));
            numbers[k] = new;
            magnitude = magnitude.join(new.size());
            change(bits, pattern, i, k, old, new);
        }
    }
    magnitude
}

#[inline(always)]
fn negate<N: Number>(numbers: &mut [N]) {
    for x in numbers.iter_mut() {
        *x = x.negated();
    }
}

#[inline(always)]
fn put<T: Copy>(list: &mut [T], k: usize, value: T) {
    if k < list.len() {
        list[k] = value;
    }
}

fn fill_products<N: Number>(products: &mut [N::Product], numbers: &[N], factor: N) {
    for (k, x) in numbers.iter().enumerate() {
        put(products, k, x.product(factor));
    }
}

fn subtract_products<N: Number>(products: &mut [N::Product], terms: &[(usize, N)], factor: N) {
    for term in terms {
        let (k, v) = *term;
        if k < products.len() {
            products[k] = N::difference(products[k], factor.product(v));
        }
    }
}

/// The greatest common divisor of a size above 0 and the products. None where a quotient by it does
/// not fit.
fn common_product_divisor<N: Number>(
    start: N::Product,
    products: &[N::Product],
) -> Option<N::ProductDivisor> {
    let mut common = start;
    let mut divisor = N::product_divisor(start);
    for x in products {
        if N::product_divided(*x, divisor).is_none() {
            common = N::common_divisor(common, *x);
            divisor = N::product_divisor(common);
            N::product_divided(*x, divisor)?;
        }
    }
    Some(divisor)
}

/// Writes the quotients, and gives their sizes, joined. None where one does not fit.
fn divide_products<N: Number>(
    numbers: &mut [N],
    bits: &mut [u64],
    products: &[N::Product],
    divisor: N::ProductDivisor,
    pattern: &mut Pattern,
    i: usize,
) -> Option<N> {
    let mut magnitude = N::of(0);
    for (k, product) in products.iter().enumerate() {
        if k < numbers.len() {
            let new = N::product_divided(*product, divisor)?;
            let old = numbers[k];
            numbers[k] = new;
            magnitude = magnitude.join(new.size());
            change(bits, pattern, i, k, old, new);
        }
    }
    Some(magnitude)
}

impl<N: Number> Row<N> {
    /// A row without a common divisor, of entries, a constant and a denominator above 0.
    pub fn of(
        alloc: Global,
        entries: Vec<N>,
        constant: N,
        den: N,
        variable: usize,
    ) -> Result<Row<N>, AllocError> {
        let nonzero = bits_of(alloc, entries.as_slice())?;
        let mut row = Row {
            entries,
            nonzero,
            constant,
            den,
            magnitude: N::of(0),
            reduced_magnitude: N::of(0),
            variable,
        };
        row.reduce();
        Ok(row)
    }

    /// The entry at a column, and 0 past the last one.
    #[inline(always)]
    pub fn entry(&self, col: usize) -> N {
        if col < self.entries.len() {
            self.entries[col]
        } else {
            N::of(0)
        }
    }

    /// The greatest common divisor of the denominator and the entries.
    pub fn divisor_of_multipliers(&self) -> N {
        common_divisor(
            self.den.size(),
            self.entries.as_slice(),
            self.nonzero.as_slice(),
        )
    }

    /// Takes out the common divisor.
    pub fn reduce(&mut self) {
        let start = self.den.gcd(self.constant);
        let common = if start.is_one() {
            start
        } else {
            common_divisor(start, self.entries.as_slice(), self.nonzero.as_slice())
        };
        let magnitude = if common.is_one() {
            magnitude_of(self.entries.as_slice(), self.nonzero.as_slice())
        } else {
            let divisor = common.divisor();
            self.den = self.den.divided(divisor);
            self.constant = self.constant.divided(divisor);
            divide(
                self.entries.as_mut_slice(),
                self.nonzero.as_slice(),
                divisor,
            )
        };
        self.magnitude = magnitude.join(self.den.size()).join(self.constant.size());
    }

    /// Takes out the common divisor, unless the magnitude is as it was the last time. Whether it did.
    fn reduce_again(&mut self) -> bool {
        let grown = self.magnitude.is_above(self.reduced_magnitude);
        if grown {
            self.reduce();
            self.reduced_magnitude = self.magnitude;
        }
        grown
    }

    /// Multiplies the entries. None where one may not fit: then nothing has changed.
    pub fn multiply(&mut self, factor: N) -> Option<()> {
        let zero = N::of(0);
        if !N::combination_fits(self.magnitude, factor.size(), zero, zero) {
            return None;
        }
        multiply(self.entries.as_mut_slice(), self.nonzero.as_slice(), factor);
        Some(())
    }

    #[inline(always)]
    fn eliminate_narrow(
        &mut self,
        pivot: PivotRow<N>,
        factors: Factors<N>,
        terms: &[(usize, N)],
        pattern: &mut Pattern,
        i: usize,
    ) {
        let Factors { own, other } = factors;
        let mut magnitude = self.magnitude;
        if !own.is_one() {
            multiply(self.entries.as_mut_slice(), self.nonzero.as_slice(), own);
            self.den = self.den.times(own);
            self.constant = self.constant.times(own);
            magnitude = magnitude.join(magnitude.saturating_times(own));
        }
        let changed = subtract(
            self.entries.as_mut_slice(),
            self.nonzero.as_mut_slice(),
            terms,
            other,
            pattern,
            i,
        );
        self.constant = self.constant.minus(other.times(pivot.constant));
        let left = other.times(pivot.den);
        put(self.entries.as_mut_slice(), pivot.col, left);
        magnitude = magnitude
            .join(changed)
            .join(self.constant.size())
            .join(left.size());
        self.magnitude = magnitude;
        if magnitude.is_above(N::of(WORTH_REDUCING))
            && magnitude
                .without_bits(GROWTH)
                .is_above(self.reduced_magnitude)
        {
            self.reduce();
            self.reduced_magnitude = self.magnitude;
        }
    }

    fn eliminate_wide(
        &mut self,
        pivot: PivotRow<N>,
        factors: Factors<N>,
        terms: &[(usize, N)],
        pattern: &mut Pattern,
        i: usize,
        products: &mut [N::Product],
    ) -> Option<()> {
        let Factors { own, other } = factors;
        fill_products(products, self.entries.as_slice(), own);
        subtract_products(products, terms, other);
        put(products, pivot.col, other.product(pivot.den));
        let den = self.den.product(own);
        let constant = N::difference(self.constant.product(own), other.product(pivot.constant));
        let start = N::common_divisor(den, constant);
        let divisor = common_product_divisor::<N>(start, products)?;
        self.den = N::product_divided(den, divisor)?;
        self.constant = N::product_divided(constant, divisor)?;
        let magnitude = divide_products(
            self.entries.as_mut_slice(),
            self.nonzero.as_mut_slice(),
            products,
            divisor,
            pattern,
            i,
        )?;
        self.magnitude = magnitude.join(self.den.size()).join(self.constant.size());
        self.reduced_magnitude = self.magnitude;
        Some(())
    }

    /// Puts for the variable that enters what the pivot's row says of it. `terms` are the terms of
    /// that row but for its entry there, `i` is the number of this row, and `products` is room for
    /// one row. False where a number does not fit: the dictionary is then of no use.
    #[inline(always)]
    pub fn eliminate(
        &mut self,
        pivot: PivotRow<N>,
        terms: &[(usize, N)],
        pattern: &mut Pattern,
        i: usize,
        products: &mut [N::Product],
    ) -> bool {
        let entry = self.entry(pivot.col);
        if entry.is_zero() {
            return true;
        }
        let mut factors = Factors::of(entry, pivot.entry);
        if !factors.fit(self.magnitude, pivot.magnitude) {
            if self.reduce_again() {
                factors = Factors::of(self.entry(pivot.col), pivot.entry);
            }
            if !factors.fit(self.magnitude, pivot.magnitude) {
                return self
                    .eliminate_wide(pivot, factors, terms, pattern, i, products)
                    .is_some();
            }
        }
        self.eliminate_narrow(pivot, factors, terms, pattern, i);
        true
    }

    /// Makes the row that of the variable that enters.
    pub fn enter(&mut self, pivot: PivotRow<N>, variable: usize) {
        let falls = pivot.entry.is_negative();
        if !falls {
            negate(self.entries.as_mut_slice());
            self.constant = self.constant.negated();
        }
        let left = if falls {
            pivot.den.negated()
        } else {
            pivot.den
        };
        put(self.entries.as_mut_slice(), pivot.col, left);
        self.den = pivot.entry.size();
        self.variable = variable;
    }

    /// Counts the row's variable from its other bound, which lies `range` away. None where a number
    /// does not fit.
    pub fn reflect(&mut self, range: i64) -> Option<()> {
        let top = N::of(range).product(self.den);
        let constant = N::of_product(N::difference(top, self.constant.product(N::of(1))))?;
        negate(self.entries.as_mut_slice());
        self.constant = constant;
        self.magnitude = self.magnitude.join(constant.size());
        Some(())
    }

    /// Counts the variable of a column from its other bound. None where a number does not fit.
    #[inline(always)]
    pub fn reflect_column(&mut self, col: usize, range: i64) -> Option<()> {
        let entry = self.entry(col);
        if !entry.is_zero() {
            let moved = entry.negated().product(N::of(range));
            let constant = N::of_product(N::difference(self.constant.product(N::of(1)), moved))?;
            self.constant = constant;
            self.magnitude = self.magnitude.join(constant.size());
            put(self.entries.as_mut_slice(), col, entry.negated());
        }
        Some(())
    }
}
