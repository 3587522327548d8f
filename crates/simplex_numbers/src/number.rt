//! What a number of a row can do.

/// A number of a row. Its least value is not used, so that each number has an opposite.
pub trait Number: Copy {
    /// What a product of two numbers, and the difference of two products, fits.
    type Product: Copy;

    /// A divisor of numbers with what tests and divides by it without a division.
    type Divisor: Copy;

    /// Such a divisor of products.
    type ProductDivisor: Copy;

    /// The same number.
    fn of(number: i64) -> Self;

    /// The largest number.
    fn largest() -> Self;

    /// The same number. None where it does not fit.
    fn of_wide(number: i128) -> Option<Self>;

    /// The same number. None where it does not fit.
    fn narrow(self) -> Option<i64>;

    /// The same number.
    fn widen(self) -> i128;

    /// Whether it is 0.
    fn is_zero(self) -> bool;

    /// Whether it is 1.
    fn is_one(self) -> bool;

    /// Whether it is below 0.
    fn is_negative(self) -> bool;

    /// Whether it is larger than the other one.
    fn is_above(self, other: Self) -> bool;

    /// The number without its sign.
    fn size(self) -> Self;

    /// The number with the opposite sign.
    fn negated(self) -> Self;

    /// For two sizes one that is at least each of them, and below twice the larger one.
    fn join(self, other: Self) -> Self;

    /// The difference.
    fn minus(self, other: Self) -> Self;

    /// The product.
    fn times(self, other: Self) -> Self;

    /// The product of two sizes, or the largest number.
    fn saturating_times(self, other: Self) -> Self;

    /// The size without its last bits.
    fn without_bits(self, bits: u32) -> Self;

    /// The quotient, rounded to 0, or 0 where there is none.
    fn quotient(self, divisor: Self) -> Self;

    /// The greatest common divisor of the sizes.
    fn gcd(self, other: Self) -> Self;

    /// A thousand times a size over a denominator, about, or the largest number of 64 bits.
    fn thousandths(self, den: Self) -> u64;

    /// The divisor of a size above 0.
    fn divisor(self) -> Self::Divisor;

    /// Whether the divisor divides the number.
    fn is_divided(self, divisor: Self::Divisor) -> bool;

    /// The quotient, where the divisor divides the number.
    fn divided(self, divisor: Self::Divisor) -> Self;

    /// Whether `row * own + pivot * other`, all sizes, fits.
    fn combination_fits(row: Self, own: Self, pivot: Self, other: Self) -> bool;

    /// The product of two numbers.
    fn product(self, other: Self) -> Self::Product;

    /// The difference of two products.
    fn difference(from: Self::Product, product: Self::Product) -> Self::Product;

    /// Whether a product is 0.
    fn is_zero_product(product: Self::Product) -> bool;

    /// Whether a product is below 0.
    fn is_negative_product(product: Self::Product) -> bool;

    /// The same number. None where it does not fit.
    fn of_product(product: Self::Product) -> Option<Self>;

    /// The greatest common divisor of the sizes of two products.
    fn common_divisor(first: Self::Product, second: Self::Product) -> Self::Product;

    /// The divisor of a size above 0.
    fn product_divisor(size: Self::Product) -> Self::ProductDivisor;

    /// The quotient. None where the divisor does not divide the product, or the quotient does not fit.
    fn product_divided(product: Self::Product, divisor: Self::ProductDivisor) -> Option<Self>;
}
