//! Products of numbers of 64 bits, exact in 128 bits.
ghost use Rattle.std.specs.Prelude.{◌≡◌, ◌<◌, ◌^◌, ◌+ℤ◌, ◌*ℤ◌, unsigned_abs};

/// The product of two numbers.
#[inline(always)]
pub fn product(a: i64, b: i64) -> i128
    ensures { result ≡ a *ℤ b }
{
    i128::from(a) * i128::from(b)
}

/// A sum with a product more.
#[inline(always)]
pub fn add_product(sum: i128, a: i64, b: i64) -> i128
    requires { unsigned_abs sum < 2 ^ 126 }
    ensures { result ≡ sum +ℤ (a *ℤ b) }
{
    sum + product(a, b)
}
