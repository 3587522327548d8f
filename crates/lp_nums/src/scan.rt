//! The digits of a decimal text, read once from left to right in a few words of memory.

ghost use Rattle.std.specs.Prelude.{◌≡◌, ℕ, ◌+◌, ◌*◌, ◌^◌, ◌<◌, ◌≤◌, ◌-◌, List, [], ◌∷◌, ◌++◌, IsTrue, filter, min, length};
ghost use Rattle.std.specs.List.{list_all};
ghost use Rattle.std.specs.Char.{is_ascii_digit, digit_value};
ghost use Rattle.std.specs.Str.Parse.{digits_value};

/// The digits without the zeros at their front and back: how many they are, their value where they
/// are at most 18, and the number of zeros at the back.
#[derive(Clone, Copy)]
pub struct Significand {
    pub value: u64,
    pub width: u64,
    pub zeros: u64,
}

/// The most digits of which the value is kept.
pub const MOST_DIGITS: u64 = 18;

/// Where the value of an exponent stops growing.
const FAR: u128 = 1 << 100;

fn digit_of(byte: u8) -> u8
    requires { IsTrue (is_ascii_digit byte) }
    ensures value { result ≡ digit_value byte }
    ensures below { result < 10 }
{
    byte - b'0'
}

/// The value with some zeros and a digit behind it.
fn appended(value: u64, zeros: u64, digit: u8) -> u64
    requires few { zeros < 18 }
    requires room { value * 10 ^ (zeros + 1) + digit < 2 ^ 64 }
    ensures { result ≡ value * 10 ^ (zeros + 1) + digit }
{
    value * 10u64.pow(zeros as u32 + 1) + u64::from(digit)
}

impl Significand {
    ghost use Rattle.lp_nums.specs.Significands.{IsSignificand};

    /// That of the digits with one more behind them.
    fn with_digit(self, byte: u8) -> Significand
        requires digit { IsTrue (is_ascii_digit byte) }
        requires room { self.width + self.zeros < 2 ^ 64 - 1 }
        requires small { self.width ≤ 18 → self.value < 10 ^ self.width }
        ensures digits { (ds : List ℕ) → IsSignificand ds self → IsSignificand (ds ++ byte ∷ []) result }
        ensures grows { result.width + result.zeros ≤ self.width + self.zeros + 1 }
    {
        if byte == b'0' {
            return self.with_zero();
        }
        let digit = digit_of(byte);
        let width = self.width + self.zeros + 1;
        let value = if width <= MOST_DIGITS {
            appended(self.value, self.zeros, digit)
        } else {
            0
        };
        Significand {
            value,
            width,
            zeros: 0,
        }
    }

    fn with_zero(self) -> Significand
        requires room { self.width + self.zeros < 2 ^ 64 - 1 }
        ensures digits { (ds : List ℕ) → IsSignificand ds self → IsSignificand (ds ++ 48 ∷ []) result }
        ensures grows { result.width + result.zeros ≤ self.width + self.zeros + 1 }
    {
        if self.width == 0 {
            return self;
        }
        Significand {
            value: self.value,
            width: self.width,
            zeros: self.zeros + 1,
        }
    }

    /// That of the digits of a text, whatever stands between them.
    pub fn of_text(text: &[u8]) -> Significand
        ensures { IsSignificand (filter is_ascii_digit text.now) result }
    {
        let mut all = Significand {
            value: 0,
            width: 0,
            zeros: 0,
        };
        for byte in text {
            if byte.is_ascii_digit() {
                all = all.with_digit(*byte);
            }
        }
        all
    }
}

/// The value of a numeral, or 2^100 where it is past that.
pub fn capped_value(numeral: &[u8]) -> u128
    requires { IsTrue (list_all is_ascii_digit numeral.now) }
    ensures { result ≡ min (2 ^ 100) (digits_value 10 numeral.now) }
{
    let mut value = 0;
    for byte in numeral {
        value = (value * 10 + u128::from(digit_of(*byte))).min(FAR);
    }
    value
}
