//! The draws from which the numbers of a deck come.
ghost use Rattle.std.specs.Prelude.{◌≡◌, ◌<◌, ◌+◌, ◌%◌, ◌≤◌};
ghost use Rattle.deck_gen.specs.Generator.{draw, modulus, next_draw};

const MULTIPLIER: u32 = 75;

const INCREMENT: u32 = 74;

const MODULUS: u32 = 65_537;

/// The state before the first draw.
pub fn first_state(seed: u64) -> u32
    ensures value { result ≡ draw seed 0 }
    ensures small { result < modulus }
{
    (seed % u64::from(MODULUS)) as u32
}

/// The next draw, which is the next state too.
pub fn next_draw(state: u32) -> u32
    requires { state < modulus }
    ensures value { result ≡ next_draw state }
    ensures small { result < modulus }
{
    (MULTIPLIER * state + INCREMENT) % MODULUS
}
