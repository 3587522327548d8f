//! Writing a cut as words.
ghost use Rattle.std.specs.Prelude.{◌≡◌, ◌<◌, ◌≤◌, ◌+◌, ◌^◌, ◌%◌, ◌/◌, ◌⊎◌, ℕ, [], ◌∷◌, All, length, take, slice_index};
ghost use Rattle.std.specs.Int.{cast_unsigned};
ghost use mir.Syntax.{w64, w128};
ghost use Rattle.cuts.specs.Cuts.{Passes, IsIndexed};
ghost use Rattle.cut_words.specs.Words.{item_length, side_word, choice_word, multiplier_word, head_words, AreWordsOf};
ghost use Rattle.cut_words.specs.Parts.{SameOutside};

use cuts::Cut;
use lpcc_case::Case;
use nogoods::{Choice, NoGood, Side};

/// The number of words of a cut of this case: five, one for each pair and one for each constraint.
pub fn item_length(case: &Case) -> u32
    ensures { result ≡ item_length case.now }
{
    5 + case.pairs().len() as u32 + case.constraints().len() as u32
}

fn word_of_side(side: Side) -> u64
    ensures { result ≡ side_word side }
{
    match side {
        Side::A => 1,
        Side::B => 2,
    }
}

pub fn word_of(number: i64) -> u64
    ensures { result ≡ cast_unsigned w64 number }
{
    number.cast_unsigned()
}

/// The low and the high half of a number in two's complement.
pub fn halves(v: i128) -> (u64, u64)
    ensures low { result.0 ≡ cast_unsigned w128 v % 2 ^ 64 }
    ensures high { result.1 ≡ cast_unsigned w128 v / 2 ^ 64 }
{
    let bits = v.cast_unsigned();
    ((bits % (1 << 64)) as u64, (bits / (1 << 64)) as u64)
}

/// Writes 0 everywhere.
fn clear(words: &mut [u64])
    ensures size { length words.new ≡ length words.old }
    ensures cleared { (k : ℕ) → slice_index words.new k ≡ 0 }
{
    for k in 0..words.len() {
        words[k] = 0;
    }
}

/// Writes the word of each choice at its pair, the pairs standing from the place `from` on.
fn put_choices(choices: &[Choice], words: &mut [u64], from: usize, pairs: usize)
    requires named { All (λ c. c.pair < pairs) choices.now }
    requires room { from + pairs ≤ length words.old }
    requires clear { (k : ℕ) → k < pairs → slice_index words.old (from + k) ≡ 0 }
    ensures size { length words.new ≡ length words.old }
    ensures others { SameOutside words.old words.new from pairs }
    ensures choices { (k : ℕ) → k < pairs → slice_index words.new (from + k) ≡ choice_word choices.now k }
{
    let mut i = choices.len();
    while i > 0 {
        i -= 1;
        words[from + choices[i].pair as usize] = word_of_side(choices[i].side);
    }
}

/// Writes each multiplier at its constraint, the constraints standing from the place `from` on.
fn put_multipliers(mult: &[(u32, i64)], words: &mut [u64], from: usize, count: usize)
    requires named { All (λ m. m.0 < count) mult.now }
    requires room { from + count ≤ length words.old }
    requires clear { (k : ℕ) → k < count → slice_index words.old (from + k) ≡ 0 }
    ensures size { length words.new ≡ length words.old }
    ensures others { SameOutside words.old words.new from count }
    ensures multipliers { (k : ℕ) → k < count → slice_index words.new (from + k) ≡ multiplier_word mult.now k }
{
    let mut i = mult.len();
    while i > 0 {
        i -= 1;
        words[from + mult[i].0 as usize] = word_of(mult[i].1);
    }
}

/// Writes the first five words.
fn put_head(head: [u64; 5], words: &mut [u64])
    requires room { 5 ≤ length words.old }
    ensures size { length words.new ≡ length words.old }
    ensures head { take 5 words.new ≡ head }
    ensures others { (k : ℕ) → 5 ≤ k → slice_index words.new k ≡ slice_index words.old k }
{
    for k in 0..5 {
        words[k] = head[k];
    }
}

/// Writes an item of these parts.
fn put_parts(case: &Case, head: [u64; 5], ng: &NoGood, mult: &[(u32, i64)], into: &mut [u64])
    requires indexed { IsIndexed case.now ng.now mult.now }
    requires length { length into.old ≡ item_length case.now }
    ensures size { length into.new ≡ item_length case.now }
    ensures head { take 5 into.new ≡ head }
    ensures choices { (k : ℕ) → k < length case.now.pairs → slice_index into.new (5 + k) ≡ choice_word ng.now k }
    ensures multipliers { (k : ℕ) → k < length case.now.constraints → slice_index into.new (5 + length case.now.pairs + k) ≡ multiplier_word mult.now k }
{
    let pairs = case.pairs().len();
    let count = case.constraints().len();
    clear(into);
    put_choices(ng.choices(), into, 5, pairs);
    put_multipliers(mult, into, 5 + pairs, count);
    put_head(head, into);
}

/// Writes the words of a cut that passes the test. It takes no memory.
pub fn to_words(case: &Case, cut: &Cut, into: &mut [u64])
    requires passes { Passes case.now cut.now }
    requires length { length into.old ≡ item_length case.now }
    ensures { AreWordsOf case.now cut.now into.new }
{
    match cut {
        Cut::Ray { ng, mult } => {
            let count = ng.choices().len() as u64;
            put_parts(case, [1, 0, 0, 0, count], ng, mult.as_slice(), into);
        }
        Cut::Point { ng, mult, e, v } => {
            let count = ng.choices().len() as u64;
            let (low, high) = halves(*v);
            put_parts(
                case,
                [2, word_of(*e), low, high, count],
                ng,
                mult.as_slice(),
                into,
            );
        }
    }
}
