//! The words of a cut.
ghost use Rattle.std.specs.Prelude.{◌≡◌};
ghost use Rattle.cut_words.specs.Words.{item_length};

use crate::{CUT, small_case};
use cut_words::{are_passing_words, from_words, item_length, to_words};
use cuts::{Cut, check_cut};
use lp_base::Sequence;
use lpcc_case::Case;
use nogoods::{Choice, NoGood, Side};
use std::alloc::{AllocError, Global};
use std::test::Fail;

fn small_cut(alloc: Global) -> Result<Cut, Fail> {
    let choice = Choice {
        pair: 0,
        side: Side::A,
    };
    let ng = NoGood::from_choices(alloc, &[choice])?;
    let mut mult = Sequence::new(alloc);
    mult.push((0, 1))?;
    mult.push((2, -1))?;
    Ok(Cut::Ray {
        ng: ng.ok_or("one choice ascends")?,
        mult,
    })
}

/// The words of a cut that passes the test.
fn words_of(case: &Case, cut: &Cut) -> Result<[u64; 10], Fail>
    requires { item_length case.now ≡ 10 }
{
    check_cut(case, cut)?;
    let mut words = [7; 10];
    to_words(case, cut, &mut words);
    Ok(words)
}

#[test]
fn a_ray_cut_has_these_words(rt: HostRuntime) -> Result<(), Fail> {
    let alloc = rt.alloc();
    let case = small_case(alloc)?;
    assert!(rt; item_length(&case) == 10);
    let words = words_of(&case, &small_cut(alloc)?)?;
    assert!(rt; words == CUT);
    let back = from_words(alloc, &case, &CUT)?.ok_or("the words are a cut's")?;
    let again = words_of(&case, &back)?;
    assert!(rt; again == CUT);
    Ok(())
}

/// Whether these are the words of a cut, with this word at this place.
fn is_cut_with(alloc: Global, case: &Case, place: usize, word: u64) -> Result<bool, AllocError> {
    let mut words = CUT;
    if place < words.len() {
        words[place] = word;
    }
    Ok(from_words(alloc, case, &words)?.is_some())
}

#[test]
fn other_words_are_no_cut(rt: HostRuntime) -> Result<(), Fail> {
    let alloc = rt.alloc();
    let case = small_case(alloc)?;
    assert!(rt; is_cut_with(alloc, &case, 4, 1)?);
    assert!(rt; !is_cut_with(alloc, &case, 4, 2)?);
    assert!(rt; !is_cut_with(alloc, &case, 9, 9223372036854775808)?);
    assert!(rt; are_passing_words(&case, &CUT));
    Ok(())
}
