//! Cases of decks with the numbers that are known: scale, constraints and pairs.
use crate::deck_tests::MARKET;
use crate::layer_tests::case_in;
use lpcc_case::{Case, Kind};
use std::test::Fail;

/// Whether the constraint of this number, from 0, says that the terms are at least this.
fn is_at_least(case: &Case, number: usize, terms: &[(u32, i64)], rhs: i64) -> bool {
    match case.constraints().get(number) {
        Some(found) => {
            found.kind == Kind::Ge && found.rhs == rhs && found.terms.as_slice() == terms
        }
        None => false,
    }
}

/// The market's costs and constant are doubled, and a row with a quarter four times taken.
#[test]
fn case_of_the_market(rt: HostRuntime) -> Result<(), Fail> {
    let case = case_in(rt.alloc(), MARKET)?;
    assert_eq!(rt; (case.columns(), case.scale(), case.offset()), (12, 2, 14));
    assert_eq!(rt; case.constraints().len(), 23);
    assert!(rt; is_at_least(&case, 8, &[(8, 4), (10, -4)], -33));
    assert!(rt; is_at_least(&case, 21, &[(10, -1)], -9));
    assert_eq!(rt; case.pairs().get(3), Some(&(3, 18)));
    Ok(())
}

const RANGES: &str =
    "ROWS\n N c\n E e\n E f\n L l\n G g\nCOLUMNS\n x e 1 f 1\n x l 1 g 1\nRHS\n r e 5 f 5\n r l 5 g 3\nRANGES\n r e 2 f -2\n r l -2 g 2\nENDATA\n";

/// A range reaches up from an E row, down where it is negative, down from an L and up from a G row.
#[test]
fn case_of_ranges(rt: HostRuntime) -> Result<(), Fail> {
    let case = case_in(rt.alloc(), RANGES)?;
    assert_eq!(rt; case.constraints().len(), 9);
    for (number, low, high) in [(0, 5, -7), (2, 3, -5), (4, 3, -5), (6, 3, -5)] {
        assert!(rt; is_at_least(&case, number, &[(0, 1)], low));
        assert!(rt; is_at_least(&case, number + 1, &[(0, -1)], high));
    }
    Ok(())
}

/// The least multiplier of a row clears a tenth and a thousandth.
#[test]
fn case_of_decimals(rt: HostRuntime) -> Result<(), Fail> {
    let deck = "ROWS\n N c\n G g\nCOLUMNS\n x g 0.1\n y g 1e-3\nRHS\n g 2\nENDATA\n";
    let case = case_in(rt.alloc(), deck)?;
    assert!(rt; is_at_least(&case, 0, &[(0, 100), (1, 1)], 2000));
    Ok(())
}
