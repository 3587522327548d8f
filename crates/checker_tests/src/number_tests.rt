//! Fractions and decimals that are known.

use lp_nums::{Frac, NumberFault, read_decimal};
use std::test::Fail;

#[test]
fn reads_the_texts_of_numbers(rt: HostRuntime) {
    let table: [(&str, i128, i128); 8] = [
        ("1e-3", 1, 1000),
        (".5", 1, 2),
        ("5.", 5, 1),
        ("+2E2", 200, 1),
        ("0.10", 1, 10),
        ("1e35", 100_000_000_000_000_000_000_000_000_000_000_000, 1),
        ("0e99", 0, 1),
        ("-0", 0, 1),
    ];
    for (text, num, den) in table {
        match read_decimal(text.as_bytes()) {
            Ok(number) => {
                assert_eq!(rt; number.num(), num, "at {text}");
                assert_eq!(rt; number.den(), den, "at {text}");
            }
            Err(_) => assert!(rt; false, "refused: {text}"),
        }
    }
}

#[test]
fn refuses_other_texts_before_wide_numbers(rt: HostRuntime) {
    for text in ["1e36", "1e-19", "1234567890123456789"] {
        let read = read_decimal(text.as_bytes());
        assert!(rt; matches!(read, Err(NumberFault::NumberWide)), "at {text}");
    }
    for text in ["", "-", "1e", "1.2.3", "inf"] {
        let read = read_decimal(text.as_bytes());
        assert!(rt; matches!(read, Err(NumberFault::NumberText)), "at {text}");
    }
}

#[test]
fn prints_lowest_terms(rt: HostRuntime) -> Result<(), Fail> {
    let table: [(i128, i128, &str); 5] = [
        (6, 4, "3/2"),
        (-14, 2, "-7"),
        (0, 5, "0"),
        (-1, 3, "-1/3"),
        (9_007_199_254_740_993, 10, "9007199254740993/10"),
    ];
    for (num, den, text) in table {
        let printed = Frac::reduced(num, den).to_string(rt.alloc())?;
        assert_eq!(rt; printed.as_str(), text, "{num} over {den}");
    }
    Ok(())
}
