//! The sense of the objective, distances from upper bounds, and groups.
use crate::command_tests::{answers, answers_both};
use crate::layer_tests::case_in;
use sense::Sense;
use std::alloc::Global;
use std::test::Fail;

/// The head OBJSENSE with and without a word, and its lines.
#[test]
fn senses(rt: HostRuntime) -> Result<(), Fail> {
    let rows = [
        ("OBJSENSE\n", "deck: line 2: NotClosed"),
        ("OBJSENSE MAX MIN\n", "deck: line 1: FieldCount"),
        ("OBJSENSE max\n", "deck: line 1: SenseWord"),
        ("OBJSENSE MAX\n MIN\n", "deck: line 2: SecondSense"),
        ("OBJSENSE\n MINIMIZE\n MIN\n", "deck: line 3: SecondSense"),
        ("OBJSENSE\n MAX x\n", "deck: line 2: FieldCount"),
        ("OBJSENSE\n best\n", "deck: line 2: SenseWord"),
        ("OBJSENSE MAX\n best\n", "deck: line 2: SenseWord"),
        ("OBJSENSE\nOBJSENSE\n", "deck: line 2: SectionOrder"),
        ("OBJSENSE\nNAME\n", "deck: line 2: SectionOrder"),
        ("NAME\nOBJSENSE\nCOLUMNS\n", "deck: line 3: SectionOrder"),
        ("ROWS\n N c\nOBJSENSE x y\n", "deck: line 3: SectionOrder"),
        ("ROWS\n G r\nOBJSENSE x y\n", "deck: line 3: NoObjective"),
        ("OBJSENSEMAX\n", "deck: line 1: LeftOutSection"),
        (
            "OBJSENSE MAXIMIZE\nROWS\n N c\nCOLUMNS\nENDATA\n",
            "no line 1 BadHead",
        ),
        (
            "NAME\nOBJSENSE\n MAX\nROWS\n N c\nCOLUMNS\nENDATA\n",
            "no line 1 BadHead",
        ),
    ];
    for (input, line) in rows {
        assert!(rt; answers(rt.alloc(), input.as_bytes(), line)?, "{input}");
    }
    Ok(())
}

/// Two columns of which one has an upper bound.
const FRONT: &str = "ROWS\n N c\n L r\nCOLUMNS\n x c 1 r 1\n y c 1\nBOUNDS\n UP b x 4\n";

#[test]
fn upper_distances(rt: HostRuntime) -> Result<(), Fail> {
    let rows = [
        ("PAIRS\n p COL x UPC x\nENDATA\n", "no line 1 BadHead"),
        ("PAIRS\n p COL x UPC y\n", "deck: line 10: PairUpper"),
        ("PAIRS\n p COL x UPC z\n", "deck: line 10: UnknownName"),
        ("PAIRS\n p UPC y COL z\n", "deck: line 10: PairUpper"),
        (
            " PL b x\nPAIRS\n p UPC x COL x\n",
            "deck: line 11: PairUpper",
        ),
        (
            " UP b x 1e20\nPAIRS\n p UPC x COL x\n",
            "deck: line 11: PairUpper",
        ),
        (
            " FX b x 4\nPAIRS\n p UPC x COL y\n",
            "deck: line 11: PairUpper",
        ),
        (
            " MI b x\nPAIRS\n p UPC x COL y\nENDATA\n",
            "no line 1 BadHead",
        ),
        ("PAIRS\n p COL x UP x\n", "deck: line 10: PairKind"),
    ];
    for (more, line) in rows {
        assert!(rt; answers_both(rt.alloc(), FRONT, more, line)?, "{more}");
    }
    Ok(())
}

/// Lines of GROUPS, in the order in which they are judged.
#[test]
fn groups(rt: HostRuntime) -> Result<(), Fail> {
    let rows = [
        ("GROUPS\n g\n", "deck: line 10: FieldCount"),
        ("GROUPS\n g COL x UP\n", "deck: line 10: FieldCount"),
        ("GROUPS\n g COL z UP x\n", "deck: line 10: PairKind"),
        ("GROUPS\n g ROW c\n", "deck: line 10: PairKind"),
        ("GROUPS\n g COL z UPC y\n", "deck: line 10: UnknownName"),
        ("GROUPS\n g UPC y COL z\n", "deck: line 10: PairUpper"),
        (
            "GROUPS\n g COL x\n g COL y\n h COL x\n g COL z\n",
            "deck: line 13: GroupSplit",
        ),
        (
            "GROUPS\n g COL x ROW r COL y UPC x COL y UPC x COL x UP z\n",
            "deck: line 10: PairKind",
        ),
        (
            "GROUPS\n g COL x ROW r COL y UPC x COL y UPC x COL x UPC y\n",
            "deck: line 10: PairUpper",
        ),
        (
            "GROUPS\n g COL x ROW r COL y UPC x COL y UPC x COL x ROW r\nENDATA\n",
            "no line 1 BadHead",
        ),
        ("GROUPS\nPAIRS\n", "deck: line 10: SectionOrder"),
        ("GROUPS\nGROUPS\n", "deck: line 10: SectionOrder"),
        (
            "PAIRS\n g COL x COL y\nGROUPS\n g ROW r\n g COL x UPC x\nENDATA\n",
            "no line 1 BadHead",
        ),
    ];
    for (more, line) in rows {
        assert!(rt; answers_both(rt.alloc(), FRONT, more, line)?, "{more}");
    }
    Ok(())
}

/// A group of so many items, on lines of one item each.
fn grouped(alloc: Global, items: u32) -> Result<String, Fail> {
    let mut deck = String::from_str(alloc, "ROWS\n N c\nCOLUMNS\n x c 1\nGROUPS\n")?;
    for _ in 0..items {
        deck.push_str(" g COL x\n")?;
    }
    deck.push_str("ENDATA\n")?;
    Ok(deck)
}

/// A group of 32 items makes 496 pairs, and one more item 32 more.
#[test]
fn too_many_pairs(rt: HostRuntime) -> Result<(), Fail> {
    let alloc = rt.alloc();
    let most = grouped(alloc, 32)?;
    assert!(rt; answers(alloc, most.as_bytes(), "no line 1 BadHead")?);
    let more = grouped(alloc, 33)?;
    assert!(rt; answers(alloc, more.as_bytes(), "deck: line 38: TooMany")?);
    Ok(())
}

/// A column of at most 3 that is to be greatest.
const GREATEST: &str =
    "OBJSENSE MAX\nROWS\n N cost\nCOLUMNS\n x cost 1\nBOUNDS\n UP bnd x 3\nENDATA\n";

/// The certificate speaks of the cost, and the answer of the objective.
#[test]
fn greatest_value(rt: HostRuntime) -> Result<(), Fail> {
    let certificate = "lpcc-certificate 1\noptimal\npoint 1 : 1 3\nvalue -3\np : 1 : 2 1\nend 1\n";
    assert!(rt; answers_both(rt.alloc(), GREATEST, certificate, "yes optimal 3")?);
    Ok(())
}

/// The cost and the constant of an objective that is to be greatest have their signs changed.
#[test]
fn case_of_a_greatest_objective(rt: HostRuntime) -> Result<(), Fail> {
    let deck = "OBJSENSE\n MAX\nROWS\n N c\nCOLUMNS\n x c 0.5\n y c -2\nRHS\n c 3\nENDATA\n";
    let case = case_in(rt.alloc(), deck)?;
    assert_eq!(rt; case.cost(), [-1, 4].as_slice());
    assert_eq!(rt; (case.scale(), case.offset()), (2, 6));
    assert!(rt; case.sense() == Sense::Max);
    Ok(())
}

/// The pairs of PAIRS come first, then those of each group by the places of their items.
#[test]
fn case_of_groups(rt: HostRuntime) -> Result<(), Fail> {
    let deck =
        "ROWS\n N c\n L r\nCOLUMNS\n x r 1\n y r 1\nBOUNDS\n UP b x 4\n UP b y 5\nPAIRS\n p UPC y COL y\nGROUPS\n g COL x UPC x\n g ROW r\n h COL x\n h COL y\nENDATA\n";
    let case = case_in(rt.alloc(), deck)?;
    assert_eq!(rt;
        case.pairs(),
        [(4, 3), (1, 2), (1, 0), (2, 0), (1, 3)].as_slice()
    );
    Ok(())
}
