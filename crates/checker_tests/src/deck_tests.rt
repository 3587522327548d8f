//! Decks that are refused, each with the line and the reason, and decks that are read.
use crate::command_tests::{answers, answers_both};
use std::alloc::Global;
use std::test::Fail;

/// Lines, fields and the order of sections.
#[test]
fn sections(rt: HostRuntime) -> Result<(), Fail> {
    let rows = [
        ("ROWS\r\r\n", "deck: line 1: UnknownSection"),
        (" ROWS\n", "deck: line 1: SectionOrder"),
        ("ROWS\n * x\n", "deck: line 2: RowLetter"),
        (
            "*ROWS\nROWS\n N c\nCOLUMNS\n x c 1\n*ENDATA\nENDATA",
            "no line 1 BadHead",
        ),
        (
            "ROWS\n N c\nCOLUMNS\n x c 1\nRHS\nSETS c 1\n",
            "deck: line 6: LeftOutSection",
        ),
        ("ROWS\n N c\nENDATA\n", "deck: line 3: SectionOrder"),
        (
            "ROWS\n N c\nCOLUMNS\nBOUNDS\nRANGES\nRHS\nPAIRS\nENDATA \t\n",
            "no line 1 BadHead",
        ),
        ("ROWS\n G r\n", "deck: line 3: NotClosed"),
        (
            "ROWS\n N c\nCOLUMNS\n m 'MARKER'\n",
            "deck: line 4: IntegerMarker",
        ),
        (
            "ROWS\n N c\nCOLUMNS\n x c 1\n y c 1\n x zz 1\n",
            "deck: line 6: ColumnSplit",
        ),
        (
            "ROWS\n N c\nCOLUMNS\n x c bad zz 1\n",
            "deck: line 4: NumberText",
        ),
        (
            "ROWS\n N c\nCOLUMNS\n x c 1\nRHS\n s c 1\n t zz 1\n",
            "deck: line 7: SecondSet",
        ),
        (
            "NAME a b c d e f g h\nROWS\n N c\nCOLUMNS\n x c 1 c 2 c 3 c 4\n",
            "deck: line 5: FieldCount",
        ),
    ];
    for (input, line) in rows {
        assert!(rt; answers(rt.alloc(), input.as_bytes(), line)?, "{input}");
    }
    Ok(())
}

/// Behind ROWS and COLUMNS with one objective and one column.
#[test]
fn bounds(rt: HostRuntime) -> Result<(), Fail> {
    let rows = [
        (" XX\n", "deck: line 6: BoundKind"),
        (" UP x\n", "deck: line 6: FieldCount"),
        (" FR s x junk\nENDATA\n", "no line 1 BadHead"),
        (" UP bnd x -5\n", "deck: line 7: NotClosed"),
        (" UP bnd x -5\nENDATA\n", "deck: line 6: UpperBelowZero"),
        (
            " UP s x -1\n UP s x -2\nENDATA\n",
            "deck: line 7: UpperBelowZero",
        ),
        (" UP bnd x -5\n LO bnd x -10\nENDATA\n", "no line 1 BadHead"),
        (" UP s x -1\nEND\n", "deck: line 7: UnknownSection"),
        (
            " FX s x 0\nPAIRS\n p COL x COL x\nENDATA\n",
            "deck: line 8: PairLower",
        ),
        (" LO s x 1e20\nENDATA\n", "deck: line 6: RowWide"),
    ];
    for (more, line) in rows {
        assert!(rt;
            answers_both(
                rt.alloc(),
                "ROWS\n N c\nCOLUMNS\n x c 1\nBOUNDS\n",
                more,
                line
            )?,
            "{more}"
        );
    }
    Ok(())
}

/// What is too wide for a case, by its line.
#[test]
fn wide_rows(rt: HostRuntime) -> Result<(), Fail> {
    let rows = [
        (
            "NAME ten\nROWS\n N cost\n G r\nCOLUMNS\n x cost 1 r 4503599627370497\nRHS\n r 4503599627370496\nENDATA\n",
            "deck: line 4: RowWide",
        ),
        (
            "ROWS\n N c\n G r\nCOLUMNS\n x r 1\nRHS\n r -4503599627370496\nRANGES\n r 9007199254740992\nENDATA\n",
            "no line 1 BadHead",
        ),
        (
            "ROWS\n N c\n G r\nCOLUMNS\n x r 1e-16\nENDATA\n",
            "deck: line 3: RowWide",
        ),
        (
            "ROWS\n N c\nCOLUMNS\n x c 1\nRHS\n c 1e16\nENDATA\n",
            "deck: line 2: RowWide",
        ),
    ];
    for (input, line) in rows {
        assert!(rt; answers(rt.alloc(), input.as_bytes(), line)?, "{input}");
    }
    Ok(())
}

/// A deck with this many columns.
fn wide_deck(alloc: Global, columns: u32) -> Result<String, Fail> {
    let mut deck = String::from_str(alloc, "ROWS\n N c\nCOLUMNS\n")?;
    for column in 0..columns {
        let line = format!(in alloc; " x{column} c 1\n")?;
        deck.push_str(line.as_str())?;
    }
    deck.push_str("ENDATA\n")?;
    Ok(deck)
}

#[test]
fn too_many_columns(rt: HostRuntime) -> Result<(), Fail> {
    let alloc = rt.alloc();
    let most = wide_deck(alloc, 1000)?;
    assert!(rt; answers(alloc, most.as_bytes(), "no line 1 BadHead")?);
    let more = wide_deck(alloc, 1001)?;
    assert!(rt; answers(alloc, more.as_bytes(), "deck: line 1004: TooMany")?);
    Ok(())
}

/// A market with five buyers and a price, each line ended by CR and LF.
#[test]
fn market(rt: HostRuntime) -> Result<(), Fail> {
    let alloc = rt.alloc();
    let mut deck = String::new(alloc);
    for line in MARKET.lines() {
        deck.push_str(line)?;
        deck.push_str("\r\n")?;
    }
    assert!(rt; answers(alloc, deck.as_bytes(), "no line 1 BadHead")?);
    Ok(())
}

pub const MARKET: &str = "* price and capacity
NAME market one
ROWS
 N cost
 L cap1
 L cap2
 L cap3
 L cap4
 L cap5
 G st1
 G st2
 G st3
 G st4
 G st5
COLUMNS
 q1 cost 1 cap1 1
 q2 cost 1 cap2 1
 q3 cost 1 cap3 1
 q4 cost 1 cap4 1
 q5 cost 1 cap5 1
 u1 st1 1
 u2 st2 1
 u3 st3 1
 u4 st4 1
 u5 st5 1
 p cost -3 st1 -1
 p st2 -1 st3 -1
 p st4 -1 st5 -1
 t cost 0.5 cap5 -1
RHS
 rhs cost -7 cap1 10
 rhs cap2 8 cap3 6
 rhs cap4 4 cap5 2
 rhs st1 -2 st2 -3
 rhs st3 -5 st4 -8.25
 rhs st5 -12
BOUNDS
 LO bnd p 4
 UP bnd p 9
 LO bnd t 1
PAIRS
 k1 ROW cap1 COL u1
 k2 ROW cap2 COL u2
 k3 ROW cap3 COL u3
 k4 ROW cap4 COL u4
 k5 ROW cap5 COL u5
ENDATA
";
