//! Decks that each command refuses, with the line and the reason.
use crate::commands::{COMMANDS, Command, answer};
use checker_tests::texts::{CERTIFICATE, DECK, first_lines, with_line};
use std::alloc::Global;
use std::test::Fail;

/// Whether each command refuses the input so.
fn is_refused(alloc: Global, input: &str, line: &str) -> Result<bool, Fail> {
    let wanted = format!(in alloc; "{line}\n")?;
    for command in COMMANDS {
        let (status, text) = answer(alloc, command, input)?;
        if status != 3 || text != wanted {
            return Ok(false);
        }
    }
    Ok(true)
}

/// The smallest deck with a line changed.
#[test]
fn changed_lines(rt: HostRuntime) -> Result<(), Fail> {
    let rows = [
        (2, "rows", "deck: line 2: UnknownSection"),
        (2, "SOS1", "deck: line 2: LeftOutSection"),
        (3, " G r0", "deck: line 6: NoObjective"),
        (4, " Q r1", "deck: line 4: RowLetter"),
        (5, " G r1", "deck: line 5: NameTwice"),
        (5, " G r1 x", "deck: line 5: FieldCount"),
        (8, " y r3 1", "deck: line 8: UnknownName"),
        (8, " y r2 1 r2 2", "deck: line 8: EntryTwice"),
        (8, " y r2 1e36", "deck: line 8: NumberWide"),
        (8, " m 'MARKER' 'INTORG'", "deck: line 8: IntegerMarker"),
        (11, "BOUNDS\n BV bnd x", "deck: line 12: IntegerMarker"),
        (12, " p1 COL x ROW cost", "deck: line 12: PairKind"),
        (12, " p1 COL x COL r1", "deck: line 12: UnknownName"),
        (13, "ENDATA x", "deck: line 13: FieldCount"),
    ];
    for (number, new, line) in rows {
        let deck = with_line(rt.alloc(), DECK, number, new)?;
        assert!(rt; is_refused(rt.alloc(), deck.as_str(), line)?, "{new}");
    }
    Ok(())
}

/// The first lines of the smallest deck.
#[test]
fn every_first_lines(rt: HostRuntime) -> Result<(), Fail> {
    let alloc = rt.alloc();
    for count in 0..13 {
        let front = first_lines(alloc, DECK, count)?;
        let line = format!(in alloc; "deck: line {}: NotClosed", count + 1)?;
        assert!(rt;
            is_refused(alloc, front.as_str(), line.as_str())?,
            "{count}"
        );
    }
    Ok(())
}

/// What stands behind a deck is for `check` alone.
#[test]
fn bytes_behind(rt: HostRuntime) -> Result<(), Fail> {
    let alloc = rt.alloc();
    let input = format!(in alloc; "{DECK}{CERTIFICATE}")?;
    for command in [Command::Relax, Command::Solve] {
        let (status, text) = answer(alloc, command, input.as_str())?;
        assert_eq!(rt; (status, text.as_str()), (3, "deck: line 14: AfterEnd\n"));
    }
    Ok(())
}
