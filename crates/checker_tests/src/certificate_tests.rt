//! Certificates behind the three smallest decks, each with a line changed.
use crate::command_tests::{answers, answers_both};
use crate::texts::{
    BOUNDED_DECK, CERTIFICATE, DECK, FALLING_DECK, OPTIMAL, UNBOUNDED, first_lines, with_line,
};
use std::alloc::Global;
use std::test::Fail;

/// Whether the certificate with this line changed is answered so.
fn changed(
    alloc: Global,
    deck: &str,
    certificate: &str,
    number: usize,
    new: &str,
    line: &str,
) -> Result<bool, Fail> {
    let text = with_line(alloc, certificate, number, new)?;
    answers_both(alloc, deck, text.as_str(), line)
}

#[test]
fn cuts_of_a_refutation(rt: HostRuntime) -> Result<(), Fail> {
    let rows = [
        ("i 513a : 1 1 3 -1", "no line 3 BadChoice"),
        ("i 1a : 3 -1 1 1", "no line 3 BadLine"),
        ("i 1a : 1 9223372036854775808", "no line 3 NumberWide"),
        ("i 1a : 5 1", "no line 3 CutFails"),
        ("i 2a : 1 1 3 -1", "no line 3 CutFails"),
        ("i 1b : 1 1 3 -1", "no line 3 CutFails"),
        ("i 1a : 1 1 3 -2", "no line 3 CutFails"),
        ("i 1a :", "no line 3 CutFails"),
        ("i 1a : 1 1 3", "no line 3 BadLine"),
        ("i 1a: 1 1 3 -1", "no line 3 BadChoice"),
        ("i 1a : 1 9223372036854775808 x", "no line 3 NumberWide"),
        ("i 1a : 1 1 3 -9223372036854775808", "no line 3 NumberWide"),
        ("p 1a : 1 : 1 1 3 -1", "no line 3 WrongKind"),
        (
            "i 1a : 1 9223372036854775807 3 -9223372036854775807",
            "yes infeasible",
        ),
    ];
    for (new, line) in rows {
        assert!(rt;
            changed(rt.alloc(), DECK, CERTIFICATE, 3, new, line)?,
            "{new}"
        );
    }
    Ok(())
}

#[test]
fn derived_lines(rt: HostRuntime) -> Result<(), Fail> {
    let rows = [
        ("d 1a 1b : 1", "no line 5 BadChoice"),
        ("d : 1", "no line 5 HintFails"),
        ("d : 1 2 1", "no line 5 HintFails"),
        ("d : 1 1", "no line 5 HintFails"),
        ("d : 3", "no line 5 HintFails"),
        ("d 2a : 1 2", "no line 5 HintFails"),
        ("d 1b : 1 2", "no line 5 HintFails"),
        ("d : 1 18446744073709551616", "no line 5 NumberWide"),
        ("d 1a : 1", "no line 6 NotEmptyAtEnd"),
        ("d : 1  2", "no line 5 BadLine"),
        ("d : 2 1", "yes infeasible"),
    ];
    for (new, line) in rows {
        assert!(rt;
            changed(rt.alloc(), DECK, CERTIFICATE, 5, new, line)?,
            "{new}"
        );
    }
    Ok(())
}

/// The certificate that -4 is the least cost.
#[test]
fn optimality(rt: HostRuntime) -> Result<(), Fail> {
    let rows = [
        (3, "point 1 : 2 3", "no line 3 PointFails"),
        (3, "point 1 : 1 3 2 2", "no line 3 NotComplementary"),
        (3, "point 1 : 2 2 3 1", "no line 3 PointFails"),
        (3, "point 0 : 2 2", "no line 3 BadLine"),
        (4, "value -5", "no line 4 ValueFails"),
        (
            4,
            "value -85070591730234615865843651857942052865",
            "no line 4 NumberWide",
        ),
        (5, "p 1a : 1 : 1 1 4 2", "no line 5 CutFails"),
        (5, "p 1a : 3 : 1 -3 4 6", "yes optimal -4"),
        (6, "p 1b : 1 : 1 1 2 2 3 -2", "no line 6 BoundLow"),
        (7, "d : 1", "no line 7 HintFails"),
        (7, "d : 1  2", "no line 7 BadLine"),
        (7, "d 1a : 1", "no line 8 NotEmptyAtEnd"),
        (8, "end 2", "no line 8 BadCount"),
    ];
    for (number, new, line) in rows {
        assert!(rt;
            changed(rt.alloc(), BOUNDED_DECK, OPTIMAL, number, new, line)?,
            "{new}"
        );
    }
    let refutation =
        "lpcc-certificate 1\ninfeasible\np 1a : 1 : 1 -1 4 2\np 1b : 1 : 2 1 3 -2\nd : 1 2\nend 3\n";
    assert!(rt; answers_both(rt.alloc(), BOUNDED_DECK, refutation, "no line 3 WrongKind")?);
    Ok(())
}

#[test]
fn unboundedness(rt: HostRuntime) -> Result<(), Fail> {
    let rows = [
        (3, "piece", "no line 3 NotComplementary"),
        (3, "piece 1b 2a", "no line 3 NotComplementary"),
        (4, "point 1 : 2 1", "no line 4 NotComplementary"),
        (4, "point 1 : 1 -1", "no line 4 PointFails"),
        (5, "ray : 2 1", "no line 5 RayFails"),
        (5, "ray :", "no line 5 RayFails"),
        (6, "end 1", "no line 6 BadCount"),
        (6, "d :", "no line 6 BadLine"),
    ];
    for (number, new, line) in rows {
        assert!(rt;
            changed(rt.alloc(), FALLING_DECK, UNBOUNDED, number, new, line)?,
            "{new}"
        );
    }
    Ok(())
}

/// Comments, bytes behind the last line, and last lines without LF.
#[test]
fn ends(rt: HostRuntime) -> Result<(), Fail> {
    let rows = [
        ("x\n", "no line 7 AfterEnd"),
        ("*\n\n", "no line 7 AfterEnd"),
        (" ", "no line 7 AfterEnd"),
        ("* x", "yes infeasible"),
    ];
    for (more, line) in rows {
        let text = format!(in rt.alloc(); "{CERTIFICATE}{more}")?;
        assert!(rt;
            answers_both(rt.alloc(), DECK, text.as_str(), line)?,
            "{more}"
        );
    }
    assert!(rt; answers_both(rt.alloc(), DECK, "* x\n*", "no line 1 BadHead")?);
    assert!(rt; answers_both(rt.alloc(), DECK, "lpcc-certificate 1", "no line 1 NotEnded")?);
    assert!(rt;
        changed(
            rt.alloc(),
            DECK,
            CERTIFICATE,
            1,
            "lpcc-certificate 1\r",
            "no line 1 BadHead"
        )?
    );
    assert!(rt;
        changed(
            rt.alloc(),
            DECK,
            CERTIFICATE,
            3,
            "* b\ni 1a : 1 1 3 -2",
            "no line 3 CutFails"
        )?
    );
    assert!(rt;
        answers_both(
            rt.alloc(),
            DECK,
            "lpcc-certificate 1\ninfeasible\nend 0\n",
            "no line 3 NotEmptyAtEnd"
        )?
    );
    Ok(())
}

/// The first lines of the smallest certificate.
#[test]
fn every_first_lines(rt: HostRuntime) -> Result<(), Fail> {
    let alloc = rt.alloc();
    assert!(rt; answers(alloc, DECK.as_bytes(), "no line 1 BadHead")?);
    for count in 1..6 {
        let front = first_lines(alloc, CERTIFICATE, count)?;
        let line = format!(in alloc; "no line {} NotEnded", count + 1)?;
        assert!(rt;
            answers_both(alloc, DECK, front.as_str(), line.as_str())?,
            "{count}"
        );
    }
    Ok(())
}
