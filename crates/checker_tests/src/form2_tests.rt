//! Certificates of form 2, certificates of many lines, and form 1 in form 2.
use crate::command_tests::answers_both;
use crate::texts::{BOUNDED_DECK, CERTIFICATE, DECK, OPTIMAL, UNBOUNDED, with_line};
use converting::convert;
use lp_io::{MemSink, MemSource};
use std::alloc::Global;
use std::test::Fail;
use std::thread::Threads;
use verifier::verify_many;

/// The refutation of the smallest deck, the first cut with a list.
const SHARED: &str =
    "lpcc-certificate 2\ninfeasible\nm : 1 1\ni 1a : @1 3 -1\ni 1b : 2 1 4 -1\nd : 1 2\nend 3\n";

#[test]
fn lists_and_dropped_lines(rt: HostRuntime) -> Result<(), Fail> {
    let rows = [
        (4, "i 1a : @1 3 -1", "yes infeasible"),
        (4, "i 1a : @2 3 -1", "no line 4 ListFails"),
        (4, "i 1a : @1 1 1 3 -1", "no line 4 CutFails"),
        (4, "i 1a : @0 3 -1", "no line 4 BadLine"),
        (4, "i 1a : @18446744073709551616", "no line 4 NumberWide"),
        (6, "x 1\nd : 1 2", "no line 7 HintFails"),
        (6, "x 3\nd : 1 2", "no line 6 DropFails"),
        (6, "d : 1 2\nx 1 2", "yes infeasible"),
        (6, "d : 1 2\nx 2 1", "no line 7 BadLine"),
        (6, "d : 1 2\nx 1\nx 1", "no line 8 DropFails"),
        (6, "d : 1 2\nx 3", "yes infeasible"),
        (7, "end 5", "no line 7 BadCount"),
    ];
    for (number, new, line) in rows {
        let text = with_line(rt.alloc(), SHARED, number, new)?;
        assert!(rt;
            answers_both(rt.alloc(), DECK, text.as_str(), line)?,
            "{new}"
        );
    }
    Ok(())
}

/// The status and the text with the cuts tested in many threads.
fn answer_of_many<R: Threads + Sync>(
    rt: &R,
    alloc: Global,
    deck: &str,
    certificate: &str,
) -> Result<(u8, String), Fail> {
    let input = format!(in alloc; "{deck}{certificate}")?;
    let mut source = MemSource::over(input.as_bytes().to_vec(alloc)?, 4096, Vec::new(alloc));
    let mut sink = MemSink::create(alloc, 100, 4096, Vec::new(alloc))?;
    let status = verify_many(rt, alloc, &mut source, &mut sink);
    let text = String::from_utf8(sink.bytes)
        .ok()
        .ok_or("the text is ASCII")?;
    Ok((status, text))
}

/// 3,000 cuts that are equal, with another one in the place of that with this number.
fn many_cuts(alloc: Global, number: usize, cut: &str) -> Result<String, Fail> {
    let mut text = String::from_str(alloc, "lpcc-certificate 1\ninfeasible\n")?;
    for before in 0..3000 {
        text.push_str(if before + 1 == number {
            cut
        } else {
            "i 1a : 1 1 3 -1"
        })?;
        text.push('\n')?;
    }
    text.push_str("i 1b : 2 1 4 -1\nd : 1 3001\nend 3002\n")?;
    Ok(text)
}

#[test]
fn many_lines(rt: HostRuntime) -> Result<(), Fail> {
    let alloc = rt.alloc();
    let long = many_cuts(alloc, 0, "")?;
    let failing = many_cuts(alloc, 2500, "i 1a : 1 1 3 -2")?;
    let rows = [
        (DECK, long.as_str(), 0, "yes infeasible\n"),
        (DECK, failing.as_str(), 1, "no line 2502 CutFails\n"),
        (BOUNDED_DECK, OPTIMAL, 0, "yes optimal -4\n"),
        (DECK, SHARED, 0, "yes infeasible\n"),
    ];
    for (deck, certificate, wanted, line) in rows {
        let (status, text) = answer_of_many(&rt, alloc, deck, certificate)?;
        assert_eq!(rt; (status, text.as_str()), (wanted, line));
    }
    Ok(())
}

/// The status and the text for a certificate alone.
fn converted(alloc: Global, text: &str) -> Result<(u8, String), Fail> {
    let mut source = MemSource::over(text.as_bytes().to_vec(alloc)?, 4096, Vec::new(alloc));
    let mut sink = MemSink::create(alloc, 1000, 4096, Vec::new(alloc))?;
    let status = convert(alloc, &mut source, &mut sink);
    let text = String::from_utf8(sink.bytes)
        .ok()
        .ok_or("the text is ASCII")?;
    Ok((status, text))
}

#[test]
fn form_1_in_form_2(rt: HostRuntime) -> Result<(), Fail> {
    let rows = [
        (
            CERTIFICATE,
            0,
            "lpcc-certificate 2\ninfeasible\ni 1a : 1 1 3 -1\ni 1b : 2 1 4 -1\nd : 1 2\nx 1 2\nend 3\n",
        ),
        (
            UNBOUNDED,
            0,
            "lpcc-certificate 2\nunbounded\npiece 1b\npoint 1 :\nray : 1 1\nend 0\n",
        ),
        (
            "* c\nlpcc-certificate 1\ninfeasible\ni 1a : 1 1 2 1 3 1 4 1\ni 1b : 1 1 2 1 3 1 4 1\np : 2 : 1 1 2 1 3 1 4 1\nd : 2 1 2\nd 1a : 1\nend 5\n",
            0,
            "lpcc-certificate 2\ninfeasible\nm : 1 1 2 1 3 1 4 1\ni 1a : @1\ni 1b : @1\np : 2 : @1\nd : 2 1 2\nx 2\nd 1a : 1\nx 1\nend 5\n",
        ),
        (SHARED, 0, SHARED),
        ("lpcc-certificate 3\n", 1, "no line 1 BadHead\n"),
    ];
    for (old, wanted, new) in rows {
        let (status, text) = converted(rt.alloc(), old)?;
        assert_eq!(rt; (status, text.as_str()), (wanted, new));
    }
    Ok(())
}
