//! What no clause says: printed answers on decks of known answer, and that calls succeed.
use lp_io::{MemSink, MemSource};
use lpcc_run::{run, run_alone};
use std::alloc::Global;
use std::sync::Wait;
use std::test::Fail;
use std::thread::Threads;
use worker::NoGate;

/// Two columns of at most 3 and 2 with the costs -1 and -2, and a pair of both.
const BOUNDED: &str =
    "NAME two\nROWS\n N cost\nCOLUMNS\n x cost -1\n y cost -2\nBOUNDS\n UP bnd x 3\n UP bnd y 2\nPAIRS\n p1 COL x COL y\nENDATA\n";

/// The least x with 3 x at least 1.
const THIRD: &str = "ROWS\n N cost\n G r1\nCOLUMNS\n x cost 1 r1 3\nRHS\n rhs r1 1\nENDATA\n";

/// A column with the cost -1, paired with one without a cost.
const FALLING: &str =
    "NAME three\nROWS\n N cost\nCOLUMNS\n x cost -1\n y cost 0\nPAIRS\n p1 COL x COL y\nENDATA\n";

/// Three rows whose ratios tie at the origin.
const TIED: &str =
    "ROWS\n N cost\n L r1\n L r2\n L r3\n L r4\nCOLUMNS\n x cost -1 r1 1\n x r2 1 r3 1\n y cost -1 r1 -1\n y r2 -2 r3 -3\n y r4 1\nRHS\n rhs r4 1\nENDATA\n";

/// Two equations whose first exchange gives a number of 104 bits.
const WIDE: &str =
    "ROWS\n N cost\n E r1\n E r2\nCOLUMNS\n x cost 1 r1 4503599627370495\n x r2 1\n y r1 1 r2 4503599627370494\nRHS\n rhs r1 1 r2 1\nENDATA\n";

/// The same column twice in a pair.
const ZERO: &str =
    "ROWS\n N cost\nCOLUMNS\n x cost -1\nBOUNDS\n UP bnd x 5\nPAIRS\n p1 COL x COL x\nENDATA\n";

/// Two pairs that share a column that is at least 1.
const SHARED: &str =
    "ROWS\n N cost\n G r1\nCOLUMNS\n x r1 1\n y cost 1\n z cost 1\nRHS\n rhs r1 1\nPAIRS\n p1 COL x COL y\n p2 COL x COL z\nENDATA\n";

/// A spring that a wall keeps from its rest, with the gap 2.
const LCP: &str = "lpcc-lcp 1\nsize 1\nq : 1 -2\nrow 1 : 1 1\nend\n";

/// The leader's x from 0 to 5, at the cost 1, and the follower's y, for which the leader earns 1.
const BILEVEL: &str =
    "lpcc-bilevel 1\nsizes 1 1\ncost : 1 1 2 -1\nfollow : 2 1\nup 0 : 1 1\nup -5 : 1 -1\nlow 0 : 1 -1 2 1\nlow 2 : 1 1 2 1\nend\n";

/// One equation without columns, 0 = 1.
const NOTHING: &str = "ROWS\n N cost\n E r1\nCOLUMNS\nRHS\n rhs r1 1\nENDATA\n";

/// The deck of `THIRD` with a certificate of its least cost behind it.
const CERTIFIED: &str =
    "ROWS\n N cost\n G r1\nCOLUMNS\n x cost 1 r1 3\nRHS\n rhs r1 1\nENDATA\nlpcc-certificate 1\noptimal\npoint 3 : 1 1\nvalue 1\np : 3 : 1 1\nend 1\n";

/// The words of a line.
fn words_of(alloc: Global, line: &str) -> Result<Vec<String>, Fail> {
    let mut words = Vec::new(alloc);
    for word in line.split_whitespace() {
        words.push(String::from_str(alloc, word)?)?;
    }
    Ok(words)
}

/// A source over an input that comes whole, and a sink that takes a whole text.
fn ends(alloc: Global, input: &str) -> Result<(MemSource, MemSink), Fail> {
    let bytes = input.as_bytes().to_vec(alloc)?;
    let source = MemSource::over(bytes, 4096, Vec::new(alloc));
    let sink = MemSink::create(alloc, 10_000, 4096, Vec::new(alloc))?;
    Ok((source, sink))
}

/// What the sink took.
fn text_in(sink: MemSink) -> Result<String, Fail> {
    Ok(
        String::from_utf8(sink.bytes)
            .ok()
            .ok_or("the text is ASCII")?,
    )
}

/// The status and what is written for words and an input, by one worker.
fn answer(alloc: Global, line: &str, input: &str) -> Result<(u8, String), Fail> {
    let words = words_of(alloc, line)?;
    let (mut source, mut sink) = ends(alloc, input)?;
    let status = run_alone(alloc, &words, &mut source, &mut sink);
    Ok((status, text_in(sink)?))
}

/// The status and what is written for words and an input, by as many workers as the words name.
fn answer_as_asked<R: Threads + Wait + Sync>(
    rt: &R,
    alloc: Global,
    line: &str,
    input: &str,
) -> Result<(u8, String), Fail> {
    let words = words_of(alloc, line)?;
    let (mut source, mut sink) = ends(alloc, input)?;
    let status = run(rt, alloc, &words, &NoGate, &mut source, &mut sink);
    Ok((status, text_in(sink)?))
}

#[test]
fn words(rt: HostRuntime) -> Result<(), Fail> {
    let rows = [
        "",
        "check --brief",
        "migrate --form 2",
        "Check",
        "solve -j 0",
        "solve -j 65",
        "solve --pieces",
        "solve --brief --brief",
        "solve --shrink half",
        "solve --form 3",
        "relax --brief",
        "relax --pivots 0",
        "relax --pivots 9223372036854775808",
        "relax --pivots +5",
        "solve --nodes 1",
        "relax --nodes 1",
        "check --nodes 1",
        "migrate --nodes 1",
        "lcp --nodes 1",
        "gen 7 2 1 1 --nodes 1",
        "tree --nodes 0",
        "tree --nodes 9223372036854775808",
        "tree --pivots 0",
        "tree --pieces 1",
        "tree --form 2",
        "tree --shrink none",
        "tree --solve",
        "tree -j 1",
        "tree 1",
        "edit --pieces 0",
        "edit --pivots 9223372036854775808",
        "edit --nodes 1",
        "edit --shrink none",
        "edit --form 2",
        "edit --brief",
        "edit --solve",
        "edit -j 1",
        "edit 1",
        "gen 7 2 1 2",
        "gen 7 2 1",
        "gen 7 2 --solve 1 1",
        "lcp --brief",
        "bilevel 1",
        "help",
    ];
    for row in rows {
        let (status, text) = answer(rt.alloc(), row, "")?;
        assert_eq!(rt;
            (status, text.as_str()),
            (2, "words: not a command of lpcc\n"),
            "{row}"
        );
    }
    Ok(())
}

#[test]
fn answers(rt: HostRuntime) -> Result<(), Fail> {
    let rows = [
        ("check", "", 3, "deck: line 1: NotClosed\n"),
        (
            "migrate",
            "lpcc-certificate 1\ninfeasible\ni : 1 1\nend 1\n",
            0,
            "lpcc-certificate 2\ninfeasible\ni : 1 1\nend 1\n",
        ),
        ("migrate", BOUNDED, 1, "no line 1 BadHead\n"),
        ("relax", BOUNDED, 0, "relaxation optimal -7\n"),
        (
            "relax --pivots 1",
            BOUNDED,
            8,
            "budget pivots 1 relaxation stage cost\n",
        ),
        ("relax --pivots 2", BOUNDED, 0, "relaxation optimal -7\n"),
        ("relax", FALLING, 0, "relaxation unbounded\n"),
        ("relax", TIED, 0, "relaxation optimal -2\n"),
        ("relax", NOTHING, 0, "relaxation infeasible\n"),
        (
            "relax",
            "ROWS\n N cost\nENDATA\nx\n",
            3,
            "deck: line 3: SectionOrder\n",
        ),
        ("solve --brief", BOUNDED, 0, "* optimal -4\n* drawn 2\n"),
        ("solve --pieces 1", BOUNDED, 8, "budget pieces 1 left 1b\n"),
        (
            "solve --pieces 2 --brief -j 3",
            BOUNDED,
            0,
            "* optimal -4\n* drawn 2\n",
        ),
        (
            "solve",
            THIRD,
            0,
            "* optimal 1/3\n* drawn 1\nlpcc-certificate 2\noptimal\npoint 3 : 1 1\nvalue 1\np : 3 : 1 1\nend 1\n",
        ),
        (
            "solve",
            FALLING,
            0,
            "* unbounded\n* drawn 2\nlpcc-certificate 2\nunbounded\npiece 1b\npoint 1 :\nray : 1 1\nend 0\n",
        ),
        (
            "solve",
            NOTHING,
            0,
            "* infeasible\n* drawn 1\nlpcc-certificate 2\ninfeasible\ni : 1 1\nend 1\n",
        ),
        (
            "tree",
            BOUNDED,
            0,
            "* optimal -4\n* nodes 3\nlpcc-certificate 2\noptimal\npoint 1 : 2 2\nvalue -4\np 1a : 1 : 1 -1 4 2\np 1b : 1 : 2 1 3 -2\nd : 1 2\nx 1 2\nend 3\n",
        ),
        ("tree --nodes 2", BOUNDED, 8, "budget nodes 2 left 1b\n"),
        (
            "tree --pivots 1 --nodes 1",
            BOUNDED,
            8,
            "budget nodes 1 left 1a\n",
        ),
        (
            "tree --brief --nodes 3",
            BOUNDED,
            0,
            "* optimal -4\n* nodes 3\n",
        ),
        (
            "tree",
            THIRD,
            0,
            "* optimal 1/3\n* nodes 1\nlpcc-certificate 2\noptimal\npoint 3 : 1 1\nvalue 1\np : 3 : 1 1\nend 1\n",
        ),
        ("tree --brief", FALLING, 0, "* unbounded\n* nodes 3\n"),
        (
            "tree",
            NOTHING,
            0,
            "* infeasible\n* nodes 1\nlpcc-certificate 2\ninfeasible\ni : 1 1\nend 1\n",
        ),
        ("tree", WIDE, 7, "overflow piece - pivots 0 forms x2 c1\n"),
        ("tree --brief", ZERO, 0, "* optimal 0\n* nodes 3\n"),
        ("tree", "", 3, "deck: line 1: NotClosed\n"),
        ("solve", WIDE, 7, "overflow piece - pivots 0 forms x2 c1\n"),
        ("solve --brief", ZERO, 0, "* optimal 0\n* drawn 2\n"),
        ("solve --brief", SHARED, 0, "* optimal 0\n* drawn 3\n"),
        ("gen 7 2 1 1 --solve", "", 0, "* optimal 8\n* drawn 2\n"),
        (
            "lcp",
            LCP,
            0,
            "NAME lcp\nROWS\n N cost\n G w1\nCOLUMNS\n z1 cost 0\n z1 w1 1\nRHS\n rhs w1 2\nPAIRS\n p1 ROW w1 COL z1\nENDATA\n",
        ),
        ("lcp --solve", LCP, 0, "* solution 1 : 1 2\n"),
        (
            "lcp --solve",
            "lpcc-lcp 1\nsize 1\nq : 1 -1\nrow 1 :\nend\n",
            0,
            "* no solution\n",
        ),
        ("lcp", "lpcc-lcp 1\n", 3, "front: line 2: NotEnded\n"),
        (
            "bilevel --solve",
            BILEVEL,
            0,
            "* optimal -2\n* point 1 : 2 2\n",
        ),
    ];
    for (words, input, status, text) in rows {
        let found = answer(rt.alloc(), words, input)?;
        assert_eq!(rt; (found.0, found.1.as_str()), (status, text), "{words}");
    }
    Ok(())
}

/// The status and what is written for words and a deck with a script behind it.
fn answer_script(
    alloc: Global,
    line: &str,
    deck: &str,
    script: &str,
) -> Result<(u8, String), Fail> {
    let input = format!(in alloc; "{deck}{script}")?;
    answer(alloc, line, &input)
}

#[test]
fn scripts(rt: HostRuntime) -> Result<(), Fail> {
    let rows = [
        (
            "edit",
            BOUNDED,
            "solve\nadd G -3 : 1 -1 2 -1\nsolve\ntighten 4 -1\nsolve\ncost : 1 -1 2 -5\nsolve\nend\n",
            0,
            "* optimal -4\n* drawn 2\n* optimal -4\n* drawn 1\n* optimal -3\n* drawn 2\n* optimal -5\n* drawn 2\n",
        ),
        ("edit", BOUNDED, "end\n", 0, ""),
        (
            "edit",
            BOUNDED,
            "add L 3 : 1 1 2 1\nsolve\nend\n",
            0,
            "* optimal -4\n* drawn 2\n",
        ),
        (
            "edit",
            BOUNDED,
            "add E 2 : 1 1\nsolve\nend\n",
            0,
            "* optimal -2\n* drawn 2\n",
        ),
        (
            "edit",
            BOUNDED,
            "add G 1 :\nsolve\nend\n",
            0,
            "* infeasible\n* drawn 1\n",
        ),
        (
            "edit",
            BOUNDED,
            "tighten 1 4\nsolve\nend\n",
            0,
            "* infeasible\n* drawn 1\n",
        ),
        (
            "edit",
            BOUNDED,
            "cost :\nsolve\nend\n",
            0,
            "* optimal 0\n* drawn 1\n",
        ),
        (
            "edit",
            FALLING,
            "solve\nadd L 5 : 1 1\nsolve\nend\n",
            0,
            "* unbounded\n* drawn 2\n* optimal -5\n* drawn 2\n",
        ),
        (
            "edit",
            SHARED,
            "solve\ncost : 1 1 2 3\nsolve\nend\n",
            0,
            "* optimal 0\n* drawn 3\n* optimal 1\n* drawn 1\n",
        ),
        (
            "--pieces=2 edit --pivots 15",
            BOUNDED,
            "solve\nsolve\nend\n",
            0,
            "* optimal -4\n* drawn 2\n* optimal -4\n* drawn 1\n",
        ),
        (
            "edit --pieces 1",
            BOUNDED,
            "solve\nsolve\nend\n",
            8,
            "budget pieces 1 left 1b\n",
        ),
        (
            "edit",
            WIDE,
            "solve\nsolve\nend\n",
            7,
            "overflow piece - pivots 0 forms x2 c1\n",
        ),
        ("edit", "", "end\n", 3, "deck: line 1: UnknownSection\n"),
    ];
    for (words, deck, script, status, text) in rows {
        let found = answer_script(rt.alloc(), words, deck, script)?;
        assert_eq!(rt;
            (found.0, found.1.as_str()),
            (status, text),
            "{words}: {script}"
        );
    }
    Ok(())
}

/// A script is judged whole before any edit is made, and a refusal is written alone.
#[test]
fn refused_scripts(rt: HostRuntime) -> Result<(), Fail> {
    let rows = [
        ("", "script: line 1: NotEnded\n"),
        ("solve\n", "script: line 2: NotEnded\n"),
        ("solve\nend", "script: line 2: NotEnded\n"),
        ("end\nx", "script: line 2: AfterEnd\n"),
        ("end\n\n", "script: line 2: AfterEnd\n"),
        ("\nend\n", "script: line 1: BadEdit\n"),
        ("* x\nend\n", "script: line 1: BadEdit\n"),
        ("solve \nend\n", "script: line 1: BadEdit\n"),
        ("solve\r\nend\n", "script: line 1: BadEdit\n"),
        ("tighten 1\nend\n", "script: line 1: BadEdit\n"),
        ("add N 1 : 1 1\nend\n", "script: line 1: BadEdit\n"),
        ("add G 01 : 1 1\nend\n", "script: line 1: BadEdit\n"),
        ("add G 1 : 1 0\nend\n", "script: line 1: BadEdit\n"),
        ("add G 1 : 1\nend\n", "script: line 1: BadEdit\n"),
        (
            "tighten 9223372036854775808 0\nend\n",
            "script: line 1: BadEdit\n",
        ),
        ("solve\ntighten 4 -3\nx\nend\n", "script: line 3: BadEdit\n"),
        ("tighten 9 0\nend\n", "script: line 1: NoSuch\n"),
        ("tighten 0 0\nend\n", "script: line 1: NoSuch\n"),
        ("tighten -1 0\nend\n", "script: line 1: NoSuch\n"),
        ("tighten 4294967297 0\nend\n", "script: line 1: NoSuch\n"),
        ("add G 0 : 3 1\nend\n", "script: line 1: NoSuch\n"),
        ("add G 0 : 2 1 1 1\nend\n", "script: line 1: NoSuch\n"),
        ("cost : 1 1 1 1\nend\n", "script: line 1: NoSuch\n"),
        ("tighten 4 -3\nend\n", "script: line 1: Loosens\n"),
        ("solve\ntighten 4 -3\nend\n", "script: line 2: Loosens\n"),
        (
            "add E 1 : 1 1\ntighten 5 1\nend\n",
            "script: line 2: Loosens\n",
        ),
        (
            "tighten 4 4503599627370497\nend\n",
            "script: line 1: Limit\n",
        ),
        (
            "add G 4503599627370497 : 1 1\nend\n",
            "script: line 1: Limit\n",
        ),
        (
            "cost : 1 4503599627370497\nend\n",
            "script: line 1: Limit\n",
        ),
    ];
    for (script, text) in rows {
        let found = answer_script(rt.alloc(), "edit", BOUNDED, script)?;
        assert_eq!(rt; (found.0, found.1.as_str()), (3, text), "{script}");
    }
    Ok(())
}

/// Each command gives what it is asked for, where `run` is called as the program calls it.
#[test]
fn each_command(rt: HostRuntime) -> Result<(), Fail> {
    let rows = [
        ("check", CERTIFIED, "yes optimal 1/3\n"),
        (
            "migrate",
            "lpcc-certificate 1\ninfeasible\ni : 1 1\nend 1\n",
            "lpcc-certificate 2\ninfeasible\ni : 1 1\nend 1\n",
        ),
        ("relax", BOUNDED, "relaxation optimal -7\n"),
        ("solve --brief", BOUNDED, "* optimal -4\n* drawn 2\n"),
        ("solve --brief -j 2", THIRD, "* optimal 1/3\n* drawn 1\n"),
        (
            "gen 7 2 1 1",
            "",
            "NAME gen-7-2-1-1\nROWS\n N cost\n G r1\nCOLUMNS\n x1 cost 6\n x1 r1 9\n x2 cost 6\n x2 r1 5\nRHS\n rhs r1 12\nPAIRS\n p1 COL x1 COL x2\nENDATA\n",
        ),
        ("tree --brief", THIRD, "* optimal 1/3\n* nodes 1\n"),
        (
            "edit",
            "ROWS\n N cost\n G r1\nCOLUMNS\n x cost 1 r1 3\nRHS\n rhs r1 1\nENDATA\nsolve\ntighten 1 2\nsolve\nend\n",
            "* optimal 1/3\n* drawn 1\n* optimal 2/3\n* drawn 1\n",
        ),
        ("lcp --solve", LCP, "* solution 1 : 1 2\n"),
        (
            "bilevel",
            BILEVEL,
            "NAME bilevel\nROWS\n N cost\n G u1\n G u2\n G l1\n G l2\n E s1\nCOLUMNS\n v1 cost 1\n v1 u1 1\n v1 u2 -1\n v1 l1 -1\n v1 l2 1\n v2 cost -1\n v2 l1 1\n v2 l2 1\n m1 cost 0\n m1 s1 1\n m2 cost 0\n m2 s1 1\nRHS\n rhs u2 -5\n rhs l2 2\n rhs s1 1\nBOUNDS\n FR bnd v1\n FR bnd v2\nPAIRS\n p1 ROW l1 COL m1\n p2 ROW l2 COL m2\nENDATA\n",
        ),
    ];
    for (words, input, text) in rows {
        let found = answer_as_asked(&rt, rt.alloc(), words, input)?;
        assert_eq!(rt; (found.0, found.1.as_str()), (0, text), "{words}");
    }
    Ok(())
}
