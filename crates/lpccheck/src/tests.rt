//! That the program takes no words, and answers.
use crate::run::run_check;
use lp_io::{MemSink, MemSource};
use std::alloc::Global;
use std::test::Fail;

const INPUT: &str =
    "ROWS\n N cost\n E r\nCOLUMNS\nRHS\n r 1\nENDATA\nlpcc-certificate 1\ninfeasible\ni : 1 1\nend 1\n";

/// The status and what the sink took.
fn answer(alloc: Global, words: &[String]) -> Result<(u8, String), Fail> {
    let input = INPUT.as_bytes().to_vec(alloc)?;
    let mut source = MemSource::over(input, 4096, Vec::new(alloc));
    let mut sink = MemSink::create(alloc, 100, 4096, Vec::new(alloc))?;
    let status = run_check(alloc, words, &mut source, &mut sink);
    let text = String::from_utf8(sink.bytes)
        .ok()
        .ok_or("the text is ASCII")?;
    Ok((status, text))
}

#[test]
fn words(rt: HostRuntime) -> Result<(), Fail> {
    let alloc = rt.alloc();
    let word = vec![in alloc; String::from_str(alloc, "check")?]?;
    let (status, text) = answer(alloc, &word)?;
    assert_eq!(rt;
        (status, text.as_str()),
        (2, "words: lpccheck takes no words\n")
    );
    let (status, text) = answer(alloc, &[])?;
    assert_eq!(rt; (status, text.as_str()), (0, "yes infeasible\n"));
    Ok(())
}
