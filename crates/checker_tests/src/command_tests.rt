//! What no clause says: printed answers on inputs of known verdict, and that calls succeed.
use crate::texts::{BOUNDED_DECK, CERTIFICATE, DECK, FALLING_DECK, OPTIMAL, UNBOUNDED};
use lp_io::{MemSink, MemSource};
use std::alloc::Global;
use std::test::Fail;
use verifier::verify;

/// The status and what the sink took, for an input that comes whole.
fn answer(alloc: Global, input: &[u8]) -> Result<(u8, String), Fail> {
    let mut source = MemSource::over(input.to_vec(alloc)?, 4096, Vec::new(alloc));
    let mut sink = MemSink::create(alloc, 100, 4096, Vec::new(alloc))?;
    let status = verify(alloc, &mut source, &mut sink);
    let text = String::from_utf8(sink.bytes)
        .ok()
        .ok_or("the text is ASCII")?;
    Ok((status, text))
}

/// The status that goes with the line that is wanted.
fn status_with(line: &str) -> u8 {
    if line.starts_with("yes ") {
        0
    } else if line.starts_with("no line ") {
        1
    } else {
        3
    }
}

/// Whether the command answers this line, with its status.
pub fn answers(alloc: Global, input: &[u8], line: &str) -> Result<bool, Fail> {
    let (status, text) = answer(alloc, input)?;
    let wanted = format!(in alloc; "{line}\n")?;
    Ok(status == status_with(line) && text == wanted)
}

/// The same of a deck with a certificate behind it.
pub fn answers_both(
    alloc: Global,
    deck: &str,
    certificate: &str,
    line: &str,
) -> Result<bool, Fail> {
    let input = format!(in alloc; "{deck}{certificate}")?;
    answers(alloc, input.as_bytes(), line)
}

#[test]
fn each_kind(rt: HostRuntime) -> Result<(), Fail> {
    let alloc = rt.alloc();
    assert!(rt; answers_both(alloc, DECK, CERTIFICATE, "yes infeasible")?);
    assert!(rt; answers_both(alloc, BOUNDED_DECK, OPTIMAL, "yes optimal -4")?);
    assert!(rt; answers_both(alloc, FALLING_DECK, UNBOUNDED, "yes unbounded")?);
    assert!(rt; answers(alloc, b"", "deck: line 1: NotClosed")?);
    Ok(())
}

/// A value that is a fraction, a deck without columns, and the constant of the objective.
#[test]
fn values(rt: HostRuntime) -> Result<(), Fail> {
    let rows = [
        (
            "ROWS\n N cost\n G r\nCOLUMNS\n x cost 1 r 3\nRHS\n r 1\nENDATA\nlpcc-certificate 1\noptimal\npoint 3 : 1 1\nvalue 1\np : 3 : 1 1\nend 1\n",
            "yes optimal 1/3",
        ),
        (
            "ROWS\n N cost\n E r\nCOLUMNS\nRHS\n r 1\nENDATA\nlpcc-certificate 1\ninfeasible\ni : 1 1\nend 1\n",
            "yes infeasible",
        ),
        (
            "ROWS\n N cost\n E r\nCOLUMNS\nENDATA\nlpcc-certificate 1\noptimal\npoint 1 :\nvalue 0\np : 1 :\nend 1\n",
            "yes optimal 0",
        ),
        (
            "ROWS\n N c\nCOLUMNS\n x c 0.5\nRHS\n c .25\nENDATA\nlpcc-certificate 1\noptimal\npoint 1 :\nvalue 0\np : 1 : 1 2\nend 1\n",
            "yes optimal -1/4",
        ),
    ];
    for (input, line) in rows {
        assert!(rt; answers(rt.alloc(), input.as_bytes(), line)?, "{line}");
    }
    Ok(())
}
