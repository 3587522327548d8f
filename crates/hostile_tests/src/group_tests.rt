//! Objectives that are to be greatest, distances from upper bounds, and groups.
use crate::commands::{Command, answer};
use std::alloc::Global;
use std::test::Fail;

/// Whether this is the first line of the answer, with status 0.
fn begins(alloc: Global, command: Command, input: &str, line: &str) -> Result<bool, Fail> {
    let (status, text) = answer(alloc, command, input)?;
    Ok(status == 0 && text.lines().next() == Some(line))
}

/// The best value of a deck, and that without its pairs and groups.
#[test]
fn greatest_values(rt: HostRuntime) -> Result<(), Fail> {
    let rows = [
        (
            "NAME max\nOBJSENSE\n MAX\nROWS\n N cost\n L cap\nCOLUMNS\n x cost 3 cap 2\n y cost 2 cap 2\nRHS\n rhs cap 3\nBOUNDS\n UP bnd x 1\n UP bnd y 1\nPAIRS\n b1 COL x UPC x\n b2 COL y UPC y\nENDATA\n",
            "* optimal 3",
            "relaxation optimal 4",
        ),
        (
            "NAME max\nOBJSENSE\n MAX\nROWS\n N cost\n L cap\nCOLUMNS\n x cost 3 cap 2\n y cost 2 cap 2\nRHS\n rhs cap 3\nBOUNDS\n UP bnd x 1\n UP bnd y 1\nGROUPS\n g COL x COL y\nENDATA\n",
            "* optimal 3",
            "relaxation optimal 4",
        ),
        (
            "OBJSENSE MAX\nROWS\n N cost\nCOLUMNS\n x cost 1\n y cost 1\n z cost 1\nBOUNDS\n UP bnd x 4\n UP bnd y 3\n UP bnd z 5\nGROUPS\n g COL x COL y COL z\nENDATA\n",
            "* optimal 5",
            "relaxation optimal 12",
        ),
    ];
    for (input, best, relaxed) in rows {
        assert!(rt; begins(rt.alloc(), Command::Solve, input, best)?, "{best}");
        assert!(rt;
            begins(rt.alloc(), Command::Relax, input, relaxed)?,
            "{relaxed}"
        );
    }
    Ok(())
}
