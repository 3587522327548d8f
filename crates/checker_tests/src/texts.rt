//! Decks and certificates for tests, and texts with a line changed.
use std::alloc::{AllocError, Global};

/// Two columns that are at least 1, and a pair of both.
pub const DECK: &str =
    "NAME one\nROWS\n N cost\n G r1\n G r2\nCOLUMNS\n x r1 1\n y r2 1\nRHS\n rhs r1 1 r2 1\nPAIRS\n p1 COL x COL y\nENDATA\n";

/// That deck has no feasible point.
pub const CERTIFICATE: &str =
    "lpcc-certificate 1\ninfeasible\ni 1a : 1 1 3 -1\ni 1b : 2 1 4 -1\nd : 1 2\nend 3\n";

/// Two columns of at most 3 and 2 with the costs -1 and -2, and a pair of both.
pub const BOUNDED_DECK: &str =
    "NAME two\nROWS\n N cost\nCOLUMNS\n x cost -1\n y cost -2\nBOUNDS\n UP bnd x 3\n UP bnd y 2\nPAIRS\n p1 COL x COL y\nENDATA\n";

/// The least cost of that deck is -4.
pub const OPTIMAL: &str =
    "lpcc-certificate 1\noptimal\npoint 1 : 2 2\nvalue -4\np 1a : 1 : 1 -1 4 2\np 1b : 1 : 2 1 3 -2\nd : 1 2\nend 3\n";

/// A column with the cost -1, paired with one without a cost.
pub const FALLING_DECK: &str =
    "NAME three\nROWS\n N cost\nCOLUMNS\n x cost -1\n y cost 0\nPAIRS\n p1 COL x COL y\nENDATA\n";

/// The cost of that deck falls without end.
pub const UNBOUNDED: &str =
    "lpcc-certificate 1\nunbounded\npiece 1b\npoint 1 :\nray : 1 1\nend 0\n";

/// The text with another line in the place of that with this number, from 1.
pub fn with_line(
    alloc: Global,
    text: &str,
    number: usize,
    line: &str,
) -> Result<String, AllocError> {
    let mut changed = String::new(alloc);
    for (before, old) in text.lines().enumerate() {
        changed.push_str(if before + 1 == number { line } else { old })?;
        changed.push('\n')?;
    }
    Ok(changed)
}

/// The first lines of the text.
pub fn first_lines(alloc: Global, text: &str, count: usize) -> Result<String, AllocError> {
    let mut front = String::new(alloc);
    for line in text.lines().take(count) {
        front.push_str(line)?;
        front.push('\n')?;
    }
    Ok(front)
}
