//! Scripts as plain data.
use lp_base::Sequence;

/// How the sum of a constraint's terms is related to its right side.
#[derive(Clone, Copy, Debug, PartialEq, Eq)]
pub enum Relation {
    /// At least the right side.
    Ge,
    /// At most the right side.
    Le,
    /// Equal to the right side.
    Eq,
}

/// One line of a script. Columns and constraints are counted from 1, and may be any narrow numbers:
/// whether they are there is judged when the edit is made.
#[derive(Drop)]
pub enum Command {
    /// A constraint more. A term is a column with its coefficient, which is not 0.
    Add {
        relation: Relation,
        rhs: i64,
        terms: Sequence<(i64, i64)>,
    },
    /// Another right side of a constraint.
    Tighten {
        con: i64,
        rhs: i64,
    },
    /// Another cost: columns with their coefficients, which are not 0.
    Cost {
        terms: Sequence<(i64, i64)>,
    },
    /// The problem as it is now is solved.
    Solve,
}

/// A script: command k, counted from 0, stands on line k + 1, and the last line behind all of them.
#[derive(Drop)]
pub struct Script {
    pub commands: Sequence<Command>,
}
