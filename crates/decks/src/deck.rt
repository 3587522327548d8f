//! What a deck says, with names replaced by numbers from 0 in the order of their first standing.
use lp_base::Sequence;
use lp_nums::Frac;
use sense::Sense;

/// The letter of a row: the objective, or a row that is equal to, at most or at least its
/// right-hand side.
#[derive(Clone, Copy, Debug, PartialEq, Eq)]
pub enum Letter {
    N,
    E,
    L,
    G,
}

/// A row with the line of ROWS that names it, its right-hand side, 0 where none is given, and its
/// range, where one is given. The right-hand side of the objective is the constant with the other
/// sign.
#[derive(Clone, Copy, Debug, PartialEq, Eq)]
pub struct Row {
    pub letter: Letter,
    pub line: u32,
    pub rhs: Frac,
    pub range: Option<Frac>,
}

/// A bound of a column: its value, none where the column has no end there, and the line that set
/// or removed it, 0 where it is the default.
#[derive(Clone, Copy, Debug, PartialEq, Eq)]
pub struct Bound {
    pub value: Option<Frac>,
    pub line: u32,
}

/// The bounds of a column. It is fixed where one line gave both.
#[derive(Clone, Copy, Debug, PartialEq, Eq)]
pub struct Column {
    pub lower: Bound,
    pub upper: Bound,
    pub fixed: bool,
}

/// A coefficient of the matrix or of the objective, explicit zeros with them.
#[derive(Clone, Copy, Debug, PartialEq, Eq)]
pub struct Entry {
    pub column: u32,
    pub row: u32,
    pub value: Frac,
}

/// A nonnegative quantity that a pair or a group speaks of: a column, how far a column is from its
/// upper bound, or how far a row is from its right-hand side.
#[derive(Clone, Copy, Debug, PartialEq, Eq)]
pub enum Quantity {
    Col(u32),
    Upc(u32),
    Row(u32),
}

/// Two quantities of which one must be zero.
#[derive(Clone, Copy, Debug, PartialEq, Eq)]
pub struct PairLine {
    pub a: Quantity,
    pub b: Quantity,
}

/// Quantities of which at most one may be other than zero, by place: one that stands twice is two.
#[derive(Drop)]
pub struct GroupLine {
    pub items: Sequence<Quantity>,
}

/// Whether the objective is to be least or greatest; the objective and the rows other than N rows in
/// file order, the place of the objective among them, the columns, entries, pairs and groups in file
/// order, and the line of ENDATA.
pub struct Deck {
    pub sense: Sense,
    pub rows: Sequence<Row>,
    pub objective: u32,
    pub columns: Sequence<Column>,
    pub entries: Sequence<Entry>,
    pub pairs: Sequence<PairLine>,
    pub groups: Sequence<GroupLine>,
    pub end_line: u32,
}

/// By a call, which keeps the models of the functions small that own one.
impl Drop for Deck {
    fn drop(self) {
        let Deck {
            sense: _,
            rows: _,
            objective: _,
            columns: _,
            entries: _,
            pairs: _,
            groups: _,
            end_line: _,
        } = self;
    }
}
