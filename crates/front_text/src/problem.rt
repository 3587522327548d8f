//! The two kinds of problems. Variables are counted from 0.
use lp_base::Sequence;

/// A linear complementarity problem: a z is asked for with z and M z + q at least 0, and in each
/// place one of the two 0. `rows` has the rows of M, each as its terms: a variable with its
/// coefficient.
pub struct Lcp {
    pub size: u32,
    pub q: Sequence<i64>,
    pub rows: Sequence<Sequence<(u32, i64)>>,
}

/// By a call, which keeps the models of the functions small that own one.
impl Drop for Lcp {
    fn drop(self) {
        let Lcp {
            size: _,
            q: _,
            rows: _,
        } = self;
    }
}

/// The sum of the terms, each a variable with its coefficient, is at least `rhs`.
#[derive(Drop)]
pub struct Line {
    pub rhs: i64,
    pub terms: Sequence<(u32, i64)>,
}

/// A bilevel problem over `nx` variables x and behind them `ny` variables y, all free. The least
/// cost is asked for over the points that meet all lines, where y is least in `follow` among those
/// that meet the lines of `low` for this x. `cost` has a number for each variable, and `follow` one
/// for each y.
pub struct Bilevel {
    pub nx: u32,
    pub ny: u32,
    pub cost: Sequence<i64>,
    pub follow: Sequence<i64>,
    pub up: Sequence<Line>,
    pub low: Sequence<Line>,
}

/// By a call, which keeps the models of the functions small that own one.
impl Drop for Bilevel {
    fn drop(self) {
        let Bilevel {
            nx: _,
            ny: _,
            cost: _,
            follow: _,
            up: _,
            low: _,
        } = self;
    }
}
