//! Certificates as plain data. Pairs, columns, constraints and lines are counted from 0.
use lp_base::Sequence;
use nogoods::NoGood;

/// What a certificate claims, with what shows it.
pub enum Cert {
    /// The point is feasible and `z` is its cost times its denominator; the lines show that no
    /// feasible point is lower.
    Optimal {
        point: CertPoint,
        z: i128,
        lines: Sequence<CertLine>,
    },
    /// The lines show that no point is feasible.
    Infeasible {
        lines: Sequence<CertLine>,
    },
    /// From a point of the piece the ray can be followed without end, the cost falling.
    Unbounded {
        piece: NoGood,
        point: CertPoint,
        ray: Sequence<(u32, i64)>,
    },
}

/// By a call, which keeps the models of the functions small that own one.
impl Drop for Cert {
    fn drop(self) {
        match self {
            Cert::Optimal {
                point: _,
                z: _,
                lines: _,
            } => {}
            Cert::Infeasible { lines: _ } => {}
            Cert::Unbounded {
                piece: _,
                point: _,
                ray: _,
            } => {}
        }
    }
}

/// The point whose column at each term has the term's number over `d`, and every other column 0.
#[derive(Drop)]
pub struct CertPoint {
    pub d: i64,
    pub terms: Sequence<(u32, i64)>,
}

/// A no-good with its reason.
pub enum CertLine {
    /// A ray cut: with the no-good's choices tight no point is feasible, and the multipliers on the
    /// constraints are a Farkas certificate of it.
    Ray {
        ng: NoGood,
        mult: Sequence<(u32, i64)>,
    },
    /// A point cut: with the no-good's choices tight the multipliers, over `e`, give a dual bound on
    /// the cost.
    Point {
        ng: NoGood,
        e: i64,
        mult: Sequence<(u32, i64)>,
    },
    /// A derived no-good: unit propagation over the earlier lines of these numbers, in their order,
    /// closes.
    Derived {
        ng: NoGood,
        hints: Sequence<u64>,
    },
}

/// By a call, which keeps the models of the functions small that own one.
impl Drop for CertLine {
    fn drop(self) {
        match self {
            CertLine::Ray { ng: _, mult: _ } => {}
            CertLine::Point {
                ng: _,
                e: _,
                mult: _,
            } => {}
            CertLine::Derived { ng: _, hints: _ } => {}
        }
    }
}
