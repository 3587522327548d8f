//! Certificates of form 2 as plain data. Pairs, columns, constraints, lines and lists are counted
//! from 0.
ghost use Rattle.std.specs.Prelude.{◌≡◌, ◌≤◌};
ghost use Rattle.cert2_text.specs.Certs2.{counted};

use cert_text::{Cert, CertPoint};
use lp_base::Sequence;
use nogoods::NoGood;

/// What a certificate of form 2 claims, with what shows it.
pub enum Cert2 {
    /// The point is feasible and `z` is its cost times its denominator; the lines show that no
    /// feasible point is lower.
    Optimal {
        point: CertPoint,
        z: i128,
        lines: Sequence<Cert2Line>,
    },
    /// The lines show that no point is feasible.
    Infeasible {
        lines: Sequence<Cert2Line>,
    },
    /// From a point of the piece the ray can be followed without end, the cost falling.
    Unbounded {
        piece: NoGood,
        point: CertPoint,
        ray: Sequence<(u32, i64)>,
    },
}

/// By a call, which keeps the models of the functions small that own one.
impl Drop for Cert2 {
    fn drop(self) {
        match self {
            Cert2::Optimal {
                point: _,
                z: _,
                lines: _,
            } => {}
            Cert2::Infeasible { lines: _ } => {}
            Cert2::Unbounded {
                piece: _,
                point: _,
                ray: _,
            } => {}
        }
    }
}

/// A no-good with its reason, a list of multipliers, or no-goods that no later line names.
pub enum Cert2Line {
    /// A list of multipliers. Later cuts name it by its number among the lists.
    Shared {
        mult: Sequence<(u32, i64)>,
    },
    /// A ray cut, whose multipliers are its own and those of the list.
    Ray {
        ng: NoGood,
        list: Option<u64>,
        mult: Sequence<(u32, i64)>,
    },
    /// A point cut over `e`, whose multipliers are its own and those of the list.
    Point {
        ng: NoGood,
        e: i64,
        list: Option<u64>,
        mult: Sequence<(u32, i64)>,
    },
    /// A derived no-good: unit propagation over the earlier no-good lines of these numbers, in their
    /// order, closes.
    Derived {
        ng: NoGood,
        hints: Sequence<u64>,
    },
    /// No later line names the no-good lines of these numbers.
    Forget {
        lines: Sequence<u64>,
    },
}

/// By a call, which keeps the models of the functions small that own one.
impl Drop for Cert2Line {
    fn drop(self) {
        match self {
            Cert2Line::Shared { mult: _ } => {}
            Cert2Line::Ray {
                ng: _,
                list: _,
                mult: _,
            } => {}
            Cert2Line::Point {
                ng: _,
                e: _,
                list: _,
                mult: _,
            } => {}
            Cert2Line::Derived { ng: _, hints: _ } => {}
            Cert2Line::Forget { lines: _ } => {}
        }
    }
}

/// A certificate of form 1 or of form 2.
pub enum AnyCert {
    One(Cert),
    Two(Cert2),
}

/// By a call, which keeps the models of the functions small that own one.
impl Drop for AnyCert {
    fn drop(self) {
        match self {
            AnyCert::One(_) => {}
            AnyCert::Two(_) => {}
        }
    }
}

/// 1 for a no-good line, and 0 for a list or a line that drops others.
pub fn counted(line: &Cert2Line) -> u64
    ensures value { result ≡ counted line.now }
    ensures small { result ≤ 1 }
{
    match line {
        Cert2Line::Shared { .. } | Cert2Line::Forget { .. } => 0,
        Cert2Line::Ray { .. } | Cert2Line::Point { .. } | Cert2Line::Derived { .. } => 1,
    }
}
