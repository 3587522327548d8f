//! Variables of the dictionary: a column with its bounds, the slack of a constraint with several
//! terms, or the cost.

/// A variable that is counted from one of its bounds. A column with a lower and an upper bound is
/// one variable, so that no row stands for a bound.
#[derive(Clone, Copy)]
pub struct Variable {
    /// The constraint that bounds it below by 0. A free variable has none.
    pub lower: Option<u32>,
    /// The constraint that bounds it above.
    pub upper: Option<u32>,
    /// How far the upper bound lies above the lower one.
    pub range: Option<i64>,
    /// Whether it is counted down from its upper bound.
    pub reflected: bool,
    /// How many choices, or equations, hold it at its lower bound.
    pub held_at_lower: u32,
    /// How many choices hold it at its upper bound.
    pub held_at_upper: u32,
    /// Whether it is basic. `place` is then its row, and else its column.
    pub basic: bool,
    pub place: usize,
}

impl Variable {
    /// A variable without bounds, in column 0.
    pub fn free() -> Variable {
        Variable {
            lower: None,
            upper: None,
            range: None,
            reflected: false,
            held_at_lower: 0,
            held_at_upper: 0,
            basic: false,
            place: 0,
        }
    }

    /// Whether it has no bound.
    #[inline(always)]
    pub fn is_free(self) -> bool {
        self.lower.is_none()
    }

    /// Whether it is held at the bound that it is counted from.
    #[inline(always)]
    pub fn is_held_here(self) -> bool {
        if self.reflected {
            self.held_at_upper > 0
        } else {
            self.held_at_lower > 0
        }
    }

    /// Whether it is held at its other bound.
    #[inline(always)]
    pub fn is_held_there(self) -> bool {
        if self.reflected {
            self.held_at_lower > 0
        } else {
            self.held_at_upper > 0
        }
    }

    /// The constraint of the bound that it is counted from.
    #[inline(always)]
    pub fn constraint(self) -> Option<u32> {
        if self.reflected {
            self.upper
        } else {
            self.lower
        }
    }
}

/// The variable of this number. Past the last one stands a free variable.
#[inline(always)]
pub fn variable_at(variables: &[Variable], number: usize) -> Variable {
    if number < variables.len() {
        variables[number]
    } else {
        Variable::free()
    }
}

/// What a constraint is: a bound of a variable, the upper one or the lower one.
#[derive(Clone, Copy)]
pub struct Bound {
    pub variable: usize,
    pub upper: bool,
}

/// A column in terms of its variable, counted from the lower bound: `(variable + shift) / scale`.
#[derive(Clone, Copy)]
pub struct Scale {
    pub scale: i64,
    pub shift: i64,
}
