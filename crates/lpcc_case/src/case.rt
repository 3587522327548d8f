//! The case of a deck: cost, constraints and pairs over whole numbers.
ghost use Rattle.std.specs.Prelude.{◌≡◌, ◌<◌, IfOk, length};
ghost use Rattle.lpcc_case.specs.Cases.{IsCase, instance_of};
ghost use Rattle.lpcc_case.specs.Instance.{chosen, chosen_number};

use crate::Constraint;
use lp_base::Sequence;
use nogoods::{Choice, Side};
use sense::Sense;
use std::alloc::{AllocError, Global};
use std::marker::Model;

/// An instance with the limits that keep every sum of a test below 2^127. Contracts see it as
/// its parts.
pub struct Case {
    columns: u32,
    cost: Sequence<i64>,
    scale: i64,
    offset: i64,
    sense: Sense,
    constraints: Sequence<Constraint>,
    pairs: Sequence<(u32, u32)>,
}

/// By a call, which keeps the models of the functions small that own one.
impl Drop for Case {
    fn drop(self) {
        let Case {
            columns: _,
            cost: _,
            scale: _,
            offset: _,
            sense: _,
            constraints: _,
            pairs: _,
        } = self;
    }
}

impl Model for Case {
    ghost use Rattle.lpcc_case.specs.Instance.{Instance};

    ghost Value = { Instance };

    ghost use Rattle.lpcc_case.specs.Cases.{IsCase, instance_of};

    ghost view = { λ c. instance_of c.columns c.cost c.scale c.offset c.sense c.constraints c.pairs };

    ghost invariant = { λ c. IsCase (instance_of c.columns c.cost c.scale c.offset c.sense c.constraints c.pairs) };
}

impl Case {
    /// The case of these parts: as many costs as columns, a scale of at least 1, terms whose
    /// columns ascend, pairs of two inequalities, and all numbers within the limits.
    pub fn of_parts(
        columns: u32,
        cost: Sequence<i64>,
        scale: i64,
        offset: i64,
        sense: Sense,
        constraints: Sequence<Constraint>,
        pairs: Sequence<(u32, u32)>,
    ) -> Case
        requires { IsCase (instance_of columns cost scale offset sense constraints pairs) }
        ensures { result ≡ instance_of columns cost scale offset sense constraints pairs }
    {
        Case {
            columns,
            cost,
            scale,
            offset,
            sense,
            constraints,
            pairs,
        }
    }

    /// The number of columns.
    pub fn columns(&self) -> u32
        ensures { result ≡ self.now.columns }
    {
        self.columns
    }

    /// The cost of each column.
    pub fn cost(&self) -> &[i64]
        ensures list { result.now ≡ self.now.cost }
        ensures kept { IsCase self.now }
    {
        self.cost.as_slice()
    }

    /// What the cost was multiplied by to make it whole, at least 1.
    pub fn scale(&self) -> i64
        ensures value { result ≡ self.now.scale }
        ensures kept { IsCase self.now }
    {
        self.scale
    }

    /// The constant of the objective, times the scale.
    pub fn offset(&self) -> i64
        ensures value { result ≡ self.now.offset }
        ensures kept { IsCase self.now }
    {
        self.offset
    }

    /// Whether the objective is to be least or greatest. The cost is to be least in either.
    pub fn sense(&self) -> Sense
        ensures { result ≡ self.now.sense }
    {
        self.sense
    }

    /// The constraints, counted from 0.
    pub fn constraints(&self) -> &[Constraint]
        ensures list { result.now ≡ self.now.constraints }
        ensures kept { IsCase self.now }
    {
        self.constraints.as_slice()
    }

    /// The pairs, each with the numbers of two inequalities, side A first.
    pub fn pairs(&self) -> &[(u32, u32)]
        ensures list { result.now ≡ self.now.pairs }
        ensures kept { IsCase self.now }
    {
        self.pairs.as_slice()
    }

    /// The number of the constraint that a choice makes tight.
    pub fn chosen_number(&self, choice: Choice) -> u32
        requires { choice.pair < length self.now.pairs }
        ensures value { result ≡ chosen_number self.now choice }
        ensures within { result < length self.now.constraints }
    {
        let pair = self.pairs()[choice.pair as usize];
        match choice.side {
            Side::A => pair.0,
            Side::B => pair.1,
        }
    }

    /// The constraint that a choice makes tight.
    pub fn chosen(&self, choice: Choice) -> &Constraint
        requires { choice.pair < length self.now.pairs }
        ensures value { result.now ≡ chosen self.now choice }
        ensures kept { IsCase self.now }
    {
        &self.constraints()[self.chosen_number(choice) as usize]
    }

    /// An equal case.
    pub fn copy(&self, alloc: Global) -> Result<Case, AllocError>
        ensures { IfOk result (λ made. made ≡ self.now) }
    {
        let cost = self.cost.copy(alloc)?;
        let constraints = copy_constraints(alloc, self.constraints())?;
        let pairs = self.pairs.copy(alloc)?;
        Ok(Case::of_parts(
            self.columns,
            cost,
            self.scale,
            self.offset,
            self.sense,
            constraints,
            pairs,
        ))
    }
}

fn copy_constraints(
    alloc: Global,
    constraints: &[Constraint],
) -> Result<Sequence<Constraint>, AllocError>
    ensures { IfOk result (λ made. made ≡ constraints.now) }
{
    let mut made = Sequence::new(alloc);
    for constraint in constraints {
        made.push(constraint.copy(alloc)?)?;
    }
    Ok(made)
}
