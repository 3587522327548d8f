//! The linear forms of a case, each an affine function of the columns.
ghost use Rattle.std.specs.Prelude.{◌≡◌, false, nat_lt, true};
ghost use Rattle.lpcc_case.specs.Forms.{IsFormOf, number, precedes};
ghost use Rattle.lpcc_case.specs.Instance.{Instance};
ghost use Rattle.lpcc_case.specs.declared.form.Form.{Form as Linear};

/// A column's value, a constraint's left side minus its right side, or the cost.
#[derive(Clone, Copy, Debug, PartialEq, Eq, PartialOrd, Ord)]
pub enum Form {
    Col(u32),
    Con(u32),
    Cost,
}

impl Form {
    /// Whether this form stands before the other: columns first, then constraints, both by number,
    /// then the cost.
    pub fn precedes(self, other: Form) -> bool
        ensures { result ≡ precedes self other }
    {
        match (self, other) {
            (Form::Col(i), Form::Col(j)) => i < j,
            (Form::Con(k), Form::Con(l)) => k < l,
            (Form::Col(_), _) => true,
            (Form::Con(_), Form::Cost) => true,
            _ => false,
        }
    }
}

/// The forms of an instance stand in the order of their numbers. No form stands before itself, and
/// the order is transitive.
pub fn order_of_forms()
    ensures by_number { (a : Instance) (f g : Linear) → IsFormOf a f → IsFormOf a g → precedes f g ≡ nat_lt (number a f) (number a g) }
    ensures irreflexive { (f : Linear) → precedes f f ≡ false }
    ensures transitive { (f g h : Linear) → precedes f g ≡ true → precedes g h ≡ true → precedes f h ≡ true }
{}
