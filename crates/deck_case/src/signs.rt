//! Costs of an objective that is to be least, or greatest.
ghost use Rattle.std.specs.Prelude.{◌≡◌, All, IfOk, map};
ghost use Rattle.sense.specs.Senses.{signed};
ghost use Rattle.lpcc_case.specs.Cases.{FitsCase};

use lp_base::Sequence;
use sense::Sense;
use std::alloc::{AllocError, Global};

/// A number of an objective of this sense, as it is to be least.
pub fn signed(sense: Sense, number: i64) -> i64
    requires { FitsCase number }
    ensures { result ≡ signed sense number }
{
    match sense {
        Sense::Min => number,
        Sense::Max => -number,
    }
}

/// The numbers of an objective of this sense, as it is to be least.
pub fn all_signed(alloc: Global, sense: Sense, numbers: &[i64]) -> Result<Sequence<i64>, AllocError>
    requires { All FitsCase numbers.now }
    ensures { IfOk result (λ made. made ≡ map (signed sense) numbers.now) }
{
    let mut made = Sequence::new(alloc);
    for number in numbers {
        made.push(signed(sense, *number))?;
    }
    Ok(made)
}
