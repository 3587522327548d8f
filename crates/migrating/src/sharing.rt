//! Which multipliers several cuts share.
ghost use Rattle.std.specs.Prelude.{◌≡◌, ◌∷◌, ◌++◌, [], IfOk, List, MatchOption, OnOk};
ghost use Rattle.cert2_text.specs.Wholes.{Terms};
ghost use Rattle.migrating.specs.Migration.{mult_in};
ghost use Rattle.migrating.specs.Making.{AreCounted, AreShared};

use crate::lists::{LEAST_SHARED, Lists, Term};
use cert_text::CertLine;
use std::alloc::{AllocError, Global};

// Counts multipliers that stand behind all others.
fn count_mult<'a>(
    once: &mut Lists<'a>,
    again: &mut Lists<'a>,
    mult: &'a [Term],
) -> Result<(), AllocError>
    ensures { OnOk result ((mults : List Terms) → AreCounted mults once.old again.old → AreCounted (mults ++ mult.now ∷ []) once.new again.new) }
{
    if mult.len() < LEAST_SHARED {
        return Ok(());
    }
    if once.has(mult) {
        again.add(mult)
    } else {
        once.add(mult)
    }
}

// Counts the multipliers of a line that stands behind all others.
fn count_line<'a>(
    once: &mut Lists<'a>,
    again: &mut Lists<'a>,
    line: &'a CertLine,
) -> Result<(), AllocError>
    ensures { OnOk result ((mults : List Terms) → AreCounted mults once.old again.old → AreCounted (mults ++ mult_in line.now) once.new again.new) }
{
    match line {
        CertLine::Ray { mult, .. } | CertLine::Point { mult, .. } => {
            count_mult(once, again, mult.as_slice())
        }
        CertLine::Derived { .. } => Ok(()),
    }
}

/// The multipliers of enough terms that stand whole in at least two of the cuts.
pub fn shared_lists<'a>(alloc: Global, lines: &'a [CertLine]) -> Result<Lists<'a>, AllocError>
    ensures { IfOk result (AreShared lines.now) }
{
    let mut once = Lists::new(alloc);
    let mut again = Lists::new(alloc);
    for line in lines {
        count_line(&mut once, &mut again, line)?;
    }
    Ok(again)
}
