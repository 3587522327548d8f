//! Which of the pieces set aside the ending names.
ghost use Rattle.std.specs.Prelude.{◌≡◌, ◌<◌, ◌≤◌, ◌+◌, ◌↔◌, Any, IfSome, IsTrue, false, true, length, map};
ghost use Rattle.cuts.specs.Cuts.{no_good_of};
ghost use Rattle.nogoods.specs.Pieces.{Bars};
ghost use Rattle.desk_part.specs.Stuck.{IsBefore, IsBehind, LowestUpto};

use cuts::Cut;
use nogoods::{Piece, bars};
use play::Aside;

/// Whether one of the cuts bars the piece.
fn is_barred(absorbed: &[Cut], piece: &Piece) -> bool
    ensures { IsTrue result ↔ Any (λ c. Bars (no_good_of c) piece.now) absorbed.now }
{
    absorbed.iter().any(|cut| bars(cut.no_good(), piece))
}

fn is_not_above(left: &Aside, right: &Aside) -> bool
    ensures behind { result ≡ true → left.now.ticket ≤ right.now.ticket }
    ensures before { result ≡ false → right.now.ticket ≤ left.now.ticket }
{
    left.ticket <= right.ticket
}

/// Whether there is a best piece whose ticket is not above that of this one.
fn is_behind(aside: &[Aside], best: Option<usize>, at: usize) -> bool
    requires within { at < length aside.now }
    requires best { IfSome best (λ i. i < length aside.now) }
    ensures behind { result ≡ true → IsBehind aside.now best at }
    ensures before { result ≡ false → IsBefore aside.now best at }
{
    match best {
        Some(best) => is_not_above(&aside[best], &aside[at]),
        None => false,
    }
}

/// The better of the best piece so far and this one.
fn better(absorbed: &[Cut], aside: &[Aside], best: Option<usize>, at: usize) -> Option<usize>
    requires within { at < length aside.now }
    requires best { LowestUpto (map no_good_of absorbed.now) aside.now at best }
    ensures { LowestUpto (map no_good_of absorbed.now) aside.now (at + 1) result }
{
    if is_behind(aside, best, at) {
        return best;
    }
    if is_barred(absorbed, &aside[at].piece) {
        return best;
    }
    Some(at)
}

/// Of the pieces set aside that no cut bars the one of the lowest ticket.
pub fn lowest(absorbed: &[Cut], aside: &[Aside]) -> Option<usize>
    ensures { LowestUpto (map no_good_of absorbed.now) aside.now (length aside.now) result }
{
    let mut best = None;
    for at in 0..aside.len() {
        best = better(absorbed, aside, best, at);
    }
    best
}
