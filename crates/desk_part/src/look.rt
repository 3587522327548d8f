//! The search for the next piece: the one place that knows how the search is called.
ghost use Rattle.std.specs.Prelude.{◌≤◌, All, IfOk};
ghost use Rattle.derivation.specs.HintRuns.{NamesBelow};
ghost use Rattle.derivation.specs.Logs.{no_goods};
ghost use Rattle.search.specs.FirstPieces.{IsFound, HasEmpty};
ghost use Rattle.search.specs.Growth.{Grown};
ghost use Rattle.search.specs.Kept.{Keeps};
ghost use Rattle.desk_part.specs.Searches.{GoesOn};

use derivation::Log;
use lpcc_case::MOST_PAIRS;
use search::{Found, PieceSet, Search};
use std::alloc::{AllocError, Global};

/// A search over the pieces of so many pairs, which goes on where it was.
#[derive(Drop)]
pub struct KeptSearch {
    pub pairs: u32,
    pub search: Search,
}

/// The kept search, or a new one where there is none over so many pairs.
fn resumed(
    alloc: Global,
    log: &Log,
    pairs: u32,
    blocked: &PieceSet,
    kept: Option<KeptSearch>,
) -> Result<Search, AllocError>
    requires { GoesOn (no_goods log.now) blocked.now kept }
    ensures { IfOk result (Keeps pairs (no_goods log.now) blocked.now) }
{
    if let Some(kept) = kept {
        if kept.pairs == pairs {
            return Ok(kept.search);
        }
    }
    Search::create(alloc, pairs, log, blocked)
}

/// The first piece that no step bars and that is not blocked. The search is kept, unless memory is
/// short.
pub fn look(
    alloc: Global,
    log: &mut Log,
    pairs: u32,
    blocked: &PieceSet,
    kept: &mut Option<KeptSearch>,
) -> Result<Found, AllocError>
    requires few { pairs ≤ MOST_PAIRS }
    requires named { All (NamesBelow pairs) (no_goods log.old) }
    requires goes_on { GoesOn (no_goods log.old) blocked.now kept.old }
    ensures found { IfOk result (IsFound pairs (no_goods log.old) blocked.now) }
    ensures empty { IfOk result (HasEmpty (no_goods log.new)) }
    ensures grown { Grown pairs log.old log.new }
    ensures goes_on { GoesOn (no_goods log.new) blocked.now kept.new }
{
    let mut search = resumed(alloc, log, pairs, blocked, kept.take())?;
    let found = search.next(alloc, log, pairs, blocked)?;
    *kept = Some(KeptSearch { pairs, search });
    Ok(found)
}
