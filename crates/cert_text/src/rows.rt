//! The forms of lines.
ghost use Rattle.cert_text.specs.Reading.{bound_at, point_at, value_at, piece_at, ray_at, ray_cut_at, point_cut_at, derived_at, cut_at, line_at, end_at};
ghost use Rattle.cert_text.specs.Steps.{Reads};

use crate::lists::{
    parse_first, parse_hints, parse_last_no_good, parse_line_end, parse_no_good, parse_terms,
    parse_word,
};
use crate::split::Split;
use crate::words::{Fault, parse_cost_value, parse_count, parse_positive};
use crate::{CertLine, CertPoint, CertWhy};
use lp_base::Sequence;
use nogoods::NoGood;
use std::alloc::Global;

/// A positive number, with the colon behind it.
#[tactic(auto, unfolding(crate::specs::Reading::bound_at, crate::specs::Reading::first_at))]
pub fn parse_bound(words: &mut Split) -> Result<i64, Fault>
    ensures { Reads (λ e. (e, words.new)) result (bound_at words.old) }
{
    let bound = parse_positive(parse_first(words)?)?;
    parse_word(words, b":")?;
    Ok(bound)
}

/// A point, behind its first word.
#[tactic(auto, unfolding(crate::specs::Reading::point_at))]
pub fn parse_point(alloc: Global, words: &mut Split) -> Result<CertPoint, Fault>
    ensures { Reads (λ point. point) result (point_at words.old) }
{
    parse_word(words, b"point")?;
    let d = parse_bound(words)?;
    let terms = parse_terms(alloc, words)?;
    Ok(CertPoint { d, terms })
}

/// The value of a point's cost.
#[tactic(auto, unfolding(crate::specs::Reading::value_at))]
pub fn parse_value(words: &mut Split) -> Result<i128, Fault>
    ensures { Reads (λ z. z) result (value_at words.old) }
{
    parse_word(words, b"value")?;
    let z = parse_cost_value(parse_first(words)?)?;
    parse_line_end(words)?;
    Ok(z)
}

/// The piece of a ray.
#[tactic(auto, unfolding(crate::specs::Reading::piece_at))]
pub fn parse_piece(alloc: Global, words: &mut Split) -> Result<NoGood, Fault>
    ensures { Reads (λ ng. ng) result (piece_at words.old) }
{
    parse_word(words, b"piece")?;
    parse_last_no_good(alloc, words)
}

/// A ray.
#[tactic(auto, unfolding(crate::specs::Reading::ray_at))]
pub fn parse_ray(alloc: Global, words: &mut Split) -> Result<Sequence<(u32, i64)>, Fault>
    ensures { Reads (λ ray. ray) result (ray_at words.old) }
{
    parse_word(words, b"ray")?;
    parse_word(words, b":")?;
    parse_terms(alloc, words)
}

#[tactic(auto, unfolding(crate::specs::Reading::ray_cut_at))]
fn parse_ray_cut(alloc: Global, words: &mut Split) -> Result<CertLine, Fault>
    ensures { Reads (λ line. line) result (ray_cut_at words.old) }
{
    let ng = parse_no_good(alloc, words)?;
    let mult = parse_terms(alloc, words)?;
    Ok(CertLine::Ray { ng, mult })
}

#[tactic(auto, unfolding(crate::specs::Reading::point_cut_at))]
fn parse_point_cut(alloc: Global, words: &mut Split) -> Result<CertLine, Fault>
    ensures { Reads (λ line. line) result (point_cut_at words.old) }
{
    let ng = parse_no_good(alloc, words)?;
    let e = parse_bound(words)?;
    let mult = parse_terms(alloc, words)?;
    Ok(CertLine::Point { ng, e, mult })
}

#[tactic(auto, unfolding(crate::specs::Reading::derived_at))]
fn parse_derived(alloc: Global, words: &mut Split) -> Result<CertLine, Fault>
    ensures { Reads (λ line. line) result (derived_at words.old) }
{
    let ng = parse_no_good(alloc, words)?;
    let hints = parse_hints(alloc, words)?;
    Ok(CertLine::Derived { ng, hints })
}

#[tactic(auto, unfolding(crate::specs::Reading::cut_at))]
fn parse_cut(alloc: Global, kind: &[u8], words: &mut Split) -> Result<CertLine, Fault>
    ensures { Reads (λ line. line) result (cut_at kind.now words.old) }
{
    if kind == b"i".as_slice() {
        return parse_ray_cut(alloc, words);
    }
    if kind == b"p".as_slice() {
        return parse_point_cut(alloc, words);
    }
    if kind == b"d".as_slice() {
        return parse_derived(alloc, words);
    }
    Err(Fault::Of(CertWhy::BadLine))
}

/// A no-good line.
#[tactic(auto, unfolding(crate::specs::Reading::line_at))]
pub fn parse_line(alloc: Global, words: &mut Split) -> Result<CertLine, Fault>
    ensures { Reads (λ line. line) result (line_at words.old) }
{
    let kind = parse_first(words)?;
    parse_cut(alloc, kind, words)
}

/// The last line, behind so many no-good lines.
#[tactic(auto, unfolding(crate::specs::Reading::end_at))]
pub fn parse_end(words: &mut Split, lines: u64) -> Result<u64, Fault>
    ensures { Reads (λ k. k) result (end_at lines words.old) }
{
    parse_word(words, b"end")?;
    let count = parse_count(parse_first(words)?, lines)?;
    parse_line_end(words)?;
    Ok(count)
}
