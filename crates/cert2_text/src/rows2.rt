//! The forms of lines of form 2.
ghost use Rattle.cert_text.specs.Steps.{Reads};
ghost use Rattle.cert2_text.specs.Reading2.{some_dropped, shared_at, ray2_at, point2_at, derived2_at, forget_at, line2_by, line2_at};

use crate::Cert2Line;
use crate::lists2::{parse_dropped, parse_list};
use cert_text::CertWhy;
use cert_text::lists::{parse_first, parse_hints, parse_no_good, parse_terms, parse_word};
use cert_text::rows::parse_bound;
use cert_text::split::Split;
use cert_text::words::Fault;
use lp_base::Sequence;
use std::alloc::Global;

#[tactic(auto, unfolding(crate::specs::Reading2::shared_at))]
fn parse_shared(alloc: Global, words: &mut Split) -> Result<Cert2Line, Fault>
    ensures { Reads (λ line. line) result (shared_at words.old) }
{
    parse_word(words, b":")?;
    let mult = parse_terms(alloc, words)?;
    Ok(Cert2Line::Shared { mult })
}

#[tactic(auto, unfolding(crate::specs::Reading2::ray2_at))]
fn parse_ray_cut(alloc: Global, words: &mut Split) -> Result<Cert2Line, Fault>
    ensures { Reads (λ line. line) result (ray2_at words.old) }
{
    let ng = parse_no_good(alloc, words)?;
    let list = parse_list(words)?;
    let mult = parse_terms(alloc, words)?;
    Ok(Cert2Line::Ray { ng, list, mult })
}

#[tactic(auto, unfolding(crate::specs::Reading2::point2_at))]
fn parse_point_cut(alloc: Global, words: &mut Split) -> Result<Cert2Line, Fault>
    ensures { Reads (λ line. line) result (point2_at words.old) }
{
    let ng = parse_no_good(alloc, words)?;
    let e = parse_bound(words)?;
    let list = parse_list(words)?;
    let mult = parse_terms(alloc, words)?;
    Ok(Cert2Line::Point { ng, e, list, mult })
}

#[tactic(auto, unfolding(crate::specs::Reading2::derived2_at))]
fn parse_derived(alloc: Global, words: &mut Split) -> Result<Cert2Line, Fault>
    ensures { Reads (λ line. line) result (derived2_at words.old) }
{
    let ng = parse_no_good(alloc, words)?;
    let hints = parse_hints(alloc, words)?;
    Ok(Cert2Line::Derived { ng, hints })
}

// A line that drops others names at least one.
fn some_dropped(lines: Sequence<u64>) -> Result<Cert2Line, Fault>
    ensures { Reads (λ line. line) result (some_dropped lines) }
{
    if lines.is_empty() {
        return Err(Fault::Of(CertWhy::BadLine));
    }
    Ok(Cert2Line::Forget { lines })
}

#[tactic(auto, unfolding(crate::specs::Reading2::forget_at))]
fn parse_forget(alloc: Global, words: &mut Split) -> Result<Cert2Line, Fault>
    ensures { Reads (λ line. line) result (forget_at words.old) }
{
    let lines = parse_dropped(alloc, words)?;
    some_dropped(lines)
}

#[tactic(auto, unfolding(crate::specs::Reading2::line2_by))]
fn parse_line_of(alloc: Global, kind: &[u8], words: &mut Split) -> Result<Cert2Line, Fault>
    ensures { Reads (λ line. line) result (line2_by kind.now words.old) }
{
    if kind == b"i".as_slice() {
        return parse_ray_cut(alloc, words);
    }
    if kind == b"p".as_slice() {
        return parse_point_cut(alloc, words);
    }
    if kind == b"d".as_slice() {
        return parse_derived(alloc, words);
    }
    if kind == b"m".as_slice() {
        return parse_shared(alloc, words);
    }
    if kind == b"x".as_slice() {
        return parse_forget(alloc, words);
    }
    Err(Fault::Of(CertWhy::BadLine))
}

/// A line among the no-good lines.
#[tactic(auto, unfolding(crate::specs::Reading2::line2_at))]
pub fn parse_line2(alloc: Global, words: &mut Split) -> Result<Cert2Line, Fault>
    ensures { Reads (λ line. line) result (line2_at words.old) }
{
    let kind = parse_first(words)?;
    parse_line_of(alloc, kind, words)
}
