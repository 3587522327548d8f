//! The places of fields in a text.
ghost use Rattle.std.specs.Prelude.{◌≡◌, ◌+◌, ◌<◌, ◌^◌, IfOk, length};
ghost use Rattle.mps_lex.specs.Places.{places_from};

use crate::split::{is_blank, run_len};
use lp_base::Sequence;
use std::alloc::{AllocError, Global};

/// The places of the longest runs of bytes that are no blanks, where the first byte stands at a
/// place.
pub fn places_of(alloc: Global, at: u32, text: &[u8]) -> Result<Sequence<(u32, u32)>, AllocError>
    requires { at + length text.now < 2 ^ 32 }
    ensures { IfOk result (λ places. places ≡ places_from at text.now) }
{
    let mut found = Sequence::new(alloc);
    let mut rest = text;
    let mut from = at;
    while !rest.is_empty() {
        if is_blank(rest[0]) {
            rest = &rest[1..];
            from += 1;
        } else {
            let (field, after) = rest.split_at(run_len(rest));
            let end = from + field.len() as u32;
            found.push((from, end))?;
            rest = after;
            from = end;
        }
    }
    Ok(found)
}
