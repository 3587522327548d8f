//! How a text falls into pieces, and a piece into fields.
ghost use Rattle.std.specs.Prelude.{◌≡◌, ◌<◌, ◌≤◌, ◌+◌, ◌∷◌, [], ◌==◌, not, IfOk, IfSome, IfNone, map, length};
ghost use Rattle.std.specs.List.{prefix_len};
ghost use Rattle.mps_lex.specs.Lines.{pieces, without_end, content};
ghost use Rattle.mps_lex.specs.Kinds.{is_blank, fields};
ghost use Rattle.mps_lex.specs.First.{first_of};
ghost use Rattle.mps_lex.specs.Shown.{shown};

use std::alloc::{AllocError, Global};

/// How many fields of a line are held at most: one more than a line has that is neither a head nor
/// a line of GROUPS.
pub const FIRST_FIELDS: usize = 6;

/// A space or a tab.
pub fn is_blank(byte: u8) -> bool
    ensures { result ≡ is_blank byte }
{
    byte == b' ' || byte == b'\t'
}

// How many bytes stand before the first LF.
fn line_len(text: &[u8]) -> usize
    ensures len { result ≡ prefix_len (λ b. not (b == 10)) text.now }
    ensures within { result ≤ length text.now }
{
    let mut at = 0;
    while at < text.len() && text[at] != b'\n' {
        at += 1;
    }
    at
}

/// How many bytes stand before the first blank.
pub fn run_len(text: &[u8]) -> usize
    ensures len { result ≡ prefix_len (λ b. not (is_blank b)) text.now }
    ensures within { result ≤ length text.now }
{
    let mut at = 0;
    while at < text.len() && !is_blank(text[at]) {
        at += 1;
    }
    at
}

/// The first piece of a text that has bytes, its LF with it, and what stands behind it.
pub fn first_piece(text: &[u8]) -> (&[u8], &[u8])
    requires { 0 < length text.now }
    ensures pieces { pieces text.now ≡ result.0.now ∷ pieces result.1.now }
    ensures parts { length result.0.now + length result.1.now ≡ length text.now }
    ensures some { 0 < length result.0.now }
{
    let len = line_len(text);
    if len < text.len() {
        return text.split_at(len + 1);
    }
    text.split_at(len)
}

/// The text without its last byte, where that is this byte.
pub fn without_end(byte: u8, text: &[u8]) -> &[u8]
    ensures value { result.now ≡ without_end byte text.now }
    ensures within { length result.now ≤ length text.now }
{
    if !text.is_empty() && text[text.len() - 1] == byte {
        return &text[..text.len() - 1];
    }
    text
}

/// A piece of a text without its end.
pub fn content_of(piece: &[u8]) -> &[u8]
    ensures value { result.now ≡ content piece.now }
    ensures within { length result.now ≤ length piece.now }
{
    without_end(b'\r', without_end(b'\n', piece))
}

/// The first field of a text, and what stands behind it. It takes no memory.
pub fn first_field(text: &[u8]) -> Option<(&[u8], &[u8])>
    ensures some { IfSome result (λ r. fields text.now ≡ r.0.now ∷ fields r.1.now) }
    ensures shorter { IfSome result (λ r. length r.1.now < length text.now) }
    ensures none { IfNone result (fields text.now ≡ []) }
{
    let mut rest = text;
    while !rest.is_empty() {
        if !is_blank(rest[0]) {
            return Some(rest.split_at(run_len(rest)));
        }
        rest = &rest[1..];
    }
    None
}

/// The number of fields. It takes no memory.
pub fn count_fields(text: &[u8]) -> usize
    ensures { result ≡ length (fields text.now) }
{
    let mut count = 0;
    let mut rest = text;
    while let Some((_, after)) = first_field(rest) {
        count += 1;
        rest = after;
    }
    count
}

/// The first fields.
pub fn fields_of<'a>(alloc: Global, text: &'a [u8]) -> Result<Vec<&'a [u8]>, AllocError>
    ensures { IfOk result (λ v. map shown v.items ≡ first_of (fields text.now)) }
{
    let mut found = Vec::new(alloc);
    let mut rest = text;
    while found.len() < FIRST_FIELDS {
        match first_field(rest) {
            Some((field, after)) => {
                found.push(field)?;
                rest = after;
            }
            None => return Ok(found),
        }
    }
    Ok(found)
}
