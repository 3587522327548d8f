//! What a line is, told from its bytes and fields.
ghost use Rattle.std.specs.Prelude.{◌≡◌, map};
ghost use Rattle.std.specs.List.{list_all};
ghost use Rattle.mps_lex.specs.Lines.{content};
ghost use Rattle.mps_lex.specs.Kinds.{is_blank, section_named, is_left_out, kind_alone, kind_at_margin, kind_indented, kind_of, is_passed, fields};
ghost use Rattle.mps_lex.specs.First.{first_of};
ghost use Rattle.mps_lex.specs.Shown.{shown};

use crate::line::{LineKind, Section};
use crate::split::{content_of, is_blank};

#[tactic(auto, unfolding(crate::specs::Kinds::section_named))]
fn section_named(word: &[u8]) -> Option<Section>
    ensures { result ≡ section_named word.now }
{
    if word == b"NAME".as_slice() {
        return Some(Section::Name);
    }
    if word == b"OBJSENSE".as_slice() {
        return Some(Section::ObjSense);
    }
    if word == b"ROWS".as_slice() {
        return Some(Section::Rows);
    }
    if word == b"COLUMNS".as_slice() {
        return Some(Section::Columns);
    }
    if word == b"RHS".as_slice() {
        return Some(Section::Rhs);
    }
    if word == b"RANGES".as_slice() {
        return Some(Section::Ranges);
    }
    if word == b"BOUNDS".as_slice() {
        return Some(Section::Bounds);
    }
    if word == b"PAIRS".as_slice() {
        return Some(Section::Pairs);
    }
    if word == b"GROUPS".as_slice() {
        return Some(Section::Groups);
    }
    if word == b"ENDATA".as_slice() {
        return Some(Section::Endata);
    }
    None
}

#[tactic(auto, unfolding(crate::specs::Kinds::is_left_out))]
fn is_left_out(word: &[u8]) -> bool
    ensures { result ≡ is_left_out word.now }
{
    word == b"OBJSENSEMAX".as_slice()
        || word == b"OBJNAME".as_slice()
        || word == b"SOS".as_slice()
        || word == b"SOS1".as_slice()
        || word == b"SOS2".as_slice()
        || word == b"SETS".as_slice()
        || word == b"QUADOBJ".as_slice()
        || word == b"QMATRIX".as_slice()
        || word == b"QSECTION".as_slice()
        || word == b"QCMATRIX".as_slice()
        || word == b"CSECTION".as_slice()
        || word == b"INDICATORS".as_slice()
}

// A line whose first field is neither NAME nor OBJSENSE nor a left-out word.
fn kind_alone(word: &[u8], others: &[&[u8]]) -> LineKind
    ensures { result ≡ kind_alone word.now (map shown others.now) }
{
    match others {
        [] => match section_named(word) {
            Some(section) => LineKind::Head(section),
            None => LineKind::Unknown,
        },
        _ => LineKind::Entry,
    }
}

fn kind_at_margin(fields: &[&[u8]]) -> LineKind
    ensures { result ≡ kind_at_margin (map shown fields.now) }
{
    match fields {
        [] => LineKind::Blank,
        [word, others @ ..] => {
            if *word == b"NAME".as_slice() {
                return LineKind::Head(Section::Name);
            }
            if *word == b"OBJSENSE".as_slice() {
                return LineKind::Head(Section::ObjSense);
            }
            if is_left_out(*word) {
                return LineKind::LeftOut;
            }
            kind_alone(*word, others)
        }
    }
}

fn kind_indented(fields: &[&[u8]]) -> LineKind
    ensures { result ≡ kind_indented (map shown fields.now) }
{
    match fields {
        [] => LineKind::Blank,
        _ => LineKind::Entry,
    }
}

/// What a line with these bytes and first fields is.
pub fn kind_of(text: &[u8], found: &[&[u8]]) -> LineKind
    requires { map shown found.now ≡ first_of (fields text.now) }
    ensures { result ≡ kind_of text.now }
{
    match text {
        [] => LineKind::Blank,
        [b'*', ..] => LineKind::Comment,
        [first, ..] => {
            if is_blank(*first) {
                kind_indented(found)
            } else {
                kind_at_margin(found)
            }
        }
    }
}

fn is_all_blank(text: &[u8]) -> bool
    ensures { result ≡ list_all is_blank text.now }
{
    text.iter().all(|byte| *byte == b' ' || *byte == b'\t')
}

// Whether a line with these bytes is blank or a comment.
fn is_passed_content(text: &[u8]) -> bool
    ensures { result ≡ is_passed (kind_of text.now) }
{
    match text {
        [] => true,
        [first, ..] => {
            if *first == b'*' {
                return true;
            }
            is_all_blank(text)
        }
    }
}

/// Whether the line of a piece of a text is blank or a comment. It takes no memory.
pub fn is_passed(piece: &[u8]) -> bool
    ensures { result ≡ is_passed (kind_of (content piece.now)) }
{
    is_passed_content(content_of(piece))
}
