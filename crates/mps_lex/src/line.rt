//! Lines: their kinds and fields.
ghost use Rattle.std.specs.Prelude.{◌≡◌, ◌<◌, ◌+◌, ◌-◌, ◌^◌, IfOk, length};
ghost use Rattle.mps_lex.specs.Lines.{line_of};
ghost use Rattle.mps_lex.specs.Places.{placed_line, placed_lines};
ghost use Rattle.mps_lex.specs.First.{shortened};
ghost use Rattle.mps_lex.specs.Shown.{seen_line};

use crate::kinds::kind_of;
use crate::places::places_of;
use crate::split::{content_of, fields_of, first_piece};
use lp_base::Sequence;
use std::alloc::{AllocError, Global};

/// The sections of a deck.
#[derive(Clone, Copy, Debug, PartialEq, Eq)]
pub enum Section {
    Name,
    ObjSense,
    Rows,
    Columns,
    Rhs,
    Ranges,
    Bounds,
    Pairs,
    Groups,
    Endata,
}

/// What a line is.
#[derive(Clone, Copy, Debug, PartialEq, Eq)]
pub enum LineKind {
    /// No field.
    Blank,
    /// An asterisk at the front.
    Comment,
    /// The head of a section.
    Head(Section),
    /// The head of a section that decks leave out.
    LeftOut,
    /// One word at the margin that no section has.
    Unknown,
    /// Every other line.
    Entry,
}

/// A line of a text with its number, from 1. Its fields are the longest runs of bytes other than
/// space and tab, each as the place of its first byte and of the byte behind its last one.
#[derive(Drop)]
pub struct Line {
    pub number: u32,
    pub kind: LineKind,
    pub fields: Sequence<(u32, u32)>,
}

/// A line of a text, with the bytes of its first fields.
#[derive(Drop)]
pub struct SplitLine<'a> {
    /// Its number, from 1.
    pub number: u32,
    pub kind: LineKind,
    /// Its first fields, the longest runs of bytes other than space and tab.
    pub fields: Vec<&'a [u8]>,
    /// How many bytes it has, its end with them.
    pub size: usize,
}

/// The line of a piece of a text, with its number and its first fields.
pub fn line_of<'a>(alloc: Global, number: u32, piece: &'a [u8]) -> Result<SplitLine<'a>, AllocError>
    ensures { IfOk result (λ l. seen_line l ≡ shortened (line_of number piece.now)) }
{
    let text = content_of(piece);
    let fields = fields_of(alloc, text)?;
    Ok(SplitLine {
        number,
        kind: kind_of(text, &fields),
        fields,
        size: piece.len(),
    })
}

// The line of a piece of a text, which begins at a place.
fn placed_line(alloc: Global, number: u32, at: u32, piece: &[u8]) -> Result<Line, AllocError>
    requires { at + length piece.now < 2 ^ 32 }
    ensures { IfOk result (λ l. l ≡ placed_line number at piece.now) }
{
    let text = content_of(piece);
    let fields = fields_of(alloc, text)?;
    Ok(Line {
        number,
        kind: kind_of(text, &fields),
        fields: places_of(alloc, at, text)?,
    })
}

/// The lines of a text.
pub fn lines(alloc: Global, text: &[u8]) -> Result<Sequence<Line>, AllocError>
    requires { length text.now < 2 ^ 32 - 1 }
    ensures { IfOk result (λ ls. ls ≡ placed_lines text.now) }
{
    let mut found = Sequence::new(alloc);
    let mut rest = text;
    let mut number: u32 = 1;
    let mut at: u32 = 0;
    while !rest.is_empty() {
        let (piece, after) = first_piece(rest);
        found.push(placed_line(alloc, number, at, piece)?)?;
        rest = after;
        number += 1;
        at += piece.len() as u32;
    }
    Ok(found)
}
