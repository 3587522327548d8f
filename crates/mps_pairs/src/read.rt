//! Reading a deck.
ghost use Rattle.std.specs.Prelude.{◌≡◌, ◌+◌, ◌-◌, ◌<◌, ◌≤◌, ◌^◌, OnOk, IfOk, IfErr, Ok, Err, Option, None, Some, true, ℕ, [], length, map};
ghost use Rattle.mps_lex.specs.Lines.{line_of};
ghost use Rattle.mps_lex.specs.Shown.{shown};
ghost use Rattle.mps_lex.specs.First.{HoldsFirst, whole};
ghost use Rattle.decks.specs.declared.deck.Deck as spelled;
ghost use Rattle.decks.specs.declared.fault.DeckWhy as why;
ghost use Rattle.decks.specs.declared.fault.DeckWhy.TheVariants.{LeftOutSection};
ghost use Rattle.decks.specs.declared.fault.DeckFault.TheVariants.{At};
ghost use Rattle.decks.specs.Decks.{IsDeck};
ghost use Rattle.decks.specs.Faults.{◌or◌, head_words_fault, named_at};
ghost use Rattle.decks.specs.Senses.{sense_on_head};
ghost use Rattle.decks.specs.Texts.{Spells, Fails, FailsAs, ends_deck, found_by};
ghost use Rattle.lp_base.specs.Answers.{Gives, Refuses};
ghost use Rattle.mps_tables.specs.Answers.{Checks, Tells};
ghost use Rattle.mps_pairs.specs.Known.{known, section_state, begin, next_section_state, section_order_fault, known_fault, known_end_fault, line_fault, with_data, with_head, next_known, deck_from};
ghost use Rattle.mps_pairs.specs.Answers.{TellsAt, JudgesAt};

use crate::sections::SectionState;
use crate::senses::sense_of_head;
use crate::tables::Tables;
use decks::{Deck, DeckFault, DeckWhy};
use mps_lex::{LineKind, Section, SplitLine, content_of, first_piece, line_of};
use mps_tables::Fault;
use sense::Sense;
use std::alloc::{AllocError, Global};

// The fault at a line.
fn at_line(fault: Fault, number: u32) -> DeckFault
    ensures { (o : Option why.DeckWhy) → Tells fault o → TellsAt result (named_at number o) }
{
    match fault {
        Fault::Memory => DeckFault::NoMemory(AllocError),
        Fault::Of(why) => DeckFault::At { line: number, why },
    }
}

// Checks what a section has that a head of this number ends.
fn check_end<'a>(state: SectionState, tables: &Tables<'a>, number: u32) -> Result<(), DeckFault>
    ensures { JudgesAt result (known_end_fault state tables.now number) }
{
    match state.current {
        Some(Section::Rows) => {
            if tables.has_objective() {
                return Ok(());
            }
            Err(DeckFault::At {
                line: number,
                why: DeckWhy::NoObjective,
            })
        }
        Some(Section::Bounds) => match tables.below_zero() {
            Some(line) => Err(DeckFault::At {
                line,
                why: DeckWhy::UpperBelowZero,
            }),
            None => Ok(()),
        },
        _ => Ok(()),
    }
}

// Checks that a head stands in its order, and gives the sense that it names behind its word.
#[tactic(auto, using(mps_tables::proofs::Judging::first_is, mps_tables::proofs::Judging::then_is))]
fn words_in_order(
    state: SectionState,
    next: Section,
    fields: &[&[u8]],
) -> Result<Option<Sense>, DeckWhy>
    ensures fault { Checks result (section_order_fault state next or head_words_fault next (map shown fields.now)) }
    ensures value { IfOk result (λ o. o ≡ sense_on_head next (map shown fields.now)) }
{
    state.check(next)?;
    sense_of_head(next, fields)
}

// Checks a head, and gives the sense that it names behind its word.
fn check_head<'a>(
    state: SectionState,
    next: Section,
    line: &SplitLine<'a>,
    text: &'a [u8],
) -> Result<Option<Sense>, DeckFault>
    requires { HoldsFirst line.now text.now }
    ensures fault { JudgesAt result (named_at (whole line.now text.now).number (section_order_fault state next or head_words_fault next (whole line.now text.now).fields)) }
    ensures value { IfOk result (λ o. o ≡ sense_on_head next (whole line.now text.now).fields) }
{
    match words_in_order(state, next, &line.fields) {
        Ok(sense) => Ok(sense),
        Err(why) => Err(DeckFault::At {
            line: line.number,
            why,
        }),
    }
}

// The fault of a section that decks leave out.
#[tactic(auto, using(crate::proofs::Judging::first_tells_at, crate::proofs::Judging::then_tells_at))]
fn left_out<'a>(state: SectionState, tables: &Tables<'a>, number: u32) -> DeckFault
    ensures { TellsAt result (known_end_fault state tables.now number or Some (number, LeftOutSection)) }
{
    match check_end(state, tables, number) {
        Err(fault) => fault,
        Ok(()) => DeckFault::At {
            line: number,
            why: DeckWhy::LeftOutSection,
        },
    }
}

#[tactic(auto, using(crate::proofs::Judging::first_tells_at, crate::proofs::Judging::then_judges_at))]
fn parse_head<'a>(
    state: &mut SectionState,
    tables: &mut Tables<'a>,
    next: Section,
    line: &SplitLine<'a>,
    text: &'a [u8],
) -> Result<(), DeckFault>
    requires { HoldsFirst line.now text.now }
    ensures fault { JudgesAt result (known_end_fault state.old tables.old (whole line.now text.now).number or named_at (whole line.now text.now).number (section_order_fault state.old next or head_words_fault next (whole line.now text.now).fields)) }
    ensures state { OnOk result (state.new ≡ begin state.old next) }
    ensures tables { OnOk result (tables.new ≡ with_head tables.old next (whole line.now text.now).fields) }
{
    check_end(*state, tables, line.number)?;
    let sense = check_head(*state, next, line, text)?;
    *state = state.begin(next);
    tables.note(sense);
    Ok(())
}

fn parse_entry<'a>(
    alloc: Global,
    current: Option<Section>,
    tables: &mut Tables<'a>,
    line: &SplitLine<'a>,
    text: &'a [u8],
) -> Result<(), DeckFault>
    requires { HoldsFirst line.now text.now }
    ensures fault { JudgesAt result (named_at (whole line.now text.now).number (known_fault current tables.old (whole line.now text.now).fields)) }
    ensures tables { OnOk result (tables.new ≡ with_data current tables.old (whole line.now text.now).number (whole line.now text.now).fields) }
{
    match tables.parse_data(alloc, current, line, text) {
        Err(fault) => Err(at_line(fault, line.number)),
        Ok(()) => Ok(()),
    }
}

// Parses a line by its kind.
fn parse_line<'a>(
    alloc: Global,
    state: &mut SectionState,
    tables: &mut Tables<'a>,
    line: &SplitLine<'a>,
    text: &'a [u8],
) -> Result<(), DeckFault>
    requires { HoldsFirst line.now text.now }
    ensures fault { JudgesAt result (line_fault state.old tables.old (whole line.now text.now)) }
    ensures state { OnOk result (state.new ≡ next_section_state state.old (whole line.now text.now).kind) }
    ensures tables { OnOk result (tables.new ≡ next_known state.old.current tables.old (whole line.now text.now)) }
{
    match line.kind {
        LineKind::Blank | LineKind::Comment => Ok(()),
        LineKind::Unknown => Err(DeckFault::At {
            line: line.number,
            why: DeckWhy::UnknownSection,
        }),
        LineKind::LeftOut => Err(left_out(*state, tables, line.number)),
        LineKind::Head(next) => parse_head(state, tables, next, line, text),
        LineKind::Entry => parse_entry(alloc, state.current, tables, line, text),
    }
}

fn ends_deck(kind: LineKind) -> bool
    ensures { result ≡ ends_deck kind }
{
    matches!(kind, LineKind::Head(Section::Endata))
}

// Parses a piece of the text, and says whether it ends the deck.
fn parse_piece<'a>(
    alloc: Global,
    state: &mut SectionState,
    tables: &mut Tables<'a>,
    number: u32,
    piece: &'a [u8],
) -> Result<bool, DeckFault>
    ensures fault { JudgesAt result (line_fault state.old tables.old (line_of number piece.now)) }
    ensures state { OnOk result (state.new ≡ next_section_state state.old (line_of number piece.now).kind) }
    ensures tables { OnOk result (tables.new ≡ next_known state.old.current tables.old (line_of number piece.now)) }
    ensures ends { IfOk result (λ b. b ≡ ends_deck (line_of number piece.now).kind) }
{
    match line_of(alloc, number, piece) {
        Err(error) => Err(DeckFault::NoMemory(error)),
        Ok(line) => {
            parse_line(alloc, state, tables, &line, content_of(piece))?;
            Ok(ends_deck(line.kind))
        }
    }
}

// Reads the lines up to ENDATA, and gives its line and the place behind it.
fn read_lines<'a>(
    alloc: Global,
    state: &mut SectionState,
    tables: &mut Tables<'a>,
    text: &'a [u8],
) -> Result<(u32, usize), DeckFault>
    requires room { length text.now < 2 ^ 32 - 1 }
    requires state { state.old ≡ section_state [] }
    requires tables { tables.old ≡ known [] }
    ensures spelled { IfOk result (λ r. Spells text.now (deck_from tables.new r.0) r.1) }
    ensures within { IfOk result (λ r. r.1 ≤ length text.now) }
    ensures fails { IfErr result (λ f. FailsAs f text.now) }
{
    let mut rest = text;
    let mut number: u32 = 1;
    while !rest.is_empty() {
        let (piece, after) = first_piece(rest);
        match parse_piece(alloc, state, tables, number, piece) {
            Ok(true) => return Ok((number, text.len() - after.len())),
            Ok(false) => {}
            Err(fault) => return Err(fault),
        }
        rest = after;
        number += 1;
    }
    Err(DeckFault::At {
        line: number,
        why: DeckWhy::NotClosed,
    })
}

// The deck of the lines up to ENDATA, and the place behind them. The tables are dropped by the
// caller, at its one end.
fn deck_of<'a>(
    alloc: Global,
    state: &mut SectionState,
    tables: &mut Tables<'a>,
    text: &'a [u8],
) -> Result<(Deck, usize), DeckFault>
    requires room { length text.now < 2 ^ 32 - 1 }
    requires state { state.old ≡ section_state [] }
    requires tables { tables.old ≡ known [] }
    ensures spelled { IfOk result (λ r. Spells text.now r.0 r.1) }
    ensures within { IfOk result (λ r. r.1 ≤ length text.now) }
    ensures fails { IfErr result (λ f. FailsAs f text.now) }
{
    let (end_line, place) = read_lines(alloc, state, tables, text)?;
    match tables.take_deck(alloc, end_line) {
        Ok(deck) => Ok((deck, place)),
        Err(error) => Err(DeckFault::NoMemory(error)),
    }
}

/// The deck that the first lines of a text spell, up to and with ENDATA, and the place of the first
/// byte behind them; or the first fault with its line.
pub fn read_deck(alloc: Global, text: &[u8]) -> Result<(Deck, usize), DeckFault>
    requires { length text.now < 2 ^ 32 - 1 }
    // The text spells the deck that is given.
    ensures spelled { IfOk result (λ r. Spells text.now r.0 r.1) }
    // The deck keeps what decks keep.
    ensures kept { IfOk result (λ r. IsDeck r.0) }
    // The place is in the text, or behind its last byte.
    ensures within { IfOk result (λ r. r.1 ≤ length text.now) }
    // A text that spells a deck is read, unless memory is short.
    ensures only { (d : spelled.Deck) (place : ℕ) → Spells text.now d place → Gives found_by (d, place) result }
    // The fault is that of the first line with one, and it is named at its line.
    ensures fails { IfErr result (λ f. FailsAs f text.now) }
    // A text with a fault is refused with its first one, unless memory is short.
    ensures only_fails { (line : ℕ) (w : why.DeckWhy) → Fails text.now line w → Refuses found_by (line, w) result }
{
    let mut state = SectionState::new();
    let mut tables = Tables::new(alloc);
    deck_of(alloc, &mut state, &mut tables, text)
}
