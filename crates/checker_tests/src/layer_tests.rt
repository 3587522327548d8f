//! Calls of the layers below on their happy paths, with the answers that are known.
ghost use Rattle.std.specs.Prelude.{◌≡◌, ◌<◌, ◌-◌, ◌^◌, ◌∷◌, [], IfOk, length};
ghost use Rattle.derivation.specs.Logs.{no_goods};
ghost use Rattle.nogoods.specs.declared.choice.Side.TheVariants.{A, B};

use crate::texts::{BOUNDED_DECK, CERTIFICATE, FALLING_DECK, OPTIMAL, UNBOUNDED};
use cert_text::read_cert;
use cert_write::write_cert;
use cuts::{Cut, CutFault, check_cut};
use deck_case::case_of;
use derivation::Log;
use lp_base::Sequence;
use lpcc_case::{Case, Point, is_of, value_text};
use mps_lex::lines;
use mps_pairs::read_deck;
use nogoods::{Choice, NoGood, Piece, Side, bars};
use std::alloc::Global;
use std::test::Fail;

/// A column that is at least 1, paired with each of two others.
const SHARED_DECK: &str =
    "ROWS\n N cost\n G r\nCOLUMNS\n x r 1\n y cost 1\n z cost 1\nRHS\n rhs r 1\nPAIRS\n p1 COL x COL y\n p2 COL x COL z\nENDATA\n";

/// The bytes of a text that is short enough for the readers.
fn short_bytes(text: &str) -> &[u8]
    ensures { length result.now < 2 ^ 32 - 1 }
{
    let bytes = text.as_bytes();
    if bytes.len() < 4096 { bytes } else { &[] }
}

pub fn case_in(alloc: Global, deck: &str) -> Result<Case, Fail> {
    let (deck, _) = read_deck(alloc, short_bytes(deck))?;
    Ok(case_of(alloc, &deck)?)
}

fn no_good(alloc: Global, pair: u32, side: Side) -> Result<NoGood, Fail>
    ensures { IfOk result (λ ng. ng ≡ (record { pair = pair; side = side }) ∷ []) }
{
    let made = NoGood::from_choices(alloc, &[Choice { pair, side }])?;
    Ok(made.ok_or("one choice ascends")?)
}

/// What is said of the cut that adds the row and minus the lower bound of the shared column.
fn judged(alloc: Global, case: &Case, pair: u32, side: Side) -> Result<Option<CutFault>, Fail> {
    let mut mult = Sequence::new(alloc);
    mult.push((0, 1))?;
    mult.push((1, -1))?;
    let cut = Cut::Ray {
        ng: no_good(alloc, pair, side)?,
        mult,
    };
    Ok(check_cut(case, &cut).err())
}

#[test]
fn cuts_of_a_shared_column(rt: HostRuntime) -> Result<(), Fail> {
    let case = case_in(rt.alloc(), SHARED_DECK)?;
    assert_eq!(rt; judged(rt.alloc(), &case, 0, Side::A)?, None);
    assert_eq!(rt; judged(rt.alloc(), &case, 1, Side::A)?, None);
    assert_eq!(rt;
        judged(rt.alloc(), &case, 0, Side::B)?,
        Some(CutFault::Sign)
    );
    Ok(())
}

#[test]
fn barred_pieces(rt: HostRuntime) -> Result<(), Fail> {
    let alloc = rt.alloc();
    let mut sides = Sequence::new(alloc);
    sides.push(Side::B)?;
    let piece = Piece::of_sides(sides);
    assert!(rt; bars(&no_good(alloc, 0, Side::B)?, &piece));
    assert!(rt; !bars(&no_good(alloc, 0, Side::A)?, &piece));
    assert!(rt; !bars(&no_good(alloc, 1, Side::B)?, &piece));
    Ok(())
}

/// A log that starts from both sides of a pair.
fn both_sides(alloc: Global) -> Result<Log, Fail>
    ensures { IfOk result (λ log. no_goods log ≡ ((record { pair = 0; side = A }) ∷ []) ∷ ((record { pair = 0; side = B }) ∷ []) ∷ []) }
{
    let mut log = Log::create(alloc);
    log.start(no_good(alloc, 0, Side::A)?)?;
    log.start(no_good(alloc, 0, Side::B)?)?;
    Ok(log)
}

fn both_hints(alloc: Global) -> Result<Sequence<u64>, Fail>
    ensures { IfOk result (λ hints. hints ≡ 0 ∷ 1 ∷ []) }
{
    let mut hints = Sequence::new(alloc);
    hints.push(0)?;
    hints.push(1)?;
    Ok(hints)
}

/// The empty no-good follows from both sides of a pair.
#[test]
fn derived_step(rt: HostRuntime) -> Result<(), Fail> {
    let alloc = rt.alloc();
    let mut log = both_sides(alloc)?;
    let empty = NoGood::from_choices(alloc, &[])?.ok_or("no choice ascends")?;
    log.derive(empty, both_hints(alloc)?)?;
    assert_eq!(rt; log.steps().len(), 3);
    Ok(())
}

#[test]
fn choices_that_do_not_ascend(rt: HostRuntime) -> Result<(), Fail> {
    let twice = [
        Choice {
            pair: 2,
            side: Side::A,
        },
        Choice {
            pair: 2,
            side: Side::B,
        },
    ];
    assert!(rt; NoGood::from_choices(rt.alloc(), &twice)?.is_none());
    Ok(())
}

/// What is read is written as it was.
fn written_again(alloc: Global, text: &str) -> Result<bool, Fail> {
    let cert = read_cert(alloc, short_bytes(text))?;
    let written = write_cert(alloc, &cert)?;
    Ok(written.as_slice() == text.as_bytes())
}

#[test]
fn certificates_written_again(rt: HostRuntime) -> Result<(), Fail> {
    assert!(rt; written_again(rt.alloc(), CERTIFICATE)?);
    assert!(rt; written_again(rt.alloc(), OPTIMAL)?);
    assert!(rt; written_again(rt.alloc(), UNBOUNDED)?);
    Ok(())
}

#[test]
fn values_and_copies(rt: HostRuntime) -> Result<(), Fail> {
    let alloc = rt.alloc();
    let case = case_in(alloc, BOUNDED_DECK)?.copy(alloc)?;
    let mut x = Sequence::new(alloc);
    x.push(1)?;
    x.push(0)?;
    let point = Point { d: 3, x, z: -1 };
    assert!(rt; is_of(&case, &point));
    let text = value_text(alloc, &case, &point)?;
    assert_eq!(rt; text.as_str(), "-1/3");
    Ok(())
}

#[test]
fn lines_of_a_deck(rt: HostRuntime) -> Result<(), Fail> {
    let found = lines(rt.alloc(), FALLING_DECK.as_bytes())?;
    assert_eq!(rt; found.len(), 9);
    Ok(())
}
