//! Generated decks: what the search finds of known ones, how many findings of the probe fail their
//! test, and what a probe of another case does.
ghost use Rattle.std.specs.Prelude.{◌≡◌, ◌<◌, ◌-◌, ◌^◌, [], None, IfOk, length};
ghost use Rattle.reasons.specs.Reasons.{IsActiveAgainst};

use cuts::{Cut, check_cut};
use deck_case::case_of;
use deck_gen::{deck, in_range};
use lp_base::Sequence;
use lpcc_case::Case;
use mps_pairs::read_deck;
use nogoods::{Choice, NoGood, Side};
use own_order::{PairSearch, Stop};
use probe::{Answer, Probe};
use shrink::{KnownPoints, shrink, shrink_with_probe};
use std::alloc::Global;
use std::test::Fail;

/// As many random decks are searched.
const MANY: u64 = 1000;

/// The most conflicts of a search, and the most pivots in a stage of a solve.
const CONFLICTS: u64 = 500;

const PIVOTS: u64 = 1000;

/// What determines a deck.
#[derive(Clone, Copy)]
struct Sizes {
    seed: u64,
    columns: u32,
    rows: u32,
    pairs: u32,
}

/// The bytes, where they are short enough for the reader.
fn short(bytes: &[u8]) -> &[u8]
    ensures { length result.now < 2 ^ 32 - 1 }
{
    if bytes.len() < 1_000_000 { bytes } else { &[] }
}

/// The case of a generated deck.
fn case_in(alloc: Global, sizes: Sizes) -> Result<Case, Fail> {
    let Sizes {
        seed,
        columns,
        rows,
        pairs,
    } = sizes;
    if !in_range(u64::from(columns), u64::from(rows), u64::from(pairs)) {
        return Err(Fail::from("the sizes are in range"));
    }
    let text = deck(alloc, seed, columns, rows, pairs)?;
    let (deck, _) = read_deck(alloc, short(text.as_slice()))?;
    Ok(case_of(alloc, &deck)?)
}

/// What a search found: whether it ended refuted, the cost z / d of its best point, and the number of
/// findings that failed their test.
#[derive(Clone, Copy)]
struct Outcome {
    refuted: bool,
    cost: Option<(i128, i64)>,
    dropped: u64,
}

fn search(alloc: Global, case: &Case, seed: u64, conflicts: u64) -> Result<Outcome, Fail> {
    let mut search = PairSearch::new(alloc, case, seed)?;
    let stop = search.run(case, conflicts)?;
    Ok(Outcome {
        refuted: stop == Stop::Refuted,
        cost: search.best().map(|point| (point.z, point.d)),
        dropped: search.probe().dropped(),
    })
}

/// Whether the cost is n / m.
fn is_value(cost: Option<(i128, i64)>, n: i64, m: i64) -> bool {
    match cost {
        Some((z, d)) => z.wrapping_mul(i128::from(m)) == i128::from(n).wrapping_mul(i128::from(d)),
        None => false,
    }
}

/// A deck of 12 columns, 6 rows and 5 pairs, with its least cost n / m.
const KNOWN: [(u64, i64, i64); 6] = [
    (1, 4619, 72),
    (2, 13, 2),
    (3, 102, 7),
    (7, 10_124, 415),
    (11, 44, 9),
    (23, 5409, 470),
];

#[test]
fn known_values_are_found_from_each_seed(rt: HostRuntime) -> Result<(), Fail> {
    for (seed, n, m) in KNOWN {
        let case = case_in(
            rt.alloc(),
            Sizes {
                seed,
                columns: 12,
                rows: 6,
                pairs: 5,
            },
        )?;
        for worker in 0..4 {
            let found = search(rt.alloc(), &case, worker, CONFLICTS)?;
            assert!(rt; found.refuted);
            assert!(rt; is_value(found.cost, n, m));
        }
    }
    Ok(())
}

/// The cost of a search that is run a conflict at a time.
fn search_in_slices(alloc: Global, case: &Case) -> Result<Option<(i128, i64)>, Fail> {
    let mut search = PairSearch::new(alloc, case, 0)?;
    for _ in 0..CONFLICTS {
        if search.run(case, 1)? != Stop::Conflicts {
            break;
        }
    }
    Ok(search.best().map(|point| (point.z, point.d)))
}

#[test]
fn no_finding_of_many_fails_its_test(rt: HostRuntime) -> Result<(), Fail> {
    let mut refuted = 0_u64;
    for seed in 0..MANY {
        let sizes = Sizes {
            seed,
            columns: 16,
            rows: 8,
            pairs: 6,
        };
        let case = case_in(rt.alloc(), sizes)?;
        let found = search(rt.alloc(), &case, seed, CONFLICTS)?;
        assert_eq!(rt; found.dropped, 0);
        assert!(rt; search_in_slices(rt.alloc(), &case)?.is_some() == found.cost.is_some());
        if found.refuted {
            refuted = refuted.saturating_add(1);
        }
    }
    assert_eq!(rt; refuted, MANY);
    Ok(())
}

fn no_choices(alloc: Global) -> Result<NoGood, Fail>
    ensures { IfOk result (λ ng. ng ≡ []) }
{
    Ok(NoGood::from_choices(alloc, &[])?.ok_or("no choices ascend")?)
}

/// As many findings of a probe of one deck fail their test where it is asked about another. It answers
/// nothing then.
fn dropped_elsewhere(alloc: Global, of: &Case, about: &Case) -> Result<u64, Fail> {
    let mut probe = Probe::of_case(alloc, of)?;
    let none = no_choices(alloc)?;
    if let Answer::Cut(_) = probe.ask(about, &none, None)? {
        return Err(Fail::from("the deck is feasible without its pairs"));
    }
    Ok(probe.dropped())
}

#[test]
fn false_findings_are_dropped(rt: HostRuntime) -> Result<(), Fail> {
    let mut dropped = 0_u64;
    for (seed, _, _) in KNOWN {
        let sizes = Sizes {
            seed,
            columns: 12,
            rows: 6,
            pairs: 5,
        };
        let longer = Sizes {
            seed: seed + 50,
            ..sizes
        };
        let case = case_in(rt.alloc(), sizes)?;
        let other = case_in(rt.alloc(), longer)?;
        dropped = dropped.saturating_add(dropped_elsewhere(rt.alloc(), &other, &case)?);
    }
    assert!(rt; dropped > 0);
    Ok(())
}

/// A column that is at least 1, paired with each of two others; and another such deck.
const SHARED_DECK: &str =
    "ROWS\n N cost\n G r\nCOLUMNS\n x r 1\n y cost 1\n z cost 1\nRHS\n rhs r 1\nPAIRS\n p1 COL x COL y\n p2 COL x COL z\nENDATA\n";

const OTHER_DECK: &str =
    "ROWS\n N cost\n G r\nCOLUMNS\n x r 3\n y cost 2\n y r 2\n z cost 1\nRHS\n rhs r -7\nPAIRS\n p1 COL y COL z\n p2 COL x COL z\nENDATA\n";

fn case_of_text(alloc: Global, text: &str) -> Result<Case, Fail> {
    let (deck, _) = read_deck(alloc, short(text.as_bytes()))?;
    Ok(case_of(alloc, &deck)?)
}

fn side_a(pair: u32) -> Choice {
    Choice {
        pair,
        side: Side::A,
    }
}

/// The cut that says that the shared column is not zero, with a choice too many.
fn shared_cut(alloc: Global) -> Result<Cut, Fail>
    ensures { IfOk result (λ c. IsActiveAgainst c None) }
{
    let ng = NoGood::from_choices(alloc, &[side_a(0), side_a(1)])?;
    let mult = Vec::from_slice(alloc, &[(0_u32, 1_i64), (1, -1)])?;
    Ok(Cut::Ray {
        ng: ng.ok_or("the choices ascend")?,
        mult: Sequence::of_vec(mult),
    })
}

fn count_choices(cut: &Cut) -> usize {
    match cut {
        Cut::Ray { ng, .. } | Cut::Point { ng, .. } => ng.choices().len(),
    }
}

/// How many choices are left of the shared cut, by the probe of a deck.
fn left_by(alloc: Global, case: &Case, of: &Case) -> Result<Option<usize>, Fail> {
    let mut probe = Probe::of_case(alloc, of)?;
    let mut known = KnownPoints::new(alloc);
    let cut = shared_cut(alloc)?;
    if check_cut(case, &cut).is_err() {
        return Ok(None);
    }
    let left = shrink_with_probe(alloc, case, cut, None, PIVOTS, &mut known, &mut probe)?;
    Ok(Some(count_choices(&left.cut)))
}

/// How many choices are left of the shared cut, by solved programs.
fn left_alone(alloc: Global, case: &Case) -> Result<Option<usize>, Fail> {
    let cut = shared_cut(alloc)?;
    if check_cut(case, &cut).is_err() {
        return Ok(None);
    }
    Ok(Some(count_choices(&shrink(alloc, case, cut, None, PIVOTS)?.cut)))
}

#[test]
fn a_probe_of_another_deck_costs_only_time(rt: HostRuntime) -> Result<(), Fail> {
    let case = case_of_text(rt.alloc(), SHARED_DECK)?;
    let other = case_of_text(rt.alloc(), OTHER_DECK)?;
    assert_eq!(rt; left_alone(rt.alloc(), &case)?, Some(1));
    assert_eq!(rt; left_by(rt.alloc(), &case, &case)?, Some(1));
    assert_eq!(rt; left_by(rt.alloc(), &case, &other)?, Some(1));
    Ok(())
}
