//! The commands.
ghost use Rattle.std.specs.Prelude.{◌≡◌, ◌≤◌, map, option_map};
ghost use Rattle.clap.specs.Words.{first_of, found_of, rows_of};
ghost use Rattle.words.specs.Commands.{bilevel_of, check_of, command_in, command_named, draft_of, edit_of, edit_settings_of, form_of, gen_of, is_beyond_check, is_beyond_edit, is_beyond_front, is_beyond_gen, is_beyond_relax, is_beyond_solve, is_beyond_tree, is_full, is_of_words, lcp_of, migrate_of, number_or, numbers_of, relax_of, settings_of, solve_of, source_of, stands, tree_of, tree_settings_of};

use crate::numbers::{MOST, number_in};
use clap::ArgMatches;
use clap::parser::ValueSource;

/// How many workers there may be.
pub const MOST_WORKERS: u64 = 64;

/// How many pieces may be drawn, where no number is given.
pub const USUAL_PIECES: u64 = 50_000;

/// How many nodes may be solved, where no number is given.
pub const USUAL_NODES: u64 = 50_000;

/// How many pivots a stage may make, where no number is given.
pub const USUAL_PIVOTS: u64 = 1_000_000;

/// The form in which a certificate is printed.
#[derive(Clone, Copy, Debug, PartialEq, Eq)]
pub enum Form {
    One,
    Two,
}

/// What is asked of `solve`.
#[derive(Clone, Copy)]
pub struct Settings {
    /// How many workers there are, 1 to 64.
    pub workers: u64,
    /// How many pieces may be drawn.
    pub pieces: u64,
    /// How many pivots a stage of a walk may make.
    pub pivots: u64,
    /// Whether cuts are shrunk.
    pub full: bool,
    /// Whether the certificate is left out.
    pub brief: bool,
    /// The form of the certificate.
    pub form: Form,
}

/// What is asked of `tree`.
#[derive(Clone, Copy)]
pub struct TreeSettings {
    /// How many nodes may be solved.
    pub nodes: u64,
    /// How many pivots a stage of a walk may make.
    pub pivots: u64,
    /// Whether the certificate is left out.
    pub brief: bool,
}

/// What is asked of `edit`.
#[derive(Clone, Copy)]
pub struct EditSettings {
    /// How many pieces may be drawn for an answer.
    pub pieces: u64,
    /// How many pivots a stage of a walk may make.
    pub pivots: u64,
}

/// What is asked of `gen`: the numbers of the deck, and whether it is to be solved. Whether there is
/// such a deck is not decided here.
#[derive(Clone, Copy)]
pub struct Draft {
    pub seed: u64,
    pub columns: u64,
    pub rows: u64,
    pub pairs: u64,
    pub solve: bool,
}

/// A command.
#[derive(Clone, Copy)]
pub enum Command {
    /// Judge the certificate behind a deck.
    Check,
    /// Write a certificate alone in form 2.
    Migrate,
    /// Solve a deck without its pairs, with so many pivots for a stage.
    Relax(u64),
    /// Solve a deck.
    Solve(Settings),
    /// Solve a deck by a search by branching.
    Tree(TreeSettings),
    /// Edit a deck by a script, and solve it on the way.
    Edit(EditSettings),
    /// Make a deck.
    Generate(Draft),
    /// Print the deck of a linear complementarity problem, or solve it.
    Lcp { solve: bool },
    /// Print the deck of a bilevel problem, or solve it.
    Bilevel { solve: bool },
}

fn source_of(matches: &ArgMatches, id: &str) -> Option<ValueSource>
    ensures { result ≡ source_of id.now (rows_of (found_of matches.now)) }
{
    matches.value_source(id)
}

fn is_of_words(source: Option<ValueSource>) -> bool
    ensures { result ≡ is_of_words source }
{
    match source {
        Some(ValueSource::CommandLine) => true,
        Some(ValueSource::DefaultValue) => false,
        None => false,
    }
}

/// Whether the argument stands among the words.
fn stands(matches: &ArgMatches, id: &str) -> bool
    ensures { result ≡ stands id.now (rows_of (found_of matches.now)) }
{
    is_of_words(source_of(matches, id))
}

fn text_of<'a>(matches: &ArgMatches<'a>, id: &str) -> Option<&'a str>
    ensures { option_map (λ s. s.now) result ≡ first_of id.now (rows_of (found_of matches.now)) }
{
    matches.get_str(id)
}

fn number_or(usual: u64, most: u64, text: Option<&str>) -> Option<u64>
    requires { most ≤ MOST }
    ensures { result ≡ number_or usual most (option_map (λ s. s.now) text.entry) }
{
    match text {
        None => Some(usual),
        Some(text) => number_in(1, most, text),
    }
}

fn is_full(text: Option<&str>) -> Option<bool>
    ensures { result ≡ is_full (option_map (λ s. s.now) text.entry) }
{
    let Some(text) = text else {
        return Some(true);
    };
    if text == "full" {
        Some(true)
    } else if text == "none" {
        Some(false)
    } else {
        None
    }
}

fn form_of(text: Option<&str>) -> Option<Form>
    ensures { result ≡ form_of (option_map (λ s. s.now) text.entry) }
{
    let Some(text) = text else {
        return Some(Form::Two);
    };
    if text == "1" {
        Some(Form::One)
    } else if text == "2" {
        Some(Form::Two)
    } else {
        None
    }
}

fn is_beyond_solve(matches: &ArgMatches) -> bool
    ensures { result ≡ is_beyond_solve (rows_of (found_of matches.now)) }
{
    stands(matches, "numbers") || stands(matches, "solve") || stands(matches, "nodes")
}

fn is_beyond_relax(matches: &ArgMatches) -> bool
    ensures { result ≡ is_beyond_relax (rows_of (found_of matches.now)) }
{
    is_beyond_solve(matches)
        || stands(matches, "workers")
        || stands(matches, "pieces")
        || stands(matches, "shrink")
        || stands(matches, "form")
        || stands(matches, "brief")
}

fn is_beyond_check(matches: &ArgMatches) -> bool
    ensures { result ≡ is_beyond_check (rows_of (found_of matches.now)) }
{
    is_beyond_relax(matches) || stands(matches, "pivots")
}

fn is_beyond_tree(matches: &ArgMatches) -> bool
    ensures { result ≡ is_beyond_tree (rows_of (found_of matches.now)) }
{
    stands(matches, "numbers")
        || stands(matches, "solve")
        || stands(matches, "workers")
        || stands(matches, "pieces")
        || stands(matches, "shrink")
        || stands(matches, "form")
}

fn is_beyond_edit(matches: &ArgMatches) -> bool
    ensures { result ≡ is_beyond_edit (rows_of (found_of matches.now)) }
{
    is_beyond_solve(matches)
        || stands(matches, "workers")
        || stands(matches, "shrink")
        || stands(matches, "form")
        || stands(matches, "brief")
}

fn is_beyond_gen(matches: &ArgMatches) -> bool
    ensures { result ≡ is_beyond_gen (rows_of (found_of matches.now)) }
{
    stands(matches, "workers")
        || stands(matches, "pieces")
        || stands(matches, "pivots")
        || stands(matches, "nodes")
        || stands(matches, "shrink")
        || stands(matches, "form")
        || stands(matches, "brief")
}

fn is_beyond_front(matches: &ArgMatches) -> bool
    ensures { result ≡ is_beyond_front (rows_of (found_of matches.now)) }
{
    stands(matches, "numbers") || is_beyond_gen(matches)
}

fn check_of(matches: &ArgMatches) -> Option<Command>
    ensures { result ≡ check_of (rows_of (found_of matches.now)) }
{
    if is_beyond_check(matches) {
        None
    } else {
        Some(Command::Check)
    }
}

fn migrate_of(matches: &ArgMatches) -> Option<Command>
    ensures { result ≡ migrate_of (rows_of (found_of matches.now)) }
{
    if is_beyond_check(matches) {
        None
    } else {
        Some(Command::Migrate)
    }
}

fn relax_of(matches: &ArgMatches) -> Option<Command>
    ensures { result ≡ relax_of (rows_of (found_of matches.now)) }
{
    if is_beyond_relax(matches) {
        return None;
    }
    let pivots = number_or(USUAL_PIVOTS, MOST, text_of(matches, "pivots"))?;
    Some(Command::Relax(pivots))
}

fn settings_of(matches: &ArgMatches) -> Option<Settings>
    ensures { result ≡ settings_of (rows_of (found_of matches.now)) }
{
    let workers = number_or(1, MOST_WORKERS, text_of(matches, "workers"))?;
    let pieces = number_or(USUAL_PIECES, MOST, text_of(matches, "pieces"))?;
    let pivots = number_or(USUAL_PIVOTS, MOST, text_of(matches, "pivots"))?;
    let full = is_full(text_of(matches, "shrink"))?;
    let form = form_of(text_of(matches, "form"))?;
    Some(Settings {
        workers,
        pieces,
        pivots,
        full,
        brief: stands(matches, "brief"),
        form,
    })
}

fn solve_of(matches: &ArgMatches) -> Option<Command>
    ensures { result ≡ solve_of (rows_of (found_of matches.now)) }
{
    if is_beyond_solve(matches) {
        return None;
    }
    Some(Command::Solve(settings_of(matches)?))
}

fn tree_settings_of(matches: &ArgMatches) -> Option<TreeSettings>
    ensures { result ≡ tree_settings_of (rows_of (found_of matches.now)) }
{
    let nodes = number_or(USUAL_NODES, MOST, text_of(matches, "nodes"))?;
    let pivots = number_or(USUAL_PIVOTS, MOST, text_of(matches, "pivots"))?;
    Some(TreeSettings {
        nodes,
        pivots,
        brief: stands(matches, "brief"),
    })
}

fn tree_of(matches: &ArgMatches) -> Option<Command>
    ensures { result ≡ tree_of (rows_of (found_of matches.now)) }
{
    if is_beyond_tree(matches) {
        return None;
    }
    Some(Command::Tree(tree_settings_of(matches)?))
}

fn edit_settings_of(matches: &ArgMatches) -> Option<EditSettings>
    ensures { result ≡ edit_settings_of (rows_of (found_of matches.now)) }
{
    let pieces = number_or(USUAL_PIECES, MOST, text_of(matches, "pieces"))?;
    let pivots = number_or(USUAL_PIVOTS, MOST, text_of(matches, "pivots"))?;
    Some(EditSettings { pieces, pivots })
}

fn edit_of(matches: &ArgMatches) -> Option<Command>
    ensures { result ≡ edit_of (rows_of (found_of matches.now)) }
{
    if is_beyond_edit(matches) {
        return None;
    }
    Some(Command::Edit(edit_settings_of(matches)?))
}

fn draft_of(solve: bool, numbers: &[&str]) -> Option<Draft>
    ensures { result ≡ draft_of solve (map (λ s. s.now) numbers.now) }
{
    let [seed, columns, rows, pairs] = numbers else {
        return None;
    };
    let seed = number_in(0, MOST, seed)?;
    let columns = number_in(0, MOST, columns)?;
    let rows = number_in(0, MOST, rows)?;
    let pairs = number_in(0, MOST, pairs)?;
    Some(Draft {
        seed,
        columns,
        rows,
        pairs,
        solve,
    })
}

fn draft_in(solve: bool, matches: &ArgMatches) -> Option<Draft>
    ensures { result ≡ draft_of solve (numbers_of (rows_of (found_of matches.now))) }
{
    match matches.get_strs("numbers") {
        Some(numbers) => draft_of(solve, numbers),
        None => None,
    }
}

fn gen_of(matches: &ArgMatches) -> Option<Command>
    ensures { result ≡ gen_of (rows_of (found_of matches.now)) }
{
    if is_beyond_gen(matches) {
        return None;
    }
    let solve = stands(matches, "solve");
    Some(Command::Generate(draft_in(solve, matches)?))
}

fn lcp_of(matches: &ArgMatches) -> Option<Command>
    ensures { result ≡ lcp_of (rows_of (found_of matches.now)) }
{
    if is_beyond_front(matches) {
        return None;
    }
    Some(Command::Lcp {
        solve: stands(matches, "solve"),
    })
}

fn bilevel_of(matches: &ArgMatches) -> Option<Command>
    ensures { result ≡ bilevel_of (rows_of (found_of matches.now)) }
{
    if is_beyond_front(matches) {
        return None;
    }
    Some(Command::Bilevel {
        solve: stands(matches, "solve"),
    })
}

fn command_named(name: &str, matches: &ArgMatches) -> Option<Command>
    ensures { result ≡ command_named name.now (rows_of (found_of matches.now)) }
{
    if name == "check" {
        check_of(matches)
    } else if name == "migrate" {
        migrate_of(matches)
    } else if name == "relax" {
        relax_of(matches)
    } else if name == "gen" {
        gen_of(matches)
    } else if name == "solve" {
        solve_of(matches)
    } else if name == "tree" {
        tree_of(matches)
    } else if name == "edit" {
        edit_of(matches)
    } else if name == "lcp" {
        lcp_of(matches)
    } else if name == "bilevel" {
        bilevel_of(matches)
    } else {
        None
    }
}

/// The command that the matches of a parse are.
pub fn command_in(matches: &ArgMatches) -> Option<Command>
    ensures { result ≡ command_in (rows_of (found_of matches.now)) }
{
    match text_of(matches, "command") {
        Some(name) => command_named(name, matches),
        None => None,
    }
}
