//! The commands, a line each.
ghost use Rattle.cert_text.specs.Steps.{Reads};
ghost use Rattle.edit_text.specs.Reading.{add_at, command_at, command_in, cost_at, kind_at, solve_at, tighten_at};

use crate::Command;
use crate::words::{parse_narrow, parse_relation, parse_terms};
use cert_text::CertWhy;
use cert_text::lists::{parse_first, parse_line_end, parse_word};
use cert_text::split::Split;
use cert_text::words::Fault;
use std::alloc::Global;

#[tactic(auto, unfolding(crate::specs::Reading::add_at))]
fn parse_add(alloc: Global, words: &mut Split) -> Result<Command, Fault>
    ensures { Reads (λ command. command) result (add_at words.old) }
{
    let relation = parse_relation(parse_first(words)?)?;
    let rhs = parse_narrow(parse_first(words)?)?;
    parse_word(words, b":")?;
    let terms = parse_terms(alloc, words)?;
    Ok(Command::Add {
        relation,
        rhs,
        terms,
    })
}

#[tactic(auto, unfolding(crate::specs::Reading::tighten_at))]
fn parse_tighten(words: &mut Split) -> Result<Command, Fault>
    ensures { Reads (λ command. command) result (tighten_at words.old) }
{
    let con = parse_narrow(parse_first(words)?)?;
    let rhs = parse_narrow(parse_first(words)?)?;
    parse_line_end(words)?;
    Ok(Command::Tighten { con, rhs })
}

#[tactic(auto, unfolding(crate::specs::Reading::cost_at))]
fn parse_cost(alloc: Global, words: &mut Split) -> Result<Command, Fault>
    ensures { Reads (λ command. command) result (cost_at words.old) }
{
    parse_word(words, b":")?;
    let terms = parse_terms(alloc, words)?;
    Ok(Command::Cost { terms })
}

#[tactic(auto, unfolding(crate::specs::Reading::solve_at))]
fn parse_solve(words: &mut Split) -> Result<Command, Fault>
    ensures { Reads (λ command. command) result (solve_at words.old) }
{
    parse_line_end(words)?;
    Ok(Command::Solve)
}

#[tactic(auto, unfolding(crate::specs::Reading::kind_at))]
fn parse_kind(alloc: Global, kind: &[u8], words: &mut Split) -> Result<Command, Fault>
    ensures { Reads (λ command. command) result (kind_at kind.now words.old) }
{
    if kind == b"add".as_slice() {
        return parse_add(alloc, words);
    }
    if kind == b"tighten".as_slice() {
        return parse_tighten(words);
    }
    if kind == b"cost".as_slice() {
        return parse_cost(alloc, words);
    }
    if kind == b"solve".as_slice() {
        return parse_solve(words);
    }
    Err(Fault::Of(CertWhy::BadLine))
}

#[tactic(auto, unfolding(crate::specs::Reading::command_at))]
fn parse_words(alloc: Global, words: &mut Split) -> Result<Command, Fault>
    ensures { Reads (λ command. command) result (command_at words.old) }
{
    let kind = parse_first(words)?;
    parse_kind(alloc, kind, words)
}

/// The command that a line spells.
#[tactic(auto, unfolding(crate::specs::Reading::command_in))]
pub fn parse_command(alloc: Global, line: &[u8]) -> Result<Command, Fault>
    ensures { Reads (λ command. command) result (command_in line.now) }
{
    parse_words(alloc, &mut Split::of(line, b' '))
}
