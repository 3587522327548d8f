//! The rules by which words are read.
ghost use Rattle.std.specs.Prelude.{◌≡◌, IfOk, false};
ghost use Rattle.clap.specs.Words.{app_of, new_app, rule_of};
ghost use Rattle.words.specs.Command.{bare, flag_rule, lpcc_command, name_rule, numbers_rule, option_rule, options, tuned, workers_rule};

use clap::{Arg, ArgAction, Command};
use std::alloc::{AllocError, Global};

fn name_arg<'a>(alloc: Global) -> Arg<'a>
    ensures rule { rule_of result ≡ name_rule }
    ensures local { result.global ≡ false }
{
    Arg::new(alloc, "command").required(true)
}

fn numbers_arg<'a>(alloc: Global) -> Arg<'a>
    ensures rule { rule_of result ≡ numbers_rule }
    ensures local { result.global ≡ false }
{
    Arg::new(alloc, "numbers").num_args(0..=4)
}

fn workers_arg<'a>(alloc: Global) -> Arg<'a>
    ensures rule { rule_of result ≡ workers_rule }
    ensures local { result.global ≡ false }
{
    Arg::new(alloc, "workers").short('j')
}

fn option_arg<'a>(alloc: Global, name: &'a str) -> Arg<'a>
    ensures rule { rule_of result ≡ option_rule name.entry.now }
    ensures local { result.global ≡ false }
{
    Arg::new(alloc, name).long(name)
}

fn flag_arg<'a>(alloc: Global, name: &'a str) -> Arg<'a>
    ensures rule { rule_of result ≡ flag_rule name.entry.now }
    ensures local { result.global ≡ false }
{
    Arg::new(alloc, name).long(name).action(ArgAction::SetTrue)
}

/// A command without arguments, whose words do not begin with the program's name.
#[tactic(auto, unfolding(crate::specs::Command::bare))]
fn bare<'a>(alloc: Global) -> Command<'a>
    ensures { app_of result ≡ bare }
{
    Command::new(alloc, "lpcc").no_binary_name(true)
}

#[tactic(auto, unfolding(crate::specs::Command::options))]
fn with_options<'a>(alloc: Global) -> Result<Command<'a>, AllocError>
    ensures { IfOk result (λ c. app_of c ≡ options) }
{
    let start = bare(alloc).arg(name_arg(alloc))?;
    let with_numbers = start.arg(numbers_arg(alloc))?;
    let with_workers = with_numbers.arg(workers_arg(alloc))?;
    with_workers.arg(option_arg(alloc, "pieces"))
}

#[tactic(auto, unfolding(crate::specs::Command::tuned))]
fn with_tuning<'a>(alloc: Global) -> Result<Command<'a>, AllocError>
    ensures { IfOk result (λ c. app_of c ≡ tuned) }
{
    let start = with_options(alloc)?;
    let with_pivots = start.arg(option_arg(alloc, "pivots"))?;
    let with_nodes = with_pivots.arg(option_arg(alloc, "nodes"))?;
    with_nodes.arg(option_arg(alloc, "shrink"))
}

/// The command by whose rules words are read.
#[tactic(auto, unfolding(crate::specs::Command::lpcc_command))]
pub fn lpcc_command<'a>(alloc: Global) -> Result<Command<'a>, AllocError>
    ensures { IfOk result (λ c. app_of c ≡ lpcc_command) }
{
    let start = with_tuning(alloc)?;
    let with_form = start.arg(option_arg(alloc, "form"))?;
    let with_brief = with_form.arg(flag_arg(alloc, "brief"))?;
    with_brief.arg(flag_arg(alloc, "solve"))
}
