//! Texts of answers.
ghost use Rattle.std.specs.Prelude.{◌≡◌, ◌++◌, ◌∷◌, IfOk, OnOk, string_bytes};
ghost use Rattle.cert_text.specs.Certs.{KeepsForm};
ghost use Rattle.cert_text.specs.Spelling.{choice_word};
ghost use Rattle.report.specs.Endings.{verdict_line};
ghost use Rattle.branching.specs.Texts.{certificate_text, choices_text, comments, nodes_line, nodes_text, verdict_text};

use cert_text::Cert;
use cert2_write::write_cert2;
use lpcc_case::Verdict;
use migrating::migrate;
use nogoods::{Choice, Side};
use std::alloc::{AllocError, Global};

fn nodes_line(alloc: Global, nodes: u64) -> Result<String, AllocError>
    ensures { IfOk result (λ text. string_bytes text ≡ nodes_line nodes) }
{
    format!(in alloc; "\n* nodes {nodes}\n")
}

fn verdict_and(alloc: Global, verdict: Verdict, behind: String) -> Result<String, AllocError>
    ensures { IfOk result (λ text. string_bytes text ≡ verdict_line verdict ++ string_bytes behind) }
{
    match verdict {
        Verdict::Optimal(value) => format!(in alloc; "* optimal {value}{behind}"),
        Verdict::Infeasible => format!(in alloc; "* infeasible{behind}"),
        Verdict::Unbounded => format!(in alloc; "* unbounded{behind}"),
    }
}

fn comments(alloc: Global, verdict: Verdict, nodes: u64) -> Result<String, AllocError>
    ensures { IfOk result (λ text. string_bytes text ≡ comments verdict nodes) }
{
    let behind = nodes_line(alloc, nodes)?;
    verdict_and(alloc, verdict, behind)
}

// The text of the certificate in form 2, unless it is to be left out.
fn certificate_text(alloc: Global, brief: bool, cert: &Cert) -> Result<Vec<u8>, AllocError>
    requires { KeepsForm cert.now }
    ensures { IfOk result (λ text. text.items ≡ certificate_text brief cert.now) }
{
    if brief {
        return Ok(Vec::new(alloc));
    }
    let made = migrate(alloc, cert)?;
    write_cert2(alloc, &made)
}

/// The text of a verdict: two comment lines with its value and the number of nodes, and behind them
/// the certificate in form 2, unless it is to be brief.
pub fn verdict_text(
    alloc: Global,
    verdict: Verdict,
    nodes: u64,
    brief: bool,
    cert: &Cert,
) -> Result<Vec<u8>, AllocError>
    requires { KeepsForm cert.now }
    ensures { IfOk result (λ text. text.items ≡ verdict_text verdict nodes brief cert.now) }
{
    let mut text = comments(alloc, verdict, nodes)?.into_bytes();
    text.extend_from_slice(certificate_text(alloc, brief, cert)?.as_slice())?;
    Ok(text)
}

fn choice_text(alloc: Global, choice: Choice) -> Result<String, AllocError>
    ensures { IfOk result (λ text. string_bytes text ≡ choice_word choice) }
{
    let number = u64::from(choice.pair) + 1;
    match choice.side {
        Side::A => format!(in alloc; "{number}a"),
        Side::B => format!(in alloc; "{number}b"),
    }
}

fn push_choices(text: &mut String, alloc: Global, choices: &[Choice]) -> Result<(), AllocError>
    ensures { OnOk result (string_bytes text.new ≡ string_bytes text.old ++ choices_text choices.now) }
{
    match choices {
        [] => Ok(()),
        [choice] => text.push_str(choice_text(alloc, *choice)?.as_str()),
        [choice, rest @ ..] => {
            text.push_str(choice_text(alloc, *choice)?.as_str())?;
            text.push(' ')?;
            push_choices(text, alloc, rest)
        },
    }
}

/// The text where as many nodes were made as may be, and this path is left.
pub fn nodes_text(alloc: Global, nodes: u64, left: &[Choice]) -> Result<String, AllocError>
    ensures { IfOk result (λ text. string_bytes text ≡ nodes_text nodes left.now) }
{
    let mut text = format!(in alloc; "budget nodes {nodes} left ")?;
    push_choices(&mut text, alloc, left)?;
    text.push('\n')?;
    Ok(text)
}
