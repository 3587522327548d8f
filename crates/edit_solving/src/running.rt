//! The command over a source and a sink.
ghost use Rattle.std.specs.Prelude.{◌≡◌, ◌⊎◌, ℕ, Err, IfErr, IfOk, List, Ok, Some};
ghost use Rattle.lpcc_case.specs.Instance.{Instance};
ghost use Rattle.command.specs.declared.refusal.Refusal.TheVariants.{NoMemory};
ghost use Rattle.edit_text.specs.declared.script.Script.{Script as Commands};
ghost use Rattle.editing.specs.Inputs.{KeepsRules, SpellsEdits};
ghost use Rattle.editing.specs.declared.refusal.EditRefusal.TheVariants.{Input};
ghost use Rattle.edit_solving.specs.Runs.{AreEnough, IsEditRun, SaysVerdicts, opened};
ghost use Rattle.edit_solving.specs.Scripts.{Says};

use crate::scripts::say;
use command::{Status, give};
use edit_session::Session;
use edit_text::Script;
use editing::{EditRefusal, give_edit_refusal, read_edits};
use lp_io::{Sink, Source};
use lpcc_case::Case;
use play::Options;
use std::alloc::Global;

// What the script says over the case.
fn say_over(
    alloc: Global,
    case: Case,
    script: &Script,
    options: &Options,
) -> Result<(Vec<u8>, u8), EditRefusal>
    requires { KeepsRules script.now }
    ensures said { IfOk result (λ said. Says (opened case options.now) 1 script.now.commands (Ok (said.0.items, said.1))) }
    ensures refused { IfErr result (λ r. (r ≡ Input NoMemory) ⊎ Says (opened case options.now) 1 script.now.commands (Err r)) }
{
    let mut session = Session::create(alloc, case, *options);
    say(alloc, &mut session, script.commands.as_slice())
}

/// Reads a deck and the script of edits behind it, edits the case of the deck by the script, and writes
/// what is answered on the way, or the one line that is refused; answers the status that a program ends
/// with. The whole script is judged before any edit is made. It takes no handle, and always returns.
pub fn run_edits<S: Source, K: Sink>(
    alloc: Global,
    options: &Options,
    src: &mut S,
    out: &mut K,
) -> Status
    // The input is refused exactly for its cause, or the script says this over the case of the deck;
    // that is written.
    ensures answered { IsEditRun options.now (S.left src.old) (S.faults src.old) (S.faults src.new)
        (K.taken out.old) (K.taken out.new) (K.faults out.old) (K.faults out.new) result }

    // With status 0 each answer is a verdict that is true of the case as the edits before have made it.
    ensures verdicts { result ≡ 0 → (bytes : List ℕ) → S.left src.old ≡ Some bytes →
        SaysVerdicts bytes (K.taken out.old) (K.taken out.new) }

    // With as many draws as there are pieces, and as many pivots as there are choices of the columns, no
    // budget is spent.
    ensures enough { (bytes : List ℕ) → S.left src.old ≡ Some bytes → (a : Instance) → (script : Commands) →
        SpellsEdits bytes a script → AreEnough a script options.now → result ≡ 8 → ⊥ }
{
    match read_edits(alloc, src) {
        Ok((case, script)) => match say_over(alloc, case, &script, options) {
            Ok((text, status)) => give(text.as_slice(), status, out),
            Err(refusal) => give_edit_refusal(alloc, refusal, out),
        },
        Err(refusal) => give_edit_refusal(alloc, refusal, out),
    }
}
