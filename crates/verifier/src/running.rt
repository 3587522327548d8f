//! The command over a source and a sink.
ghost use Rattle.std.specs.Prelude.{◌≡◌, ◌⊎◌, ℕ, List, Some};
ghost use Rattle.command.specs.Answers.{IsWritten};
ghost use Rattle.command.specs.declared.refusal.Refusal.TheVariants as refusal;
ghost use Rattle.verifier.specs.declared.answer.Answer.{Answer as Response};
ghost use Rattle.verifier.specs.declared.answer.Answer.TheVariants.{Refused};
ghost use Rattle.verifier.specs.Answers.{status_of, text_of};
ghost use Rattle.verifier.specs.Runs.{IsChecked, IsRight, SaysYes};

use crate::answer::Answer;
use crate::judging::{MOST_BYTES, judge, judge_many};
use crate::laws::{accepted_inputs_are_true, an_input_has_one_answer};
use command::{Status, give, give_no_memory, take};
use lp_io::{Sink, Source};
use std::alloc::Global;
use std::thread::Threads;

// What is answered to the bytes of the source.
fn answer_to<S: Source>(alloc: Global, src: &mut S) -> Answer
    ensures { IsRight (S.left src.old) (S.faults src.old) (S.faults src.new) result }
{
    an_input_has_one_answer();
    match take(alloc, src, MOST_BYTES) {
        Ok(input) => judge(alloc, &input),
        Err(refusal) => Answer::Refused(refusal),
    }
}

// The same, with cuts tested in many threads.
fn answer_many_to<R: Threads + Sync, S: Source>(rt: &R, alloc: Global, src: &mut S) -> Answer
    ensures { IsRight (S.left src.old) (S.faults src.old) (S.faults src.new) result }
{
    an_input_has_one_answer();
    match take(alloc, src, MOST_BYTES) {
        Ok(input) => judge_many(rt, alloc, &input),
        Err(refusal) => Answer::Refused(refusal),
    }
}

// Makes the whole text of the answer and writes it. Where there is no memory for the text, the
// answer is that.
fn give_answer<K: Sink>(alloc: Global, answer: Answer, out: &mut K) -> Status
    ensures { (given : Response) × ((given ≡ answer) ⊎ (given ≡ Refused refusal.NoMemory))
        × IsWritten (K.taken out.old) (K.taken out.new) (K.faults out.old) (K.faults out.new) (text_of given) (status_of given) result }
{
    match answer.text(alloc) {
        Ok(text) => give(text.as_bytes(), answer.status(), out),
        Err(_) => give_no_memory(out),
    }
}

/// Reads the source to its end, a deck and behind the line of its ENDATA a certificate of either form,
/// and writes one line that says whether the certificate is accepted for the case of the deck;
/// answers the status that a program ends with. It takes no handle, and always returns.
///
/// What each status says follows: `a_status_tells_the_answer`, `each_cause_is_answered`.
pub fn verify<S: Source, K: Sink>(alloc: Global, src: &mut S, out: &mut K) -> Status
    // One answer is right, and it is written.
    ensures answered { IsChecked (S.left src.old) (S.faults src.old) (S.faults src.new)
        (K.taken out.old) (K.taken out.new) (K.faults out.old) (K.faults out.new) result }

    // Status 0 is `yes`: a certificate is accepted with a verdict, which is true of the deck and
    // is written.
    ensures yes { result ≡ 0 → (bytes : List ℕ) → S.left src.old ≡ Some bytes →
        SaysYes bytes (K.taken out.old) (K.taken out.new) }
{
    accepted_inputs_are_true();
    let answer = answer_to(alloc, src);
    give_answer(alloc, answer, out)
}

/// Does what `verify` does, with cuts tested in many threads. It does not wait, and always returns.
pub fn verify_many<R: Threads + Sync, S: Source, K: Sink>(
    rt: &R,
    alloc: Global,
    src: &mut S,
    out: &mut K,
) -> Status
    // One answer is right, and it is written.
    ensures answered { IsChecked (S.left src.old) (S.faults src.old) (S.faults src.new)
        (K.taken out.old) (K.taken out.new) (K.faults out.old) (K.faults out.new) result }

    // Status 0 is `yes`: a certificate is accepted with a verdict, which is true of the deck and
    // is written.
    ensures yes { result ≡ 0 → (bytes : List ℕ) → S.left src.old ≡ Some bytes →
        SaysYes bytes (K.taken out.old) (K.taken out.new) }
{
    accepted_inputs_are_true();
    let answer = answer_many_to(rt, alloc, src);
    give_answer(alloc, answer, out)
}
