//! What the definitions of the answers' causes come to.
ghost use Rattle.std.specs.Prelude.{◌≡◌, ◌⊎◌, ℕ, List, Option, Some};
ghost use Rattle.std.specs.Io.KnownBytes.{Appends};
ghost use Rattle.lp_io.specs.Faults.{Rose};
ghost use Rattle.lpcc_case.specs.declared.verdict.Verdict.{Verdict};
ghost use Rattle.cert_text.specs.declared.fault.CertWhy.{CertWhy};
ghost use Rattle.cert_check.specs.declared.accept.NoWhy.{NoWhy};
ghost use Rattle.command.specs.Inputs.{IsRefusal, IsTrueOfBytes};
ghost use Rattle.command.specs.declared.extent.Extent.TheVariants.{Prefix};
ghost use Rattle.command.specs.declared.refusal.Refusal.{Refusal};
ghost use Rattle.command.specs.declared.refusal.Refusal.TheVariants.{NoMemory, ReadFault};
ghost use Rattle.verifier.specs.declared.answer.Answer.{Answer};
ghost use Rattle.verifier.specs.declared.answer.Answer.TheVariants.{Refused, Yes};
ghost use Rattle.verifier.specs.declared.judging.TheConstants.{MOST_BYTES};
ghost use Rattle.verifier.specs.Answers.{status_of, text_of};
ghost use Rattle.verifier.specs.Causes.{HasCertificateFault, HasFailingLine, IsAccepted, IsCause};
ghost use Rattle.verifier.specs.Runs.{IsChecked, IsRight};

use cert2_check::{acceptance_is_a_function, accepted_verdicts_are_true};
use cert2_text::{a_text_has_one_first_fault, a_text_spells_one, what_is_spelled_does_not_fail};
use command::{
    an_input_begins_with_one_case, spelled_cases_are_cases, verdicts_are_true_of_the_bytes,
};

/// The bytes of an input are the cause of one answer at most: the laws on decks, cases,
/// certificates and acceptance give it.
pub fn an_input_has_one_answer()
    ensures { (bytes : List ℕ) (one other : Answer) → IsCause bytes one → IsCause bytes other → one ≡ other }
{
    an_input_begins_with_one_case();
    spelled_cases_are_cases();
    a_text_spells_one();
    a_text_has_one_first_fault();
    what_is_spelled_does_not_fail();
    acceptance_is_a_function();
}

/// Where a certificate is accepted behind a deck, its verdict is true of the deck.
pub fn accepted_inputs_are_true()
    ensures { (bytes : List ℕ) (v : Verdict) → IsAccepted bytes v → IsTrueOfBytes bytes v }
{
    accepted_verdicts_are_true();
    verdicts_are_true_of_the_bytes();
}

/// Each answer comes wherever the bytes are its cause, unless reading fails or memory runs out.
pub fn each_cause_is_answered()
    ensures answer { (left : Option (List ℕ)) (before now : ℕ) (answer expected : Answer) (bytes : List ℕ) →
        IsRight left before now answer → left ≡ Some bytes → IsCause bytes expected →
        (answer ≡ expected) ⊎ (answer ≡ Refused ReadFault) ⊎ (answer ≡ Refused NoMemory) }

    // So an accepted certificate is answered with `yes`, unless reading, writing or memory fails.
    ensures accepted { (left : Option (List ℕ)) (rb rn : ℕ) (tb tn : Option (List ℕ)) (wb wn status : ℕ) (bytes : List ℕ) (v : Verdict) →
        IsChecked left rb rn tb tn wb wn status → left ≡ Some bytes → IsAccepted bytes v →
        ((status ≡ 0) × Appends tb tn (text_of (Yes v))) ⊎ (status ≡ 4) ⊎ (status ≡ 5) ⊎ (status ≡ 6) }
{}

/// What the status of a run says.
pub fn a_status_tells_the_answer()
    // Faults of reading and of writing are counted.
    ensures read_fault { (left : Option (List ℕ)) (rb rn : ℕ) (tb tn : Option (List ℕ)) (wb wn status : ℕ) →
        IsChecked left rb rn tb tn wb wn status → status ≡ 4 → Rose rb rn }
    ensures write_fault { (left : Option (List ℕ)) (rb rn : ℕ) (tb tn : Option (List ℕ)) (wb wn status : ℕ) →
        IsChecked left rb rn tb tn wb wn status → status ≡ 5 → Rose wb wn }

    // Where no write failed, the sink has grown by exactly the text of an answer with this status.
    ensures written { (left : Option (List ℕ)) (rb rn : ℕ) (tb tn : Option (List ℕ)) (wb wn status : ℕ) →
        IsChecked left rb rn tb tn wb wn status → (status ≡ 5 → ⊥) →
        (answer : Answer) × (status ≡ status_of answer) × Appends tb tn (text_of answer) }

    // Status 2 is left to the programs, for words that they do not take.
    ensures not_two { (left : Option (List ℕ)) (rb rn : ℕ) (tb tn : Option (List ℕ)) (wb wn status : ℕ) →
        IsChecked left rb rn tb tn wb wn status → status ≡ 2 → ⊥ }

    // `no` and a refusal of the deck have their causes in the bytes.
    ensures no { (left : Option (List ℕ)) (rb rn : ℕ) (tb tn : Option (List ℕ)) (wb wn status : ℕ) (bytes : List ℕ) →
        IsChecked left rb rn tb tn wb wn status → left ≡ Some bytes → status ≡ 1 →
        ((line : ℕ) × (why : CertWhy) × HasCertificateFault bytes line why)
        ⊎ ((line : ℕ) × (why : NoWhy) × HasFailingLine bytes line why) }
    ensures refused { (left : Option (List ℕ)) (rb rn : ℕ) (tb tn : Option (List ℕ)) (wb wn status : ℕ) (bytes : List ℕ) →
        IsChecked left rb rn tb tn wb wn status → left ≡ Some bytes → status ≡ 3 →
        (refusal : Refusal) × IsRefusal MOST_BYTES Prefix bytes refusal }
{}
