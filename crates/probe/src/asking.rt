//! The probe and its questions.
ghost use Rattle.std.specs.Prelude.{◌≡◌, IfOk};
ghost use Rattle.std.specs.Option.{option_copied};
ghost use Rattle.lpcc_case.specs.Pieces.{NamesPairs};
ghost use Rattle.reasons.specs.Reasons.{IsLimit};
ghost use Rattle.probe.specs.declared.answer.Answer.TheVariants.{Unknown};
ghost use Rattle.probe.specs.Answers.{IsAnswer};

use crate::Answer;
use crate::below::tested_point;
use crate::finding::{Aim, Finding, Question, find};
use crate::tested_cuts::{number_of, tested_cut};
use general_simplex::Simplex;
use lpcc_case::{Case, Point};
use nogoods::{Choice, NoGood};
use std::alloc::{AllocError, Global};

/// A dictionary in numbers of 64 bits, or of 128 bits where those did not do.
enum Dictionary {
    Narrow(Simplex<i64>),
    Wide(Simplex<i128>),
}

/// By a call, which keeps the models of the functions small that own one.
impl Drop for Dictionary {
    fn drop(self) {
        match self {
            Dictionary::Narrow(_) => {}
            Dictionary::Wide(_) => {}
        }
    }
}

/// A standing dictionary that is asked again and again about one case, so that each question goes on
/// from where the last one ended. Asked about another case, it answers nothing false, and little.
pub struct Probe {
    pub(crate) alloc: Global,
    dictionary: Dictionary,
    /// Room for the constraints of choices.
    held: Vec<u32>,
    pub(crate) dropped: u64,
}

/// By a call, which keeps the models of the functions small that own one.
impl Drop for Probe {
    fn drop(self) {
        let Probe {
            alloc: _,
            dictionary: _,
            held: _,
            dropped: _,
        } = self;
    }
}

/// Asks the narrow dictionary. None where a number did not fit it.
fn find_narrow(
    dictionary: &mut Dictionary,
    question: Question<'_>,
) -> Result<Option<Finding>, AllocError> {
    let Dictionary::Narrow(simplex) = dictionary else {
        return Ok(None);
    };
    match find(simplex, question)? {
        Finding::TooWide => Ok(None),
        found => Ok(Some(found)),
    }
}

/// Makes the dictionary a wide one, and asks it.
fn find_wide(dictionary: &mut Dictionary, question: Question<'_>) -> Result<Finding, AllocError> {
    if let Dictionary::Narrow(_) = dictionary {
        *dictionary = Dictionary::Wide(Simplex::of_case(question.alloc, question.case)?);
    }
    match dictionary {
        Dictionary::Narrow(_) => Ok(Finding::Nothing),
        Dictionary::Wide(simplex) => find(simplex, question),
    }
}

impl Probe {
    /// The probe of a case.
    ///
    /// # Errors
    ///
    /// Want of memory alone.
    pub fn of_case(alloc: Global, case: &Case) -> Result<Probe, AllocError> {
        Ok(Probe {
            alloc,
            dictionary: Dictionary::Narrow(Simplex::of_case(alloc, case)?),
            held: Vec::new(alloc),
            dropped: 0,
        })
    }

    /// How many findings failed their test. It is to stay 0; no answer rests on that.
    pub fn dropped(&self) -> u64 {
        self.dropped
    }

    /// Whether the dictionary stands where the constraint of a choice holds with equality. Nothing
    /// is claimed of it.
    pub fn is_tight(&self, case: &Case, choice: Choice) -> bool {
        let Some(number) = number_of(case, choice) else {
            return false;
        };
        match &self.dictionary {
            Dictionary::Narrow(simplex) => simplex.is_tight(number),
            Dictionary::Wide(simplex) => simplex.is_tight(number),
        }
    }

    fn list_held(&mut self, case: &Case, tight: &NoGood) -> Result<(), AllocError> {
        self.held.clear();
        for choice in tight.choices() {
            if let Some(number) = number_of(case, *choice) {
                self.held.push(number)?;
            }
        }
        Ok(())
    }

    /// What the narrow dictionary finds, or the wide one where a number did not fit. It stays wide
    /// from then on.
    pub(crate) fn find(
        &mut self,
        case: &Case,
        tight: &NoGood,
        limit: Option<&Point>,
        aim: Aim,
    ) -> Result<Finding, AllocError> {
        self.list_held(case, tight)?;
        let question = Question {
            alloc: self.alloc,
            case,
            held: self.held.as_slice(),
            limit: limit.map(|point| (point.z, point.d)),
            aim,
        };
        match find_narrow(&mut self.dictionary, question)? {
            Some(found) => Ok(found),
            None => find_wide(&mut self.dictionary, question),
        }
    }

    fn drop_one(&mut self) -> Answer
        ensures { result ≡ Unknown }
    {
        self.dropped = self.dropped.saturating_add(1);
        Answer::Unknown
    }

    fn answer(
        &mut self,
        case: &Case,
        tight: &NoGood,
        limit: Option<&Point>,
        found: Finding,
    ) -> Result<Answer, AllocError>
        requires named { NamesPairs case.now tight.now }
        requires limit { IsLimit case.now (option_copied limit) }
        ensures { IfOk result (IsAnswer case.now (option_copied limit.entry) tight.now) }
    {
        match found {
            Finding::Cut(found) => match tested_cut(self.alloc, case, tight, limit, found)? {
                Some(cut) => Ok(Answer::Cut(cut)),
                None => Ok(self.drop_one()),
            },
            Finding::Point(found) => match tested_point(case, tight, limit, found) {
                Some(point) => Ok(Answer::Point(point)),
                None => Ok(self.drop_one()),
            },
            Finding::Least(..) | Finding::TooWide | Finding::Nothing => Ok(Answer::Unknown),
        }
    }

    /// Asks for a point that meets all constraints, is tight at each of the choices and is lower
    /// than the limit, where there is one. What is answered has passed its test; a finding that
    /// fails it is dropped.
    ///
    /// # Errors
    ///
    /// Want of memory alone; the next question is answered as ever.
    pub fn ask(
        &mut self,
        case: &Case,
        tight: &NoGood,
        limit: Option<&Point>,
    ) -> Result<Answer, AllocError>
        requires named { NamesPairs case.now tight.now }
        requires limit { IsLimit case.now (option_copied limit) }
        ensures { IfOk result (IsAnswer case.now (option_copied limit.entry) tight.now) }
    {
        let found = self.find(case, tight, limit, Aim::Point)?;
        self.answer(case, tight, limit, found)
    }
}
