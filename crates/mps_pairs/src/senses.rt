//! The sense of the objective.
ghost use Rattle.std.specs.Prelude.{◌≡◌, ◌∷◌, [], IfOk, None, Some, map};
ghost use Rattle.mps_lex.specs.Shown.{shown};
ghost use Rattle.mps_lex.specs.declared.line.Section.TheVariants.{ObjSense};
ghost use Rattle.decks.specs.Faults.{head_words_fault, sense_fault, sense_word_fault};
ghost use Rattle.decks.specs.Senses.{sense_on_head, sense_on_line, sense_word};
ghost use Rattle.mps_tables.specs.Answers.{Checks};

use decks::DeckWhy;
use mps_lex::Section;
use sense::Sense;

#[tactic(auto, unfolding(decks::specs::Senses::sense_word))]
fn sense_word(word: &[u8]) -> Option<Sense>
    ensures { result ≡ sense_word word.now }
{
    if word == b"MIN".as_slice() {
        return Some(Sense::Min);
    }
    if word == b"MINIMIZE".as_slice() {
        return Some(Sense::Min);
    }
    if word == b"MAX".as_slice() {
        return Some(Sense::Max);
    }
    if word == b"MAXIMIZE".as_slice() {
        return Some(Sense::Max);
    }
    None
}

fn parse_word(word: &[u8]) -> Result<Sense, DeckWhy>
    ensures fault { Checks result (sense_word_fault word.now) }
    ensures value { IfOk result (λ s. sense_word word.now ≡ Some s) }
{
    match sense_word(word) {
        Some(sense) => Ok(sense),
        None => Err(DeckWhy::SenseWord),
    }
}

fn words_of_head(fields: &[&[u8]]) -> Result<Option<Sense>, DeckWhy>
    ensures fault { Checks result (head_words_fault ObjSense (map shown fields.now)) }
    ensures value { IfOk result (λ o. o ≡ sense_on_head ObjSense (map shown fields.now)) }
{
    match fields {
        [] | [_] => Ok(None),
        [_, word] => match parse_word(*word) {
            Ok(sense) => Ok(Some(sense)),
            Err(why) => Err(why),
        },
        _ => Err(DeckWhy::FieldCount),
    }
}

/// The sense that a head names behind its word, if it is that of OBJSENSE and names one.
pub fn sense_of_head(section: Section, fields: &[&[u8]]) -> Result<Option<Sense>, DeckWhy>
    ensures fault { Checks result (head_words_fault section (map shown fields.now)) }
    ensures value { IfOk result (λ o. o ≡ sense_on_head section (map shown fields.now)) }
{
    match section {
        Section::ObjSense => words_of_head(fields),
        Section::Name
        | Section::Rows
        | Section::Columns
        | Section::Rhs
        | Section::Ranges
        | Section::Bounds
        | Section::Pairs
        | Section::Groups
        | Section::Endata => Ok(None),
    }
}

fn sense_alone(before: Option<Sense>, word: &[u8]) -> Result<Sense, DeckWhy>
    ensures fault { Checks result (sense_fault before (word.now ∷ [])) }
    ensures value { IfOk result (λ s. sense_word word.now ≡ Some s) }
    ensures first { IfOk result (λ s. before ≡ None) }
{
    let sense = parse_word(word)?;
    if before.is_some() {
        return Err(DeckWhy::SecondSense);
    }
    Ok(sense)
}

/// The sense that a line of OBJSENSE names, where none is named before it.
pub fn sense_of_line(before: Option<Sense>, fields: &[&[u8]]) -> Result<Sense, DeckWhy>
    ensures fault { Checks result (sense_fault before (map shown fields.now)) }
    ensures value { IfOk result (λ s. sense_on_line (map shown fields.now) ≡ Some s) }
    ensures first { IfOk result (λ s. before ≡ None) }
{
    match fields {
        [word] => sense_alone(before, *word),
        _ => Err(DeckWhy::FieldCount),
    }
}
