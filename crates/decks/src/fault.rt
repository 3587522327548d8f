//! Why a text spells no deck.
ghost use Rattle.std.specs.Prelude.{◌≡◌};
ghost use Rattle.decks.specs.Whys.{why_name};

use std::alloc::AllocError;
use thiserror::Error;

/// The fault of a line. Within one data line markers of integer columns are judged first, then the
/// count of fields, letters, words of a sense and kinds, set names and a second sense, names that
/// stand already, columns and groups that are split, from left to right each name with its value, and
/// last whether there is one too many. In BOUNDS a kind that is unknown is judged before the count of
/// fields.
#[derive(Clone, Copy, Debug, PartialEq, Eq)]
pub enum DeckWhy {
    /// A single word at the margin that no section has.
    UnknownSection,
    /// A section of other solvers that decks leave out.
    LeftOutSection,
    /// A head out of its order, or a data line where no section takes one.
    SectionOrder,
    /// No form of a line of this section has so many fields.
    FieldCount,
    /// No letter of a row.
    RowLetter,
    /// No word of a sense.
    SenseWord,
    /// No kind of a bound.
    BoundKind,
    /// A row or a pair of this name stands already.
    NameTwice,
    /// No row or column has this name.
    UnknownName,
    /// No decimal number.
    NumberText,
    /// A number with too many digits, or one that is too large or too fine.
    NumberWide,
    /// This entry, right-hand side or range is given already.
    EntryTwice,
    /// The lines of this column do not stand together.
    ColumnSplit,
    /// The lines of this group do not stand together.
    GroupSplit,
    /// A second set name in one section.
    SecondSet,
    /// A sense was given before.
    SecondSense,
    /// The section ROWS has no objective.
    NoObjective,
    /// A marker of integer columns, or a kind of bound that makes a column whole.
    IntegerMarker,
    /// An upper bound below 0 of a column whose lower bound no line has set or removed.
    UpperBelowZero,
    /// No kind of a quantity, or an N or E row in a pair or a group.
    PairKind,
    /// A column in a pair or a group that is fixed or has another lower bound than 0.
    PairLower,
    /// A column, by its distance from its upper bound, that is fixed or has no upper bound.
    PairUpper,
    /// One row, column, entry or pair more than a deck may have.
    TooMany,
    /// The text has no ENDATA.
    NotClosed,
    /// A line behind ENDATA that is neither blank nor a comment.
    AfterEnd,
}

impl DeckWhy {
    /// The name of the fault.
    pub fn name(self) -> &'static str
        ensures { result.now ≡ why_name self }
    {
        match self {
            DeckWhy::UnknownSection => "UnknownSection",
            DeckWhy::LeftOutSection => "LeftOutSection",
            DeckWhy::SectionOrder => "SectionOrder",
            DeckWhy::FieldCount => "FieldCount",
            DeckWhy::RowLetter => "RowLetter",
            DeckWhy::SenseWord => "SenseWord",
            DeckWhy::BoundKind => "BoundKind",
            DeckWhy::NameTwice => "NameTwice",
            DeckWhy::UnknownName => "UnknownName",
            DeckWhy::NumberText => "NumberText",
            DeckWhy::NumberWide => "NumberWide",
            DeckWhy::EntryTwice => "EntryTwice",
            DeckWhy::ColumnSplit => "ColumnSplit",
            DeckWhy::GroupSplit => "GroupSplit",
            DeckWhy::SecondSet => "SecondSet",
            DeckWhy::SecondSense => "SecondSense",
            DeckWhy::NoObjective => "NoObjective",
            DeckWhy::IntegerMarker => "IntegerMarker",
            DeckWhy::UpperBelowZero => "UpperBelowZero",
            DeckWhy::PairKind => "PairKind",
            DeckWhy::PairLower => "PairLower",
            DeckWhy::PairUpper => "PairUpper",
            DeckWhy::TooMany => "TooMany",
            DeckWhy::NotClosed => "NotClosed",
            DeckWhy::AfterEnd => "AfterEnd",
        }
    }
}

/// Why a text is not read as a deck.
#[derive(Debug, Drop, Error)]
pub enum DeckFault {
    #[error(transparent)]
    NoMemory(AllocError),
    /// The line of the first fault, from 1, and the fault.
    #[error("line {line}: {why:?}")]
    At { line: u32, why: DeckWhy },
}
