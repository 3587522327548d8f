//! The order of sections.
ghost use Rattle.std.specs.Prelude.{◌≡◌, ◌||◌, Some, None, false};
ghost use Rattle.decks.specs.Sections.{section_number, same_section, rank, open_rank, may_follow};
ghost use Rattle.mps_tables.specs.Answers.{Checks};
ghost use Rattle.mps_pairs.specs.Known.{begin, begun_by, section_order_fault};
ghost use Rattle.mps_pairs.specs.declared.sections.SectionState as known;

use decks::DeckWhy;
use mps_lex::Section;

/// What stands open, and which sections are begun of those that come in any order.
#[derive(Clone, Copy)]
pub struct SectionState {
    pub current: Option<Section>,
    pub rhs: bool,
    pub ranges: bool,
    pub bounds: bool,
}

fn section_number(section: Section) -> u8
    ensures { result ≡ section_number section }
{
    match section {
        Section::Name => 1,
        Section::ObjSense => 2,
        Section::Rows => 3,
        Section::Columns => 4,
        Section::Rhs => 5,
        Section::Ranges => 6,
        Section::Bounds => 7,
        Section::Pairs => 8,
        Section::Groups => 9,
        Section::Endata => 10,
    }
}

fn is_same(a: Section, b: Section) -> bool
    ensures { result ≡ same_section a b }
{
    section_number(a) == section_number(b)
}

fn rank(section: Section) -> u8
    ensures { result ≡ rank section }
{
    match section {
        Section::Name => 1,
        Section::ObjSense => 2,
        Section::Rows => 3,
        Section::Columns => 4,
        Section::Rhs | Section::Ranges | Section::Bounds => 5,
        Section::Pairs => 6,
        Section::Groups => 7,
        Section::Endata => 8,
    }
}

fn open_rank(current: Option<Section>) -> u8
    ensures { result ≡ open_rank current }
{
    match current {
        None => 0,
        Some(section) => rank(section),
    }
}

fn may_follow(from: u8, begun: bool, next: Section) -> bool
    ensures { result ≡ may_follow from begun next }
{
    match next {
        Section::Name => from <= 0,
        Section::ObjSense => from <= 1,
        Section::Rows => from <= 2,
        Section::Columns => from == 3,
        Section::Rhs | Section::Ranges | Section::Bounds => 4 <= from && from <= 5 && !begun,
        Section::Pairs => 4 <= from && from <= 5,
        Section::Groups => 4 <= from && from <= 6,
        Section::Endata => 4 <= from && from <= 7,
    }
}

impl SectionState {
    /// Nothing is begun.
    pub fn new() -> SectionState
        ensures { result ≡ record { current = None; rhs = false; ranges = false; bounds = false } }
    {
        SectionState {
            current: None,
            rhs: false,
            ranges: false,
            bounds: false,
        }
    }

    fn has_begun(self, section: Section) -> bool
        ensures { result ≡ begun_by self section }
    {
        match section {
            Section::Rhs => self.rhs,
            Section::Ranges => self.ranges,
            Section::Bounds => self.bounds,
            Section::Name
            | Section::ObjSense
            | Section::Rows
            | Section::Columns
            | Section::Pairs
            | Section::Groups
            | Section::Endata => false,
        }
    }

    /// Checks that a head stands in its order.
    pub fn check(self, next: Section) -> Result<(), DeckWhy>
        ensures { Checks result (section_order_fault self next) }
    {
        if !may_follow(open_rank(self.current), self.has_begun(next), next) {
            return Err(DeckWhy::SectionOrder);
        }
        Ok(())
    }

    /// Begins a section.
    pub fn begin(self, next: Section) -> SectionState
        ensures { result ≡ begin self next }
    {
        SectionState {
            current: Some(next),
            rhs: self.rhs || is_same(Section::Rhs, next),
            ranges: self.ranges || is_same(Section::Ranges, next),
            bounds: self.bounds || is_same(Section::Bounds, next),
        }
    }
}
