//! What the lines before one say.
ghost use Rattle.std.specs.Prelude.{◌≡◌, ◌↔◌, ◌<◌, ◌≤◌, ◌-◌, ◌∷◌, [], All, IfSome, IsTrue, MatchOption, OnOk, Some, false, length, slice_get, slice_index_or};
ghost use Rattle.cert2_text.specs.Wholes.{dropped_in, list_in};
ghost use Rattle.cert2_check.specs.Acceptance2.{IsListed};
ghost use Rattle.cert2_check.specs.Results2.{marked, named_list, with_line, with_list, with_lists, with_no_good};

use crate::merge::Term;
use cert2_text::Cert2Line;
use derivation::NoGoods;
use nogoods::{Choice, NoGood};
use std::alloc::{AllocError, Global};
use std::marker::Model;

/// The lists, the no-goods, and which of these are dropped, of the lines before one. A list takes 16
/// bytes and a no-good 9, besides the lines themselves.
#[derive(Drop)]
pub struct Earlier<'a> {
    lists: Vec<&'a [Term]>,
    no_goods: Vec<&'a NoGood>,
    dropped: Vec<bool>,
}

impl<'a> Model for Earlier<'a> {
    ghost use Rattle.std.specs.Prelude.{map};
    ghost use Rattle.cert2_check.specs.Results2.{Before};

    ghost Value = { Before };

    ghost view = { λ e. record { lists = map (λ l. l.now) e.lists.items; no_goods = map (λ n. n.now) e.no_goods.items; dropped = e.dropped.items } };
}

impl NoGoods for Earlier<'_> {
    ghost list = { λ e. e.no_goods };

    fn count(&self) -> usize {
        self.no_goods.len()
    }

    fn choices(&self, at: usize) -> &[Choice] {
        self.no_goods[at].choices()
    }
}

/// Whether a flag is set; there is none beyond the last.
pub fn is_marked(flags: &[bool], number: u64) -> bool
    ensures { result ≡ slice_index_or flags.now number false }
{
    match flags.get(number as usize) {
        Some(flag) => *flag,
        None => false,
    }
}

// The list that the line names.
fn list_of(line: &Cert2Line) -> Option<u64>
    ensures { result ≡ named_list line.now }
{
    match line {
        Cert2Line::Ray { list, .. } | Cert2Line::Point { list, .. } => *list,
        Cert2Line::Shared { .. } | Cert2Line::Derived { .. } | Cert2Line::Forget { .. } => None,
    }
}

// Sets these flags.
fn mark(flags: &mut Vec<bool>, numbers: &[u64])
    requires { All (λ h. h < length flags.now.items) numbers.now }
    ensures { flags.new.items ≡ marked flags.old.items numbers.now }
{
    for number in numbers {
        flags[*number as usize] = true;
    }
}

impl<'a> Earlier<'a> {
    /// Before the first line.
    pub fn new(alloc: Global) -> Earlier<'a>
        ensures { result ≡ record { lists = []; no_goods = []; dropped = [] } }
    {
        Earlier {
            lists: Vec::new(alloc),
            no_goods: Vec::new(alloc),
            dropped: Vec::new(alloc),
        }
    }

    /// The list of this number, if there is one.
    pub fn list(&self, number: u64) -> Option<&'a [Term]>
        ensures { MatchOption result (length self.now.lists ≤ number) (λ l. (number < length self.now.lists) × (l.now ≡ slice_index_or self.now.lists number [])) }
    {
        let list = self.lists.get(number as usize)?;
        Some(*list)
    }

    /// Whether the list that the line names, if it names one, is there.
    pub fn has_list_of(&self, line: &Cert2Line) -> bool
        ensures { IsTrue result ↔ IsListed self.now.lists (named_list line.now) }
    {
        match list_of(line) {
            Some(number) => number < self.lists.len() as u64,
            None => true,
        }
    }

    fn is_kept(&self, number: u64) -> bool
        ensures { IsTrue result ↔ (slice_index_or self.now.dropped number false ≡ false) }
    {
        !is_marked(&self.dropped, number)
    }

    /// Whether none of the no-good lines of these numbers is dropped.
    pub fn are_kept(&self, hints: &[u64]) -> bool
        ensures { IsTrue result ↔ All (λ h. slice_index_or self.now.dropped h false ≡ false) hints.now }
    {
        for hint in hints {
            if !self.is_kept(*hint) {
                return false;
            }
        }
        true
    }

    // Whether there is a no-good line of this number that is not dropped.
    fn is_alive(&self, number: u64) -> bool
        ensures { IsTrue result ↔ ((number < length self.now.no_goods) × (slice_index_or self.now.dropped number false ≡ false)) }
    {
        (number as usize) < self.no_goods.len() && !is_marked(&self.dropped, number)
    }

    /// Whether there are no-good lines of these numbers that are not dropped.
    pub fn may_drop(&self, numbers: &[u64]) -> bool
        ensures { IsTrue result ↔ All (λ h. (h < length self.now.no_goods) × (slice_index_or self.now.dropped h false ≡ false)) numbers.now }
    {
        for number in numbers {
            if !self.is_alive(*number) {
                return false;
            }
        }
        true
    }

    /// Whether there is a last no-good, without choices.
    pub fn ends_empty(&self) -> bool
        ensures { IsTrue result ↔ (slice_get self.now.no_goods (length self.now.no_goods - 1) ≡ Some []) }
    {
        let count = self.count();
        if count == 0 {
            return false;
        }
        self.choices(count - 1).is_empty()
    }

    fn take_list(&mut self, list: &'a [Term]) -> Result<(), AllocError>
        ensures { OnOk result (self.new ≡ with_list self.old list.now) }
    {
        self.lists.push(list)?;
        Ok(())
    }

    /// Takes the no-good of one line more.
    pub fn take_no_good(&mut self, no_good: &'a NoGood) -> Result<(), AllocError>
        ensures { OnOk result (self.new ≡ with_no_good self.old no_good.now) }
    {
        self.no_goods.push(no_good)?;
        self.dropped.push(false)?;
        Ok(())
    }

    /// Takes the list of one line more, and nothing else.
    pub fn take_list_in(&mut self, line: &'a Cert2Line) -> Result<(), AllocError>
        ensures { OnOk result (self.new ≡ with_lists self.old (list_in line.now)) }
    {
        match line {
            Cert2Line::Shared { mult } => self.take_list(mult.as_slice()),
            Cert2Line::Ray { .. }
            | Cert2Line::Point { .. }
            | Cert2Line::Derived { .. }
            | Cert2Line::Forget { .. } => Ok(()),
        }
    }

    /// Takes one line more. What it drops has to be there.
    pub fn take(&mut self, line: &'a Cert2Line) -> Result<(), AllocError>
        requires { All (λ h. h < length self.now.dropped) (dropped_in line.now) }
        ensures { OnOk result (self.new ≡ with_line self.old line.now) }
    {
        match line {
            Cert2Line::Shared { mult } => self.take_list(mult.as_slice()),
            Cert2Line::Ray { ng, .. }
            | Cert2Line::Point { ng, .. }
            | Cert2Line::Derived { ng, .. } => self.take_no_good(ng),
            Cert2Line::Forget { lines } => {
                mark(&mut self.dropped, lines.as_slice());
                Ok(())
            }
        }
    }
}
