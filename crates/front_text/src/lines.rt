//! The lines of a text.
ghost use Rattle.std.specs.Prelude.{◌≡◌, ◌<◌, ◌+◌, ◌-◌, ◌^◌, length, nat_lt};
ghost use Rattle.front_text.specs.Calls.{Finds, NextIn, NextIs, placed};
ghost use Rattle.front_text.specs.Steps.{all_lines, begins, behind_end, head_step, next_begins, whole_line};

use crate::tokens::Fault;
use crate::{FrontFault, FrontWhy};
use cert_text::split::{Split, place_of};
use std::marker::Model;

/// What comes next in a text: a line that an LF ends, bytes behind the last LF, or nothing.
#[derive(Clone, Copy)]
pub enum Next<'a> {
    Whole(&'a [u8]),
    Cut,
    Over,
}

/// The lines that are not yet taken.
#[derive(Drop)]
pub struct Lines<'a> {
    rest: &'a [u8],
    taken: u32,
}

impl<'a> Model for Lines<'a> {
    ghost use Rattle.std.specs.Prelude.{◌+◌, ◌<◌, ◌-◌, ◌^◌, length};
    ghost use Rattle.front_text.specs.Lines.{is_cut, lines_in};
    ghost use Rattle.front_text.specs.Steps.{Left};

    ghost Value = { Left };

    ghost view = { λ l. record { taken = l.taken; lines = lines_in l.rest.now; cut = is_cut l.rest.now } };

    ghost invariant = { λ l. l.taken + length l.rest.now < 2 ^ 32 - 1 };
}

fn has_bytes(text: &[u8]) -> bool
    ensures { result ≡ nat_lt 0 (length text.now) }
{
    !text.is_empty()
}

// What comes next in a text, and what is left of the text behind it.
fn next_in<'a>(text: &'a [u8]) -> (Next<'a>, &'a [u8])
    ensures { NextIn result.0 text.now result.1.now }
{
    if let Some(at) = place_of(b'\n', text) {
        let (line, behind) = text.split_at(at);
        return (Next::Whole(line), &behind[1..]);
    }
    if has_bytes(text) {
        return (Next::Cut, text);
    }
    (Next::Over, text)
}

// Whether this is the first word of a line.
fn begins(line: &[u8], kind: &[u8]) -> bool
    ensures { result ≡ begins kind.now line.now }
{
    match Split::of(line, b' ').next() {
        Some(word) => word == kind,
        None => kind.is_empty(),
    }
}

impl<'a> Lines<'a> {
    /// All lines of a text.
    pub fn of(text: &'a [u8]) -> Lines<'a>
        requires { length text.now < 2 ^ 32 - 1 }
        ensures { result ≡ all_lines text.now }
    {
        Lines {
            rest: text,
            taken: 0,
        }
    }

    /// Takes the next line that an LF ends.
    pub fn next(&mut self) -> Next<'a>
        ensures { NextIs result self.old self.new }
    {
        let (next, rest) = next_in(self.rest);
        self.rest = rest;
        if let Next::Whole(_) = next {
            self.taken += 1;
        }
        next
    }

    /// The number of the line that comes next, from 1.
    pub fn next_number(&self) -> u32
        ensures { result ≡ self.now.taken + 1 }
    {
        self.taken + 1
    }

    /// Whether a line comes next that begins with this word.
    #[tactic(auto, unfolding(crate::specs::Steps::next_begins))]
    pub fn begin(&self, kind: &[u8]) -> bool
        ensures { result ≡ next_begins kind.now self.now.lines }
    {
        let mut rest = Lines {
            rest: self.rest,
            taken: self.taken,
        };
        match rest.next() {
            Next::Whole(line) => begins(line, kind),
            Next::Cut | Next::Over => false,
        }
    }

    /// Takes the next line, which an LF has to end.
    #[tactic(auto, unfolding(crate::specs::Steps::whole_line))]
    pub fn whole(&mut self) -> Result<&'a [u8], FrontFault>
        ensures { Finds (λ line. (line.now, self.new)) result (whole_line self.old) }
    {
        let line = self.next_number();
        match self.next() {
            Next::Whole(bytes) => Ok(bytes),
            Next::Cut | Next::Over => Err(FrontFault::At {
                line,
                why: FrontWhy::NotEnded,
            }),
        }
    }

    /// Takes the next line, which has to be the head.
    #[tactic(auto, unfolding(crate::specs::Steps::head_step))]
    pub fn head(&mut self, head: &[u8]) -> Result<(), FrontFault>
        ensures { Finds (λ _. self.new) result (head_step head.now self.old) }
    {
        let line = self.next_number();
        match self.next() {
            Next::Whole(bytes) if bytes == head => Ok(()),
            _ => Err(FrontFault::At {
                line,
                why: FrontWhy::BadHead,
            }),
        }
    }

    /// Nothing is left.
    #[tactic(auto, unfolding(crate::specs::Steps::behind_end))]
    pub fn end(&mut self) -> Result<(), FrontFault>
        ensures { Finds (λ _. self.old) result (behind_end self.old) }
    {
        let line = self.next_number();
        match self.next() {
            Next::Over => Ok(()),
            Next::Whole(_) | Next::Cut => Err(FrontFault::At {
                line,
                why: FrontWhy::AfterEnd,
            }),
        }
    }

    /// What was read on the last line that was taken.
    pub fn judged<T>(&self, read: Result<T, Fault>) -> Result<T, FrontFault>
        ensures { result ≡ placed self.now.taken read }
    {
        match read {
            Ok(value) => Ok(value),
            Err(Fault::Memory(fault)) => Err(FrontFault::NoMemory(fault)),
            Err(Fault::Of(why)) => Err(FrontFault::At {
                line: self.taken,
                why,
            }),
        }
    }
}
