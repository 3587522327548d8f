//! The content lines of a text.
ghost use Rattle.std.specs.Prelude.{◌≡◌, ◌<◌, ◌+◌, ◌-◌, ◌^◌, Ok, Err, length, true, false};
ghost use Rattle.cert_text.specs.Lines.{is_comment, is_content};
ghost use Rattle.cert_text.specs.Steps.{NextIn, all_lines, NextIs, Finds, whole_line, placed};

use crate::split::place_of;
use crate::words::Fault;
use crate::{CertFault, CertWhy};
use std::marker::Model;

/// What comes next in a text: a line that an LF ends, bytes behind the last LF, or nothing.
#[derive(Clone, Copy)]
pub enum Next<'a> {
    Whole(&'a [u8]),
    Cut,
    Over,
}

/// The content lines that are not yet taken.
#[derive(Drop)]
pub struct Lines<'a> {
    rest: &'a [u8],
    taken: u32,
}

impl<'a> Model for Lines<'a> {
    ghost use Rattle.std.specs.Prelude.{◌+◌, ◌<◌, ◌-◌, ◌^◌, length};
    ghost use Rattle.cert_text.specs.Lines.{content, is_cut};
    ghost use Rattle.cert_text.specs.Steps.{Left};

    ghost Value = { Left };

    ghost view = { λ l. record { taken = l.taken; lines = content l.rest.now; cut = is_cut l.rest.now } };

    ghost invariant = { λ l. l.taken + length l.rest.now < 2 ^ 32 - 1 };
}

fn is_comment(bytes: &[u8]) -> bool
    ensures { result ≡ is_comment bytes.now }
{
    match bytes {
        [b'*', ..] => true,
        _ => false,
    }
}

fn is_content(bytes: &[u8]) -> bool
    ensures { result ≡ is_content bytes.now }
{
    !bytes.is_empty() && !is_comment(bytes)
}

// What comes next in a text, and what is left of the text behind it.
fn next_in<'a>(text: &'a [u8]) -> (Next<'a>, &'a [u8])
    ensures { NextIn result.0 text.now result.1.now }
{
    let mut rest = text;
    while let Some(at) = place_of(b'\n', rest) {
        let (line, behind) = rest.split_at(at);
        rest = &behind[1..];
        if !is_comment(line) {
            return (Next::Whole(line), rest);
        }
    }
    if is_content(rest) {
        return (Next::Cut, text);
    }
    (Next::Over, text)
}

impl<'a> Lines<'a> {
    /// All content lines of a text.
    pub fn of(text: &'a [u8]) -> Lines<'a>
        requires { length text.now < 2 ^ 32 - 1 }
        ensures { result ≡ all_lines text.now }
    {
        Lines {
            rest: text,
            taken: 0,
        }
    }

    /// Takes the next line that an LF ends.
    pub fn next(&mut self) -> Next<'a>
        ensures { NextIs result self.old self.new }
    {
        let (next, rest) = next_in(self.rest);
        self.rest = rest;
        if let Next::Whole(_) = next {
            self.taken += 1;
        }
        next
    }

    /// The number of the line that comes next, from 1.
    pub fn next_number(&self) -> u32
        ensures { result ≡ self.now.taken + 1 }
    {
        self.taken + 1
    }

    /// Takes the next line, which an LF has to end.
    #[tactic(auto, unfolding(crate::specs::Steps::whole_line))]
    pub fn whole(&mut self) -> Result<&'a [u8], CertFault>
        ensures { Finds (λ line. (line.now, self.new)) result (whole_line self.old) }
    {
        let line = self.next_number();
        match self.next() {
            Next::Whole(bytes) => Ok(bytes),
            Next::Cut | Next::Over => Err(CertFault::At {
                line,
                why: CertWhy::NotEnded,
            }),
        }
    }

    /// What was read on the last line that was taken.
    pub fn judged<T>(&self, read: Result<T, Fault>) -> Result<T, CertFault>
        ensures { result ≡ placed self.now.taken read }
    {
        match read {
            Ok(value) => Ok(value),
            Err(Fault::Memory(fault)) => Err(CertFault::NoMemory(fault)),
            Err(Fault::Of(why)) => Err(CertFault::At {
                line: self.taken,
                why,
            }),
        }
    }
}
