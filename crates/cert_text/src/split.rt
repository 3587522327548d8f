//! A text cut at each separator, part by part.
ghost use Rattle.std.specs.Prelude.{◌≡◌, ◌==◌, ◌<◌, ◌∷◌, [], IfSome, MatchOption, Some, length, position, slice_get};
ghost use Rattle.cert_text.specs.Splits.{split};

use std::marker::Model;

/// The place of the first byte that is this one.
pub fn place_of(byte: u8, text: &[u8]) -> Option<usize>
    ensures place { result ≡ position (λ b. b == byte) text.now }
    ensures within { IfSome result (λ place. place < length text.now) }
{
    text.iter().position(|b| *b == byte)
}

/// The parts of a text between separators that are not yet taken. Contracts see the list of them.
#[derive(Drop)]
pub struct Split<'a> {
    rest: Option<&'a [u8]>,
    separator: u8,
}

impl<'a> Model for Split<'a> {
    ghost use Rattle.std.specs.Prelude.{ℕ, List};
    ghost use Rattle.cert_text.specs.Splits.{split_left};

    ghost Value = { List (List ℕ) };

    ghost view = { λ p. split_left p.separator p.rest };
}

impl<'a> Split<'a> {
    /// All parts of a text.
    pub fn of(text: &'a [u8], separator: u8) -> Split<'a>
        ensures { result ≡ split separator text.now }
    {
        Split {
            rest: Some(text),
            separator,
        }
    }

    /// The first of the parts that are left, which is not taken.
    pub fn first(&self) -> Option<&'a [u8]>
        ensures { MatchOption result (self.now ≡ []) (λ part. slice_get self.now 0 ≡ Some part.now) }
    {
        let rest = self.rest?;
        match place_of(self.separator, rest) {
            Some(at) => {
                let (part, _) = rest.split_at(at);
                Some(part)
            }
            None => Some(rest),
        }
    }

    /// Takes the first of the parts that are left.
    pub fn next(&mut self) -> Option<&'a [u8]>
        ensures { MatchOption result ((self.old ≡ []) × (self.new ≡ [])) (λ part. self.old ≡ part.now ∷ self.new) }
    {
        let rest = self.rest?;
        match place_of(self.separator, rest) {
            Some(at) => {
                let (part, behind) = rest.split_at(at);
                self.rest = Some(&behind[1..]);
                Some(part)
            }
            None => {
                self.rest = None;
                Some(rest)
            }
        }
    }
}
