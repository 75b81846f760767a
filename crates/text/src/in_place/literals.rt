// The literals of a clause that is read in place.
ghost use Rattle.std.specs.Prelude.{◌≡◌, false, min, position};
ghost use Rattle.std.specs.Iterator.{YieldsFirstBy, item_count};
ghost use Rattle.text.specs.Limits.{lead_value};
ghost use Rattle.text.specs.Literals.{is_sign, literals_in, seen};

use crate::conditions::{ends_negated, lead};

// A literal: whether it is negated, and the bytes after its P. Its number is read where it is asked for.
#[derive(Clone, Copy, PartialEq, Eq, Debug)]
pub(crate) struct Literal<'a> {
    negated: bool,
    digits: &'a [u8],
}

impl Literal<'_> {
    pub(crate) fn is_negated(&self) -> bool
        ensures { result ≡ self.now.negated }
    {
        self.negated
    }

    // 1001 stands for every number above 1000.
    pub(crate) fn condition(self) -> u16
        ensures { result ≡ min 1001 (lead_value self.entry.digits.now) }
    {
        lead(self.digits)
    }
}

// The place of the next P or ).
fn next_sign(bytes: &[u8]) -> Option<usize>
    ensures { result ≡ position is_sign bytes.now }
{
    bytes.iter().position(|byte| matches!(*byte, b'P' | b')'))
}

// The literals from inside a clause to its ).
#[derive(Drop)]
pub(crate) struct Literals<'a> {
    pub(crate) rest: &'a [u8],
}

impl<'a> Iterator for Literals<'a> {
    type Item = Literal<'a>;

    ghost next_gives = { YieldsFirstBy seen (λ s. literals_in false s.rest.now) };

    ghost remaining = { item_count (λ s. literals_in false s.rest.now) };

    fn next(&mut self) -> Option<Literal<'a>> {
        let place = next_sign(self.rest)?;
        if self.rest[place] == b')' {
            return None;
        }
        let (before, from) = self.rest.split_at(place);
        let digits = &from[1..];
        self.rest = digits;
        Some(Literal {
            negated: ends_negated(before),
            digits,
        })
    }
}
