// The limits of a text, place by place, whatever its grammar.
ghost use Rattle.std.specs.Prelude.{◌≡◌, ℕ, ◌+◌, ◌<◌, ◌≤◌, max, true, false, length, drop, slice_index_or, MatchBool, OnOk};
ghost use Rattle.text.specs.Judging.{Negated, Held, IsTooMany, Limit, many};
ghost use Rattle.text.specs.Limits.{Read, Wrong, Lowest, Limits, Clear, top_in};

use crate::condition_set::ConditionSet;
use crate::conditions::{condition, ends_negated};
use crate::verdict::{Counts, Fault};
use horn::limits::{MAX_CLAUSES, MAX_CONDITION, MAX_LITERALS};

// A pass over a text: what stands before its place, where no fault of the limits was found.
#[derive(Drop)]
struct Pass<'a> {
    text: &'a [u8],
    // a field and no loop's index, since the facts below speak of it: handing it to each method is no plainer
    place: usize,
    counts: Counts,
    // the conditions that the body around the place holds before it
    body: ConditionSet,
    ghost short: { length text.now ≤ 60000 },
    ghost within: { place ≤ length text.now },
    ghost clear: { Clear text.now place },
    ghost clauses: { counts.clauses ≡ many 40 text.now place },
    ghost literals: { counts.literals ≡ many 80 text.now place },
    ghost greatest: { max counts.conditions (top_in (drop place text.now)) ≡ top_in text.now },
    ghost low: { counts.conditions ≤ 1000 },
    ghost size: { length body ≡ 1001 },
    ghost held: { (n j : ℕ) → n ≤ 1000 → Held text.now place n j → slice_index_or body n false ≡ true },
    ghost only: { (n : ℕ) → slice_index_or body n false ≡ true → ∥ ((j : ℕ) × Held text.now place n j) ∥₁ },
}

impl Pass<'_> {
    fn rest(&self) -> &[u8]
        ensures { result.now ≡ drop self.now.place self.now.text.now }
    {
        &self.text[self.place..]
    }

    // The condition whose P stands at the place.
    fn condition(&self) -> Option<u16>
        ensures { Read self.now.text.now self.now.place result }
    {
        condition(self.rest())
    }

    // Whether a ~ stands just before the place.
    fn is_negated(&self) -> bool
        ensures { MatchBool result (Negated self.now.text.now self.now.place) (Negated self.now.text.now self.now.place → ⊥) }
    {
        ends_negated(&self.text[..self.place])
    }

    // Whether clause 2,001 or literal 8,001 begins at the place.
    fn is_too_many(&self) -> bool
        ensures { MatchBool result (IsTooMany self.now.text.now self.now.place) (IsTooMany self.now.text.now self.now.place → ⊥) }
    {
        match self.rest() {
            [b'(', ..] => self.counts.clauses == MAX_CLAUSES,
            [b'~', ..] => self.counts.literals == MAX_LITERALS,
            [b'P', ..] => !self.is_negated() && self.counts.literals == MAX_LITERALS,
            _ => false,
        }
    }

    // Whether the condition at the place is too great or repeated.
    fn check_condition(&self) -> Result<(), Fault>
        ensures { Wrong self.now.text.now self.now.place result }
    {
        let Some(condition) = self.condition() else {
            return Ok(());
        };
        if condition > MAX_CONDITION {
            return Err(Fault::TooGreat(self.place));
        }
        if self.is_negated() && self.body.contains(condition) {
            return Err(Fault::Repeated(self.place));
        }
        Ok(())
    }

    // The lowest fault at the place.
    fn check(&self) -> Result<(), Fault>
        ensures { Lowest self.now.text.now self.now.place result }
    {
        self.check_condition()?;
        if self.is_too_many() {
            return Err(Fault::TooMany(self.place));
        }
        Ok(())
    }

    // Goes past the byte at the place.
    fn step(&mut self) -> Result<(), Fault>
        requires { self.old.place < length self.old.text.now }
        ensures same { self.new.text ≡ self.old.text }
        ensures lowest { Lowest self.old.text.now self.old.place result }
        ensures on { OnOk result (self.new.place ≡ self.old.place + 1) }
    {
        self.check()?;
        let condition = self.condition();
        let negated = self.is_negated();
        match self.text[self.place] {
            b'(' => {
                self.counts.clauses += 1;
                self.body.clear();
            }
            b'P' => {
                self.counts.literals += 1;
                if let Some(n) = condition {
                    self.counts.conditions = self.counts.conditions.max(n);
                    if negated {
                        self.body.insert(n);
                    }
                }
            }
            _ => {}
        }
        self.place += 1;
        Ok(())
    }
}

// The first fault of the limits before `end`, or the counts.
pub(crate) fn limits(text: &[u8], end: usize) -> Result<Counts, Fault>
    requires within { end ≤ length text.now }
    requires short { length text.now ≤ 60000 }
    ensures { Limits text.now end result }
{
    let mut pass = Pass {
        text,
        place: 0,
        counts: Counts::default(),
        body: ConditionSet::new(),
    };
    for _ in 0..end {
        pass.step()?;
    }
    Ok(pass.counts)
}
