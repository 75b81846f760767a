// Explanations: the steps of a shortest pebbling.
ghost use Rattle.std.specs.Prelude.{◌≡◌, ℕ, ◌+◌, ◌<◌, ◌≤◌, true, ◌++◌, map, length, drop, if◌then◌else◌, nat_eq};
ghost use Rattle.std.specs.List.{list_all};
ghost use Rattle.horn.specs.Sheets.{Condition, any_of};
ghost use Rattle.horn.specs.Levels.{explanation, in_force, how_many};
ghost use Rattle.round.specs.Answers.{Explains};
ghost use Rattle.round.specs.Calls.{explain as explain_call};
ghost use Rattle.round.specs.Replies.{explain_answer, steps_left};
ghost use Rattle.round.specs.Lending.{rows_of, lent_sheet};
ghost use Rattle.round.specs.Needed.{lower, Choices, Marks, by_mark};
ghost use Rattle.round.specs.Ranks.{ranked};
ghost use Rattle.round.specs.Rows.{at, clause_in};
ghost use Rattle.round.specs.Runs.{Step};
ghost use Rattle.round.specs.Sound.{position, round_sheet};

use crate::propagation::Ranked;
use crate::refusals::{Explained, Refusal};
use crate::sizes::CONDITIONS;
use crate::sound::Round;

// How many conditions up to `top` are marked.
fn count_marked(marks: &[u16; CONDITIONS], top: u16) -> u16
    requires { top ≤ 1000 }
    ensures { result ≡ how_many (ranked marks.now) top }
{
    let marked = marks[1..top as usize + 1].iter().filter(|mark| **mark > 0);
    marked.count() as u16
}

// Writes the clauses of the conditions with marks up to `last`, by mark, then by number. The time is that of a pass over the
// conditions for each mark.
fn write_steps(
    marks: &[u16; CONDITIONS],
    chosen: &[u16; CONDITIONS],
    top: u16,
    last: u16,
    steps: &mut [u16],
)
    requires few { top ≤ 1000 }
    requires room { length (by_mark marks.now top last) ≤ length steps.old }
    ensures { steps.new ≡ map (at chosen.now) (by_mark marks.now top last) ++ drop (length (by_mark marks.now top last)) steps.old }
{
    // The place in `steps` is counted, and p reads two tables: a zip of them beside an iterator over `steps` is no plainer. The
    // marks count from 0, as `by_mark` does; the end of an inclusive range joins two ways out, which the proof would have to tell apart.
    let mut n = 0;
    for d in 0..last {
        for p in 1..top as usize + 1 {
            if marks[p] == d + 1 {
                steps[n] = chosen[p];
                n += 1;
            }
        }
    }
}

impl Ranked<'_> {
    // Whether all conditions of clause c, counted from 0, have ranks below r. Another test than in `all_ranked`: one function that
    // takes the test as a closure would have to say at each call what the closure means, and `all_lower` with a rank that no
    // condition has would hide what is asked; neither is plainer.
    fn all_lower(&self, c: usize, r: u16) -> bool
        requires { c < length self.now.clauses.outcomes.now }
        ensures { result ≡ list_all (lower self.now.rank.now r) (clause_in (rows_of self.now.clauses) c).body }
    {
        let body = self.clauses.body(c);
        body.iter().all(|p| self.rank[*p as usize] > 0 && self.rank[*p as usize] < r)
    }

    // Fills `chosen` with the number of each condition's chosen clause: the lowest that gives it and whose conditions all have
    // smaller ranks. A lower clause comes later and writes over a higher one.
    fn choose(&self, chosen: &mut [u16; CONDITIONS])
        ensures { Choices (lent_sheet self.now.clauses) chosen.new }
    {
        // By number: it is what is chosen.
        for c in (0..self.clauses.len()).rev() {
            let outcome = self.clauses.outcomes[c] as usize;
            if self.all_lower(c, self.rank[outcome]) {
                chosen[outcome] = c as u16 + 1;
            }
        }
    }

    // Marks the conditions of clause c, counted from 0, with their ranks.
    fn mark_body(&self, c: usize, marks: &mut [u16; CONDITIONS])
        requires { c < length self.now.clauses.outcomes.now }
        ensures { (p : ℕ) → at marks.new p ≡ (if any_of (λ b. nat_eq b p) (clause_in (rows_of self.now.clauses) c).body then at self.now.rank.now p else at marks.old p) }
    {
        for p in self.clauses.body(c) {
            marks[*p as usize] = self.rank[*p as usize];
        }
    }

    // `chosen` and `marks` stay two parameters: each function writes another one of them, so lending both in one struct is no plainer.
    // Marks what q needs, from the highest rank down: a chosen body has smaller ranks than its outcome. The time is that of a
    // pass over the conditions for each rank.
    fn mark_needed(&self, chosen: &[u16; CONDITIONS], q: u16, marks: &mut [u16; CONDITIONS])
        requires choices { Choices (lent_sheet self.now.clauses) chosen.now }
        requires condition { q ≤ self.now.clauses.conditions }
        requires force { in_force (lent_sheet self.now.clauses) q ≡ true }
        ensures { Marks (lent_sheet self.now.clauses) q marks.new }
    {
        marks.fill(0);
        marks[q as usize] = self.rank[q as usize];
        // Ranks from 0 here too, as `write_steps` says.
        for d in (0..self.rank[q as usize]).rev() {
            // By number: an iterator would borrow the marks, which are written meanwhile.
            for p in 1..self.clauses.conditions as usize + 1 {
                if marks[p] == d + 1 {
                    self.mark_body(chosen[p] as usize - 1, marks);
                }
            }
        }
    }

    // Writes the steps of the explanation of condition q; `chosen` and `marks` are tables to work in.
    fn explain(
        &self,
        q: u16,
        chosen: &mut [u16; CONDITIONS],
        marks: &mut [u16; CONDITIONS],
        steps: &mut [u16],
    ) -> Result<Explained, Refusal>
        requires { Condition (lent_sheet self.now.clauses) q }
        ensures answer { Explains (lent_sheet self.now.clauses) q (length steps.old) (explain_answer result steps.new) }
        ensures buffer { steps.new ≡ steps_left result (explanation (lent_sheet self.now.clauses) q) steps.old }
    {
        let top = self.clauses.conditions;
        let length = self.rank[q as usize];
        if length == 0 {
            return Err(Refusal::NotInForce);
        }
        self.choose(chosen);
        self.mark_needed(chosen, q, marks);
        let count = count_marked(marks, top);
        if steps.len() < count as usize {
            return Err(Refusal::ShortBuffer);
        }
        write_steps(marks, chosen, top, length, steps);
        Ok(Explained {
            length,
            steps: count,
        })
    }
}

impl Round {
    // Writes the steps of an explanation of condition p: which clauses put it in force, by the shortest way.
    pub fn explain(&mut self, p: u16, steps: &mut [u16]) -> Result<Explained, Refusal>
        ensures step { Step (position self.old) (explain_call p (length steps.old)) (explain_answer result steps.new) (position self.new) }
        ensures buffer { steps.new ≡ steps_left result (explanation (round_sheet self.old) p) steps.old }
    {
        self.condition(p)?;
        let ranked = Ranked {
            clauses: self.state.tables.rows(),
            rank: &self.state.rank,
        };
        ranked.explain(p, &mut self.state.chosen, &mut self.state.spare, steps)
    }
}
