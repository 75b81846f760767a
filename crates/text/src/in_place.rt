// A text as a source of clauses, read in place.
ghost use Rattle.std.specs.Prelude.{◌≡◌, ◌≤◌, true, length};
ghost use Rattle.horn.specs.Lawfulness.{lawful};
ghost use Rattle.text.specs.Verdicts.{conditions_in};
ghost use Rattle.text.specs.Reading.{sheet_in, clauses_in, starts_in, Small};

use crate::verdict::{Counts, Fault};

mod literals;
mod making;
pub mod questions;

// A good text with the place where each clause starts, or the empty text for a refused one.
// Places and not slices: a slice for each clause takes eight times the memory, and the facts below compare places, so it is no plainer.
// The verdict stays beside the text: a refused one has the empty text, so one struct answers every question; an enum would ask
// each of them twice, which is no plainer.
#[derive(Drop)]
pub struct TextSheet<'a> {
    bytes: &'a [u8],
    starts: Vec<u16>,
    verdict: Result<Counts, Fault>,
    ghost short: { length bytes.now ≤ 60000 },
    ghost small: { Small bytes.now },
    ghost placed: { starts.items ≡ starts_in 0 bytes.now },
    ghost low: { conditions_in verdict ≤ 1000 },
    ghost few: { length (clauses_in bytes.now) ≤ 65535 },
    ghost proper: { lawful (sheet_in (conditions_in verdict) bytes.now) ≡ true },
}
