// Judging a text.
ghost use Rattle.text.specs.Verdicts.{Judged};

use crate::limits::limits;
use crate::states::outside_at;
use crate::verdict::{Counts, Fault};
use horn::limits::MAX_TEXT;

// Judges a text: the numbers of its clauses, conditions and literals, or its first fault.
pub fn judge(text: &[u8]) -> Result<Counts, Fault>
    ensures { Judged text.now result }
{
    if text.len() > MAX_TEXT {
        return Err(Fault::TooLong);
    }
    let outside = outside_at(text);
    let end = outside.unwrap_or(text.len());
    let counts = limits(text, end)?;
    match outside {
        None => Ok(counts),
        Some(place) => Err(Fault::Outside(place)),
    }
}
