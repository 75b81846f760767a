// Making a text in place.
ghost use Rattle.std.specs.Prelude.{◌≡◌, ◌≤◌, length, IfOk};
ghost use Rattle.text.specs.Verdicts.{Judged};
ghost use Rattle.text.specs.Reading.{Meant, starts_in};
ghost use Rattle.text.specs.InPlace.{text_sheet};

use crate::in_place::TextSheet;
use crate::judging::judge;
use crate::verdict::{Counts, Fault};
use std::alloc::{AllocError, Global};

// The places of the signs (, of which there are `count`.
fn starts_of(heap: Global, text: &[u8], count: u16) -> Result<Vec<u16>, AllocError>
    requires short { length text.now ≤ 60000 }
    requires counted { count ≡ length (starts_in 0 text.now) }
    ensures { IfOk result (λ v. v.items ≡ starts_in 0 text.now) }
{
    let mut starts = Vec::with_capacity(heap, usize::from(count))?;
    for (place, byte) in text.iter().enumerate() {
        if *byte == b'(' {
            starts.push_reserved(place as u16);
        }
    }
    Ok(starts)
}

impl<'a> TextSheet<'a> {
    // Judges a text and keeps where its clauses start; a refused text gives no clauses.
    pub fn new(heap: Global, text: &'a [u8]) -> Result<TextSheet<'a>, AllocError>
        ensures { IfOk result (λ t. Judged text.now t.verdict × Meant text.now (text_sheet t)) }
    {
        let verdict = judge(text);
        match verdict {
            Ok(counts) => {
                let starts = starts_of(heap, text, counts.clauses)?;
                Ok(TextSheet {
                    bytes: text,
                    starts,
                    verdict,
                })
            }
            Err(_) => Ok(TextSheet {
                bytes: &text[..0],
                starts: Vec::new(heap),
                verdict,
            }),
        }
    }

    // The counts of the text, or why it was refused.
    pub fn verdict(&self) -> Result<Counts, Fault>
        ensures { result ≡ self.now.verdict }
    {
        self.verdict
    }
}
