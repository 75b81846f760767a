// Records taken off the front of the input.
ghost use Rattle.std.specs.Prelude.{◌≡◌, ◌<◌, ◌++◌, length, MatchOption};
ghost use Rattle.console.specs.Records.{mark, two_bytes};
ghost use Rattle.console.specs.Taking.{NoText, Taken, meaning};

// A record; its text is a part of the input.
#[derive(Clone, Copy, Debug, PartialEq, Eq)]
pub(crate) enum Record<'a> {
    Network(&'a [u8]),
    Show(&'a [u8]),
    Opening,
    Asking(u16),
}

impl Record<'_> {
    // The two letters at which it is known.
    pub(crate) fn mark(&self) -> &'static str
        ensures { result.now ≡ mark (meaning self.now) }
    {
        match self {
            Record::Network(_) => "NS",
            Record::Show(_) => "SS",
            Record::Opening => "OP",
            Record::Asking(_) => "AS",
        }
    }
}

// The first record and what follows it, if a record begins here.
pub(crate) fn take_record(input: &[u8]) -> Option<(Record<'_>, &[u8])>
    ensures { Taken input.now result }
{
    match input {
        // One arm for both sheets would have to match the first letter again.
        [b'N', b'S', rest @ ..] => {
            let (text, rest) = take_text(rest)?;
            Some((Record::Network(text), rest))
        }
        [b'S', b'S', rest @ ..] => {
            let (text, rest) = take_text(rest)?;
            Some((Record::Show(text), rest))
        }
        [b'O', b'P', rest @ ..] => Some((Record::Opening, rest)),
        [b'A', b'S', rest @ ..] => {
            let (number, rest) = take_number(rest)?;
            Some((Record::Asking(number), rest))
        }
        _ => None,
    }
}

// A text after its length, and what follows it.
fn take_text(bytes: &[u8]) -> Option<(&[u8], &[u8])>
    ensures { MatchOption result (NoText bytes.now) (λ p. (length p.0.now < 65536) × (bytes.now ≡ two_bytes (length p.0.now) ++ p.0.now ++ p.1.now)) }
{
    let (length, rest) = take_number(bytes)?;
    rest.split_at_checked(usize::from(length))
}

// A number of two bytes, the high one first, and what follows it.
fn take_number(bytes: &[u8]) -> Option<(u16, &[u8])>
    ensures { MatchOption result (length bytes.now < 2) (λ p. bytes.now ≡ two_bytes p.0 ++ p.1.now) }
{
    match bytes {
        [high, low, rest @ ..] => Some((u16::from_be_bytes([*high, *low]), rest)),
        _ => None,
    }
}
