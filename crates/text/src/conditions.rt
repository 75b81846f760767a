// The condition that some bytes begin with.
ghost use Rattle.std.specs.Prelude.{◌≡◌, ◌-◌, ◌==◌, min, length, slice_index};
ghost use Rattle.text.specs.Judging.{run_value};
ghost use Rattle.text.specs.Limits.{Read, lead_value};

use horn::limits::MAX_CONDITION;

// What stands for every number above the greatest condition; an Option is no plainer, since it is only compared.
const TOO_GREAT: u16 = MAX_CONDITION + 1;

// The number whose digits the bytes begin with.
fn number(bytes: &[u8]) -> u16
    ensures { result ≡ min 1001 (run_value 0 bytes.now) }
{
    let mut value = 0;
    for byte in bytes {
        if !byte.is_ascii_digit() {
            return value;
        }
        value = (value * 10 + u16::from(*byte - b'0')).min(TOO_GREAT);
    }
    value
}

// The number that the bytes begin with, 0 where none stands there.
pub(crate) fn lead(bytes: &[u8]) -> u16
    ensures { result ≡ min 1001 (lead_value bytes.now) }
{
    match bytes {
        [b'1'..=b'9', ..] => number(bytes),
        _ => 0,
    }
}

// The condition whose P the bytes begin with.
pub(crate) fn condition(bytes: &[u8]) -> Option<u16>
    ensures { Read bytes.now 0 result }
{
    match bytes {
        [b'P', digits @ ..] if matches!(digits, [b'1'..=b'9', ..]) => Some(number(digits)),
        _ => None,
    }
}

// Whether the bytes end with a ~, so that a condition after them is negated.
pub(crate) fn ends_negated(bytes: &[u8]) -> bool
    ensures { result ≡ (slice_index bytes.now (length bytes.now - 1) == 126) }
{
    matches!(bytes, [.., b'~'])
}
