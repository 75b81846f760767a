// The console, from all input to all output.
ghost use Rattle.std.specs.Prelude.{◌≡◌, take, IfOk, string_bytes};
ghost use Rattle.console.specs.Session.{Served};

use crate::desk::Desk;
use crate::lines::{Refused, push_line};
use crate::records::take_record;
use std::alloc::{AllocError, Global};

// How many bytes of the input are read at most.
pub const LIMIT: usize = 48_000;

// Answers every record of the input, one line each, up to the first place where no record begins.
pub fn serve(heap: Global, input: &[u8]) -> Result<String, AllocError>
    ensures { IfOk result (λ out. Served (take 48000 input.now) (string_bytes out)) }
{
    let bytes = &input[..LIMIT.min(input.len())];
    let mut desk = Desk::new(heap)?;
    let mut out = String::new(heap);
    let mut rest = bytes;
    while let Some((taken, tail)) = take_record(rest) {
        let reply = desk.answer(heap, taken)?;
        push_line(&mut out, taken.mark(), reply)?;
        rest = tail;
    }
    if !rest.is_empty() {
        let offset = bytes.len() - rest.len();
        push_line(&mut out, "--", Err(Refused::Record(offset)))?;
    }
    Ok(out)
}
