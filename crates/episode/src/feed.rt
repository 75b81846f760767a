// Reading a feed: the words of a roll.
ghost use Rattle.std.specs.Prelude.{◌≡◌, ◌≤◌, MatchBool};
ghost use Rattle.round.specs.Exact.{bit_of};

// Whether the bit of condition p is set.
pub(crate) fn is_set(words: &[u32], p: u16) -> bool
    requires { 1 ≤ p }
    ensures { MatchBool result (bit_of words.now p ≡ 1) (bit_of words.now p ≡ 0) }
{
    let bit = usize::from(p - 1);
    words
        .get(bit / 32)
        .is_some_and(|word| word >> (bit % 32) & 1 == 1)
}
