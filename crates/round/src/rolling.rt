// A set of conditions as bits in words.
ghost use Rattle.std.specs.Prelude.{◌≡◌, ◌≤◌, ◌++◌, length, drop};
ghost use Rattle.horn.specs.Levels.{how_many};
ghost use Rattle.round.specs.Answers.{words_for, roll_words, bits, up_to};
ghost use Rattle.round.specs.Ranks.{ranked};

use crate::propagation::Ranked;

// How many words hold a bit for each condition.
pub(crate) fn words_for(top: u16) -> usize
    ensures { result ≡ words_for top }
{
    usize::from(top).div_ceil(32)
}

impl Ranked<'_> {
    // Whether p is a condition and has a rank.
    fn holds(&self, p: usize) -> bool
        ensures { result ≡ up_to self.now.clauses.conditions (ranked self.now.rank.now) p }
    {
        p <= usize::from(self.clauses.conditions) && self.rank[p] > 0
    }

    // The 32 numbers from `first` on, each as a bit, the first one the lowest.
    fn word(&self, first: usize) -> u32
        requires { first ≤ 1024 }
        ensures { result ≡ bits (up_to self.now.clauses.conditions (ranked self.now.rank.now)) first 32 }
    {
        let mut word = 0;
        // A fold is no plainer: that the word fits has to be said of each turn.
        for b in (0..32).rev() {
            let bit = u32::from(self.holds(first + b));
            word = word * 2 + bit;
        }
        word
    }

    // Writes the conditions that have a rank, and counts them.
    pub(crate) fn write_roll(&self, words: &mut [u32]) -> u16
        requires { words_for self.now.clauses.conditions ≤ length words.old }
        ensures count { result ≡ how_many (ranked self.now.rank.now) self.now.clauses.conditions }
        ensures written { words.new ≡ roll_words (ranked self.now.rank.now) self.now.clauses.conditions ++ drop (words_for self.now.clauses.conditions) words.old }
    {
        let mut count = 0;
        let roll = &mut words[..words_for(self.clauses.conditions)];
        for (w, slot) in roll.iter_mut().enumerate() {
            *slot = self.word(32 * w + 1);
            count += slot.count_ones();
        }
        count as u16
    }
}
