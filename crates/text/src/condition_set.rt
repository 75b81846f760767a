// A set of conditions that is emptied in one step.
ghost use Rattle.std.specs.Prelude.{◌≡◌, ℕ, ◌≤◌, ◌==◌, true, false, map, List, Bool, All, replicate, slice_set, slice_index_or};

use horn::limits::MAX_CONDITION;
use std::marker::Model;

const SIZE: usize = MAX_CONDITION as usize + 1;

// Condition n is in the set if its stamp is the current one.
#[derive(Drop)]
pub(crate) struct ConditionSet {
    stamps: [u16; SIZE],
    current: u16,
}

impl Model for ConditionSet {
    ghost Value = { List Bool };

    ghost view = { λ s. map (λ stamp. stamp == s.current) s.stamps };

    ghost invariant = { λ s. All (λ stamp. stamp ≤ s.current) s.stamps };
}

impl ConditionSet {
    pub(crate) fn new() -> ConditionSet
        ensures { result ≡ replicate 1001 false }
    {
        ConditionSet {
            stamps: [0; SIZE],
            current: 1,
        }
    }

    pub(crate) fn contains(&self, condition: u16) -> bool
        requires { condition ≤ 1000 }
        ensures { result ≡ slice_index_or self.now condition false }
    {
        self.stamps[usize::from(condition)] == self.current
    }

    pub(crate) fn insert(&mut self, condition: u16)
        requires { condition ≤ 1000 }
        ensures { self.new ≡ slice_set self.old condition true }
    {
        self.stamps[usize::from(condition)] = self.current;
    }

    pub(crate) fn clear(&mut self)
        ensures { self.new ≡ replicate 1001 false }
    {
        match self.current.checked_add(1) {
            Some(next) => self.current = next,
            None => *self = ConditionSet::new(),
        }
    }
}
