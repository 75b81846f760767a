// The limits of sheets and of their texts; each is the greatest number that is still good.
pub const MAX_CONDITION: u16 = 1000;

pub const MAX_CLAUSES: u16 = 2000;

pub const MAX_LITERALS: u16 = 8000;

pub const MAX_TEXT: usize = 60_000;
