// Random calls of an object store.
use crate::dice::Dice;

/// What a value holds: a number of its own, `e`, unless it is 0, and a list of tags. The tag 0 is null.
#[derive(Clone, Copy)]
pub struct Shape {
    pub number: i64,
    pub e: i64,
    pub tags: [i64; 3],
}

/// An index on `e`, or one on the tags, each of which is a key.
#[derive(Clone, Copy)]
pub struct Kind {
    pub is_of_tags: bool,
    pub is_unique: bool,
}

#[derive(Clone, Copy)]
pub enum Verb {
    Put,
    Add,
    PutNext,
    Delete,
    Value,
    Clear,
    AddIndex,
    DropIndex,
    SetCurrent,
    Mark,
    Undo,
    UndoAll,
    Settle,
}

/// One call. The number says how wide a range is, where an index stands, what a generator is set to, or how many marks are
/// undone.
#[derive(Clone, Copy)]
pub struct Act {
    pub verb: Verb,
    pub key: i64,
    pub number: i64,
    pub is_open: (bool, bool),
    pub shape: Shape,
    pub kind: Kind,
}

/// The largest whole number that a generator gives.
pub const LAST: i64 = 9007199254740992;

impl Act {
    /// The number that a generator is set to.
    pub fn current(&self) -> i64 {
        if self.number == 0 { LAST } else { self.number }
    }

    /// The last key of a range.
    pub fn high(&self) -> i64 {
        self.key.saturating_add(self.number.saturating_mul(3))
    }
}

fn some_verb(dice: &mut Dice) -> Verb {
    match dice.roll(200) {
        0 => Verb::Clear,
        1 | 2 => Verb::UndoAll,
        3..=10 => Verb::Undo,
        11..=14 => Verb::Settle,
        15..=17 => Verb::SetCurrent,
        18..=30 => Verb::Mark,
        31..=42 => Verb::DropIndex,
        43..=54 => Verb::AddIndex,
        55..=70 => Verb::Delete,
        71..=79 => Verb::Value,
        80..=99 => Verb::Add,
        100..=129 => Verb::PutNext,
        _ => Verb::Put,
    }
}

/// A number below the sides, and often 0.
fn some_number(dice: &mut Dice, sides: i64) -> i64 {
    if dice.is_one_of(5) {
        0
    } else {
        dice.roll(sides)
    }
}

/// The act of this step.
pub fn some_act(dice: &mut Dice, step: i64) -> Act {
    Act {
        verb: some_verb(dice),
        key: dice.roll(150).wrapping_sub(5),
        number: dice.roll(4),
        is_open: (dice.is_one_of(3), dice.is_one_of(3)),
        shape: Shape {
            number: step,
            e: some_number(dice, 500),
            tags: [
                some_number(dice, 2_000),
                some_number(dice, 2_000),
                some_number(dice, 2_000),
            ],
        },
        kind: Kind {
            is_of_tags: dice.is_one_of(2),
            is_unique: dice.is_one_of(2),
        },
    }
}
